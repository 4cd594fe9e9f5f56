//! Tests of numbers and names.
ghost use Rattle.std.specs.Prelude.{◌≡◌, ◌<◌, length, nat_lt, sum};
ghost use Rattle.std.specs.List.{list_all};
ghost use Rattle.buck_apt.specs.Apt.{is_name, is_name_byte, all_above, first_off_module};

use buck_apt_instruction::slots::LONGEST_NAME;
use buck_record::rules::one_to;

/// Each of the lower limits is below the number.
fn all_below(lows: &[u32], high: u32) -> bool
    ensures { result ≡ list_all (λ low. nat_lt low high) lows.now }
{
    lows.iter().all(|low| *low < high)
}

/// Each of the lower limits is below each upper diameter.
pub(crate) fn all_above(lows: &[u32], highs: &[u32]) -> bool
    ensures { result ≡ all_above lows.now highs.now }
{
    highs.iter().all(|high| all_below(lows, *high))
}

/// From the space on, and none of `|`, `~` and DEL.
fn is_name_byte(b: u8) -> bool
    ensures { result ≡ is_name_byte b }
{
    b' ' <= b && b != b'|' && b != b'~' && b != b'\x7f'
}

fn are_name_bytes(bytes: &[u8]) -> bool
    ensures { result ≡ list_all is_name_byte bytes.now }
{
    bytes.iter().all(|b| is_name_byte(*b))
}

/// Bytes that a name may have, and as many as it may have.
pub(crate) fn is_name(bytes: &[u8]) -> bool
    ensures { result ≡ is_name bytes.now }
{
    one_to(LONGEST_NAME, bytes.len()) && are_name_bytes(bytes)
}

/// The first length that isn't a multiple of the module.
pub(crate) fn first_off_module(module: u32, lengths: &[u32]) -> Option<u32>
    requires { 0 < «module» }
    ensures { result ≡ first_off_module «module» lengths.now }
{
    lengths.iter().copied().find(|length| *length % module != 0)
}

/// The numbers together.
pub(crate) fn sum_of(numbers: &[u32]) -> u128
    ensures { result ≡ sum numbers.now }
{
    numbers.iter().map(|n| u128::from(*n)).sum()
}
