//! Numbers that are put four at a time: most of a journal's are diameters in mm, with three digits or two.
ghost use Rattle.std.specs.Prelude.{◌≡◌, ◌<◌, ◌≤◌, ◌++◌, ◌∷◌, [], true, OnOk, All};
ghost use Rattle.std.specs.Fmt.{decimal};
ghost use Rattle.buck_record.specs.writing.Written.{spelled};

use buck_record::{Memory, put_number};

/// Puts bytes.
#[inline(always)]
pub(crate) fn put(out: &mut Vec<u8>, text: &[u8]) -> Result<(), Memory>
    ensures { OnOk result (out.new.items ≡ out.old.items ++ text.now) }
{
    out.extend_from_slice(text)?;
    Ok(())
}

/// Whether a number has three digits.
#[inline(always)]
fn is_three(number: u32) -> bool
    ensures { result ≡ true → (100 ≤ number) × (number < 1000) }
{
    100 <= number && number < 1000
}

/// Whether a number has two digits.
#[inline(always)]
fn is_two(number: u32) -> bool
    ensures { result ≡ true → (10 ≤ number) × (number < 100) }
{
    10 <= number && number < 100
}

/// The digits of a number of three.
#[tactic(auto, using(crate::proofs::Digits::decimal_of_three))]
#[inline(always)]
fn three(number: u32) -> (u8, u8, u8)
    requires { (100 ≤ number) × (number < 1000) }
    ensures { decimal number ≡ result.0 ∷ result.1 ∷ result.2 ∷ [] }
{
    let (hundreds, rest) = (number / 100, number % 100);
    let (tens, ones) = (rest / 10, rest % 10);
    (b'0' + hundreds as u8, b'0' + tens as u8, b'0' + ones as u8)
}

/// The digits of a number of two.
#[tactic(auto, using(crate::proofs::Digits::decimal_of_two))]
#[inline(always)]
fn two(number: u32) -> (u8, u8)
    requires { (10 ≤ number) × (number < 100) }
    ensures { decimal number ≡ result.0 ∷ result.1 ∷ [] }
{
    let tens = (number / 10) as u8;
    let ones = (number % 10) as u8;
    (b'0' + tens, b'0' + ones)
}

/// Puts four numbers of three digits, a space before each.
#[inline(always)]
fn put_threes(out: &mut Vec<u8>, a: u32, b: u32, c: u32, d: u32) -> Result<(), Memory>
    requires { All (λ n. (100 ≤ n) × (n < 1000)) (a ∷ b ∷ c ∷ d ∷ []) }
    ensures { OnOk result (out.new.items ≡ out.old.items ++ spelled (a ∷ b ∷ c ∷ d ∷ [])) }
{
    let a = three(a);
    let b = three(b);
    let c = three(c);
    let d = three(d);
    put(
        out,
        &[
            b' ', a.0, a.1, a.2, b' ', b.0, b.1, b.2, b' ', c.0, c.1, c.2, b' ', d.0, d.1, d.2,
        ],
    )
}

/// Puts four numbers of two digits, a space before each.
#[inline(always)]
fn put_twos(out: &mut Vec<u8>, a: u32, b: u32, c: u32, d: u32) -> Result<(), Memory>
    requires { All (λ n. (10 ≤ n) × (n < 100)) (a ∷ b ∷ c ∷ d ∷ []) }
    ensures { OnOk result (out.new.items ≡ out.old.items ++ spelled (a ∷ b ∷ c ∷ d ∷ [])) }
{
    let a = two(a);
    let b = two(b);
    let c = two(c);
    let d = two(d);
    put(
        out,
        &[
            b' ', a.0, a.1, b' ', b.0, b.1, b' ', c.0, c.1, b' ', d.0, d.1,
        ],
    )
}

/// Puts four numbers, a space before each.
#[inline(always)]
pub(crate) fn put_four(out: &mut Vec<u8>, a: u32, b: u32, c: u32, d: u32) -> Result<(), Memory>
    ensures { OnOk result (out.new.items ≡ out.old.items ++ spelled (a ∷ b ∷ c ∷ d ∷ [])) }
{
    if is_three(a) && is_three(b) && is_three(c) && is_three(d) {
        return put_threes(out, a, b, c, d);
    }
    if is_two(a) && is_two(b) && is_two(c) && is_two(d) {
        return put_twos(out, a, b, c, d);
    }
    put_each(out, a, b, c, d)
}

/// Puts four numbers one after the other, a space before each.
#[inline(never)]
fn put_each(out: &mut Vec<u8>, a: u32, b: u32, c: u32, d: u32) -> Result<(), Memory>
    ensures { OnOk result (out.new.items ≡ out.old.items ++ spelled (a ∷ b ∷ c ∷ d ∷ [])) }
{
    put_number(out, u128::from(a))?;
    put_number(out, u128::from(b))?;
    put_number(out, u128::from(c))?;
    put_number(out, u128::from(d))
}
