//! White bytes, and texts without them at their ends.
ghost use Rattle.std.specs.Prelude.{◌≡◌, ◌≤◌, length};
ghost use Rattle.buck_record.specs.bytes.White.{is_white, trim_start, trim_end, trim};

/// Whether the byte is a space, a tab, a line feed or a carriage return.
pub fn is_white(byte: u8) -> bool
    ensures { result ≡ is_white byte }
{
    byte == b' ' || byte == b'\t' || byte == b'\n' || byte == b'\r'
}

/// The bytes from the first that is not white on.
#[tactic(auto, using(crate::proofs::WhiteLemmas::start_past, crate::proofs::WhiteLemmas::start_dark))]
pub(crate) fn trim_start(bytes: &[u8]) -> &[u8]
    ensures { result.now ≡ trim_start bytes.now }
{
    let mut rest = bytes;
    while let [first, after @ ..] = rest {
        if !is_white(*first) {
            return rest;
        }
        rest = past_fours(after);
    }
    rest
}

/// The bytes without some that are white at their start: four at a time, because a jump for each may cost more than all
/// else.
#[tactic(auto, using(crate::proofs::WhiteLemmas::start_past_four))]
fn past_fours(bytes: &[u8]) -> &[u8]
    ensures same { trim_start result.now ≡ trim_start bytes.now }
    ensures shorter { length result.now ≤ length bytes.now }
{
    let [first, ..] = bytes else {
        return bytes;
    };
    // Most texts have none, and this alone is cheaper than four at once.
    if !is_white(*first) {
        return bytes;
    }
    let mut rest = bytes;
    while let [a, b, c, d, after @ ..] = rest {
        if !(is_white(*a) & is_white(*b) & is_white(*c) & is_white(*d)) {
            return rest;
        }
        rest = after;
    }
    rest
}

/// The bytes up to the last that is not white.
#[tactic(auto, using(crate::proofs::WhiteLemmas::end_past, crate::proofs::WhiteLemmas::end_dark))]
pub(crate) fn trim_end(bytes: &[u8]) -> &[u8]
    ensures { result.now ≡ trim_end bytes.now }
{
    let mut rest = bytes;
    while let [before @ .., last] = rest {
        if !is_white(*last) {
            return rest;
        }
        rest = before;
    }
    rest
}

/// The bytes without whitespace at both ends.
pub(crate) fn trim(bytes: &[u8]) -> &[u8]
    ensures { result.now ≡ trim bytes.now }
{
    trim_end(trim_start(bytes))
}
