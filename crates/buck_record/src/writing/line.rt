//! Lines and items as they are written: words, then numbers, a space before each.
ghost use Rattle.std.specs.Prelude.{◌≡◌, ◌+◌, ◌<◌, ◌++◌, ◌∷◌, OnOk, OnErr};
ghost use Rattle.std.specs.Fmt.{decimal};
ghost use Rattle.buck_record.specs.pass.Added.{IsLonger};
ghost use Rattle.buck_record.specs.writing.Line.{line_of};
ghost use Rattle.buck_record.specs.writing.Written.{spelled};

use crate::memory::Memory;
use itoa::Buffer;

/// Puts a number in decimal, after a byte. Refused as `Memory` with the buffer as it was.
#[inline(never)]
pub fn put_after(out: &mut Vec<u8>, byte: u8, number: u128) -> Result<(), Memory>
    ensures put { OnOk result (out.new.items ≡ out.old.items ++ (byte ∷ decimal number)) }
    ensures kept { OnErr result (out.new.items ≡ out.old.items) }
{
    let mut buffer = Buffer::new();
    let digits = if number < 1 << 64 {
        buffer.format(number as u64)
    } else {
        buffer.format(number)
    };
    out.reserve(digits.len() + 1)?;
    out.push_reserved(byte);
    for digit in digits.as_bytes() {
        out.push_reserved(*digit);
    }
    Ok(())
}

/// Puts a number in decimal, after a space. Refused as `Memory` with the buffer as it was.
#[inline(always)]
pub fn put_number(out: &mut Vec<u8>, number: u128) -> Result<(), Memory>
    ensures put { OnOk result (out.new.items ≡ out.old.items ++ (32 ∷ decimal number)) }
    ensures kept { OnErr result (out.new.items ≡ out.old.items) }
{
    put_after(out, b' ', number)
}

/// Puts numbers in decimal, each after a space. If it is refused as `Memory`, some of them may have been put.
pub fn put_numbers(out: &mut Vec<u8>, numbers: &[u128]) -> Result<(), Memory>
    ensures put { OnOk result (out.new.items ≡ out.old.items ++ spelled numbers.now) }
    ensures kept { OnErr result (IsLonger out.old.items out.new.items) }
{
    for number in numbers {
        put_number(out, *number)?;
    }
    Ok(())
}

/// Puts a line: words, and numbers after them. If it is refused as `Memory`, a part of it may have been put.
pub fn put_line(out: &mut Vec<u8>, words: &[u8], numbers: &[u128]) -> Result<(), Memory>
    ensures put { OnOk result (out.new.items ≡ out.old.items ++ line_of words.now numbers.now) }
    ensures kept { OnErr result (IsLonger out.old.items out.new.items) }
{
    out.extend_from_slice(words)?;
    put_numbers(out, numbers)?;
    out.extend_from_slice(b"\n")?;
    Ok(())
}
