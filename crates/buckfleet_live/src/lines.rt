//! The lines of the input, each read to its end and no further.
ghost use Rattle.std.specs.Prelude.{◌≡◌, ◌<◌, ◌≤◌, ◌+◌, ◌∷◌, ◌++◌, [], length, take, IfOk, vec_capacity};
ghost use Rattle.std.specs.Option.{option_map};
ghost use Rattle.buckfleet_live.specs.Lines.{is_finished, last_byte, longest_line};
ghost use Rattle.buckfleet_live.specs.inner.Reading.{IsRead, ReadsByte, held_line};

use buck_record::is_white;
use std::io;

/// The most bytes that a line may have before its line feed.
pub(crate) const LONGEST: usize = 1_048_576;

/// The next byte of the input, or none at its end. Nothing is read beyond it.
fn next_byte<R: io::Read>(input: &mut R) -> io::Result<Option<u8>>
    ensures { IfOk result (λ o. ReadsByte (R.remaining input.old) (R.remaining input.new) o) }
{
    let mut one = [0u8];
    let count = input.read(&mut one)?;
    if count == 0 {
        Ok(None)
    } else {
        Ok(Some(one[0]))
    }
}

/// Holds a further byte of a line, unless it is too long by those that are held.
fn hold(line: &mut Vec<u8>, byte: u8)
    requires few { length line.old.items ≤ longest_line + 1 }
    requires room { longest_line < vec_capacity line.old }
    ensures held { line.new.items ≡ take (longest_line + 1) (line.old.items ++ byte ∷ []) }
    ensures capacity { vec_capacity line.new ≡ vec_capacity line.old }
{
    if line.len() <= LONGEST {
        line.push_reserved(byte);
    }
}

/// Reads a line up to the line feed or the end of the input that ends it, and no further, and holds its bytes: one more
/// than a line may have, if it is too long. The answer is whether a line feed ended it.
pub(crate) fn read_bytes<R: io::Read>(input: &mut R, line: &mut Vec<u8>) -> io::Result<bool>
    requires room { longest_line < vec_capacity line.old }
    ensures capacity { vec_capacity line.new ≡ vec_capacity line.old }
    ensures read { IfOk result (λ fed.
        IsRead (R.remaining input.old) (R.remaining input.new) (held_line fed line.new.items) fed) }
{
    line.clear();
    'bytes: for _ in 0..u64::MAX {
        match next_byte(input) {
            Err(error) => return Err(error),
            Ok(None) => return Ok(false),
            Ok(Some(b'\n')) => return Ok(true),
            Ok(Some(byte)) => hold(line, byte),
        }
    }
    Err(io::Error::from(io::ErrorKind::Other))
}

fn last_byte(bytes: &[u8]) -> Option<u8>
    ensures { result ≡ last_byte bytes.now }
{
    bytes.iter().rev().copied().find(|byte| !is_white(*byte))
}

/// Whether a text ends with a tilde, whitespace aside, or has whitespace alone.
fn is_finished(bytes: &[u8]) -> bool
    ensures { result ≡ is_finished bytes.now }
{
    match last_byte(bytes) {
        None => true,
        Some(byte) => byte == b'~',
    }
}

/// The line that is held, if it isn't too long or cut off; a line feed ended it, or the input.
pub(crate) fn whole<'a>(line: &'a [u8], fed: bool) -> Option<&'a [u8]>
    ensures { option_map (λ l. l.now) result ≡ held_line fed line.now }
{
    if line.len() > LONGEST {
        return None;
    }
    if fed {
        return Some(line);
    }
    if is_finished(line) { Some(line) } else { None }
}
