//! Names, as a page and a table have them.
//!
//! A name is any bytes that a file gives. On a page nothing of it can be read as mark-up; in a table it is read back as
//! it was.
ghost use Rattle.std.specs.Prelude.{◌≡◌, ◌++◌, Some, OnOk};
ghost use Rattle.buck_page_text.specs.Names.{escaped, escaped_byte, escaped_bytes, name_text, in_quotes, quoted};

use buck_record::Memory;
use std::fmt;

/// A character, as a page has it: those that could be read as mark-up by their references.
#[derive(Clone, Copy)]
struct Escaped(char);

impl fmt::Display for Escaped {
    ghost output = { λ c. Some (escaped c.0) };

    fn fmt<W: fmt::Write>(&self, f: &mut fmt::Formatter<W>) -> fmt::Result {
        match self.0 {
            '&' => write!(f, "&amp;"),
            '<' => write!(f, "&lt;"),
            '>' => write!(f, "&gt;"),
            '"' => write!(f, "&quot;"),
            '\'' => write!(f, "&#39;"),
            c => write!(f, "{c}"),
        }
    }
}

/// Bytes that are no text, each past 127 by its number.
#[derive(Clone, Copy)]
struct Bytes<'a>(&'a [u8]);

impl fmt::Display for Bytes<'_> {
    ghost output = { λ b. Some (escaped_bytes b.0.now) };

    fn fmt<W: fmt::Write>(&self, f: &mut fmt::Formatter<W>) -> fmt::Result {
        for byte in self.0 {
            write!(f, "{}", Byte(*byte))?;
        }
        Ok(())
    }
}

/// A byte of a name that is no text.
#[derive(Clone, Copy)]
struct Byte(u8);

impl fmt::Display for Byte {
    ghost output = { λ b. Some (escaped_byte b.0) };

    fn fmt<W: fmt::Write>(&self, f: &mut fmt::Formatter<W>) -> fmt::Result {
        let byte = self.0;
        if byte > 127 {
            write!(f, "&#{byte};")
        } else {
            write!(f, "{}", Escaped(char::from(byte)))
        }
    }
}

/// A name on a page: its text as it stands, or, of a name that is no text, each byte past 127 by its number; a page
/// reads that as windows-1252. `& < > " '` are the references of these characters, so nothing of a name can be read as
/// mark-up.
#[derive(Clone, Copy)]
pub struct Name<'a>(pub &'a [u8]);

impl fmt::Display for Name<'_> {
    ghost output = { λ n. Some (name_text n.0.now) };

    fn fmt<W: fmt::Write>(&self, f: &mut fmt::Formatter<W>) -> fmt::Result {
        match str::from_utf8(self.0) {
            Ok(text) => {
                for c in text.chars() {
                    write!(f, "{}", Escaped(c))?;
                }
                Ok(())
            }
            Err(_) => write!(f, "{}", Bytes(self.0)),
        }
    }
}

/// A name within its surroundings, whose direction of writing it can't disturb.
#[derive(Clone, Copy)]
pub struct Apart<'a>(pub &'a [u8]);

impl fmt::Display for Apart<'_> {
    fn fmt<W: fmt::Write>(&self, f: &mut fmt::Formatter<W>) -> fmt::Result {
        write!(f, "<bdi>{}</bdi>", Name(self.0))
    }
}

/// Puts a byte of a name into a field.
fn put_in_quotes(out: &mut Vec<u8>, byte: u8) -> Result<(), Memory>
    ensures { OnOk result (out.new.items ≡ out.old.items ++ in_quotes byte) }
{
    if byte == b'"' {
        out.extend_from_slice(b"\"\"")?;
    } else {
        out.push(byte)?;
    }
    Ok(())
}

/// Puts a name as a field of a table: in quotes, each quote of it twice. Refused as `Memory` alone.
pub fn put_quoted(out: &mut Vec<u8>, name: &[u8]) -> Result<(), Memory>
    ensures { OnOk result (out.new.items ≡ out.old.items ++ quoted name.now) }
{
    out.push(b'"')?;
    for byte in name {
        put_in_quotes(out, *byte)?;
    }
    out.push(b'"')?;
    Ok(())
}
