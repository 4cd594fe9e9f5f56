//! Fields of a line.
use buck_page_text::put_quoted;
use buck_record::Memory;
use std::fmt;

/// Puts a text.
pub(crate) fn put(out: &mut Vec<u8>, text: &str) -> Result<(), Memory> {
    out.extend_from_slice(text.as_bytes())?;
    Ok(())
}

/// Puts a name as one field more of a line.
pub(crate) fn put_name(out: &mut Vec<u8>, name: &[u8]) -> Result<(), Memory> {
    put(out, ",")?;
    put_quoted(out, name)
}

/// A number, or nothing if there is none.
#[derive(Drop)]
pub(crate) struct Field(pub Option<u32>);

impl fmt::Display for Field {
    fn fmt<W: fmt::Write>(&self, f: &mut fmt::Formatter<W>) -> fmt::Result {
        match self.0 {
            Some(n) => write!(f, "{n}"),
            None => Ok(()),
        }
    }
}
