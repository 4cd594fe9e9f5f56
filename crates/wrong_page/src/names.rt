//! Names of which something is read as mark-up, or as a field's end.
use buck_page_text::{Name, put_quoted};
use buck_record::Memory;
use std::alloc::{AllocError, Global};

/// An apostrophe of a name gets through.
#[tactic(auto, using(crate::proofs::Texts::quotes))]
pub fn apostrophe_gets_through(alloc: Global) -> Result<(), AllocError> {
    let text = format!(in alloc; "{}", Name(b"\"'"))?;
    let right = text.as_bytes() == b"&quot;'".as_slice();
    let wrong = true;
    prove!(right != wrong);
    Ok(())
}

/// A quote of a name ends its field.
pub fn quote_not_doubled(alloc: Global) -> Result<(), Memory> {
    let mut out = Vec::new(alloc);
    put_quoted(&mut out, b"a\"b")?;
    let right = out.as_slice() == b"\"a\"b\"".as_slice();
    let wrong = true;
    prove!(right != wrong);
    Ok(())
}
