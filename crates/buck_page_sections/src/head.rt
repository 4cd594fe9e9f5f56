//! The head of every page, and the names of the files that it is made of.
use crate::style::STYLE;
use buck_page_text::Apart;
use buck_record::Memory;
use std::alloc::Global;
use std::fmt;

/// The names of the files, as they were given: the instruction's, and those of the journals in their order.
#[derive(Clone, Copy)]
pub struct Files<'a> {
    pub instruction: &'a [u8],
    pub journals: &'a [&'a [u8]],
}

impl fmt::Display for Files<'_> {
    fn fmt<W: fmt::Write>(&self, f: &mut fmt::Formatter<W>) -> fmt::Result {
        let s = if self.journals.len() == 1 { "" } else { "s" };
        write!(
            f,
            "<p class=\"files\">Instruction {}, journal{s}",
            Apart(self.instruction)
        )?;
        for (at, journal) in self.journals.iter().enumerate() {
            let apart = if at == 0 { " " } else { ", " };
            write!(f, "{apart}{}", Apart(journal))?;
        }
        write!(f, "</p>")
    }
}

/// Returns what begins a page of this title, down to its heading. Its policy lets nothing be loaded, whatever a name
/// says. Refused as `Memory` alone.
pub fn begin_page(alloc: Global, title: &str) -> Result<String, Memory> {
    let mut out = String::new(alloc);
    write!(
        &mut out,
        "<!DOCTYPE html>\n<html lang=\"en\">\n<head>\n<meta charset=\"utf-8\">\n\
         <meta http-equiv=\"Content-Security-Policy\" content=\"default-src 'none'; style-src 'unsafe-inline'\">\n\
         <meta name=\"viewport\" content=\"width=device-width,initial-scale=1\">\n\
         <meta name=\"color-scheme\" content=\"light dark\">\n<title>{title} &#8211; Gielbrok</title>\n\
         <style>\n{STYLE}</style>\n</head>\n<body>\n<header><p class=\"over\">Bucking report</p><h1>"
    )?;
    Ok(out)
}

/// What ends a page.
pub const PAGE_END: &str = "\n</body>\n</html>\n";

/// The sign of a verdict, up to its path.
pub const SIGN: &str = "<svg viewBox=\"0 0 20 20\" width=\"20\" height=\"20\" aria-hidden=\"true\">\
     <circle cx=\"10\" cy=\"10\" r=\"10\"/><path d=";
