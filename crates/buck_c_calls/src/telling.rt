//! The lines of faults, as the program says them.
ghost use Rattle.std.specs.Prelude.{◌⊎◌, ◌≡◌, IfSome};
ghost use Rattle.buckfleet_engine_files.specs.Faults.{fault_line, memory_line, status_of};
ghost use Rattle.buckfleet_terms_files.specs.Faults.{terms_line, terms_status};
ghost use Rattle.buck_c_calls.specs.Room.{IsPutAs};

use crate::book::MEMORY;
use crate::room::put;
use buckfleet_engine_files::EngineFault;
use buckfleet_terms_files::{TermsFault, status, write_terms_fault};
use std::alloc::Global;

/// The line of a fault; none if an allocation failed.
fn line_of(alloc: Global, fault: &TermsFault) -> Option<Vec<u8>>
    ensures { IfSome result (λ line. line.items ≡ terms_line fault.now) }
{
    let mut line = Vec::new(alloc);
    if write_terms_fault(&mut line, fault) {
        Some(line)
    } else {
        None
    }
}

/// Says that memory ran out.
pub(crate) fn put_memory(out: &mut [u8], written: &mut usize) -> u8
    ensures { IsPutAs memory_line 3 out.old out.new written.new result }
{
    put(b"memory\n", MEMORY, out, written)
}

/// Puts the line of a fault in the caller's room, with its status; that of memory that ran out, if there is none for
/// the line.
pub(crate) fn put_terms_fault(
    alloc: Global,
    fault: &TermsFault,
    out: &mut [u8],
    written: &mut usize,
) -> u8
    ensures { IsPutAs (terms_line fault.now) (terms_status fault.now) out.old out.new written.new result
        ⊎ IsPutAs memory_line 3 out.old out.new written.new result }
{
    match line_of(alloc, fault) {
        Some(line) => put(line.as_slice(), status(fault), out, written),
        None => put_memory(out, written),
    }
}

/// [`put_terms_fault`] of a fault that any run may have.
pub(crate) fn put_fault(
    alloc: Global,
    fault: &EngineFault,
    out: &mut [u8],
    written: &mut usize,
) -> u8
    ensures { IsPutAs (fault_line fault.now) (status_of fault.now) out.old out.new written.new result
        ⊎ IsPutAs memory_line 3 out.old out.new written.new result }
{
    put_terms_fault(alloc, &TermsFault::Run(*fault), out, written)
}
