//! Stem files that are read in several threads at once.
ghost use Rattle.std.specs.Prelude.{◌≡◌, ◌++◌, IfOk, OnOk, Ok};
ghost use Rattle.std.specs.Thread.{IsSync};
ghost use Rattle.buck_record.specs.Reading.{Gives, listed};
ghost use Rattle.buck_stem.specs.declared.fault.StmFault.TheVariants.{Memory};
ghost use Rattle.buck_stem.specs.Stm.{stm_of};
ghost use Rattle.buck_stem.specs.inner.Plain.{HasStems};

use crate::fault::StmFault;
use crate::plain::{body_of, stems_of};
use crate::reading::read_by_lines;
use buck_record::two_parts;
use buck_stem_shape::Stem;
use buck_stem_shape::slots::STEM;
use std::alloc::{AllocError, Global};
use std::thread;
use std::thread::Threads;

/// Puts further stems behind these.
fn put_behind(stems: &mut Vec<Stem>, more: Vec<Stem>) -> Result<(), AllocError>
    ensures { OnOk result (stems.new.items ≡ stems.old.items ++ more.items) }
{
    stems.reserve(more.len())?;
    for stem in more {
        stems.push(stem)?;
    }
    Ok(())
}

/// The stems of a text in the plain order, up to its end: the text is cut in two again and again, until there is a
/// thread for each part.
fn stems_in_parts<T: Threads + Sync>(
    rt: &T,
    alloc: Global,
    body: &[u8],
    threads: usize,
) -> Result<Vec<Stem>, StmFault>
    ensures { IfOk result (λ stems. HasStems body.now stems.items) }
{
    let Some((front, back)) = two_parts(STEM, body, threads) else {
        return stems_of(alloc, body);
    };
    let (first, second) = thread::join(
        rt,
        || -> Result<Vec<Stem>, StmFault>
            requires { IsSync T.row }
            ensures { IfOk result (λ stems. HasStems front.entry.now stems.items) }
        { stems_in_parts(rt, alloc, front, threads / 2) },
        || -> Result<Vec<Stem>, StmFault>
            requires { IsSync T.row }
            ensures { IfOk result (λ stems. HasStems back.entry.now stems.items) }
        { stems_in_parts(rt, alloc, back, threads - threads / 2) },
    );
    // If a part isn't in the plain order, the whole file is read by its items: which of its refusals comes first
    // depends on all parts.
    let mut stems = first?;
    let more = second?;
    put_behind(&mut stems, more)?;
    Ok(stems)
}

/// `read_plain`, in at most so many threads at once.
fn read_plain_in_parts<T: Threads + Sync>(
    rt: &T,
    alloc: Global,
    bytes: &[u8],
    threads: usize,
) -> Result<Vec<Stem>, StmFault>
    ensures { IfOk result (λ stems. stm_of bytes.now ≡ Ok stems.items) }
{
    let body = body_of(bytes)?;
    Ok(stems_in_parts(rt, alloc, body, threads)?)
}

/// [`read_stm`](crate::read_stm) in at most so many threads at once, if the file is one that is read in one pass and
/// isn't short: each takes a part that begins with a stem. The answer is that of [`read_stm`](crate::read_stm),
/// whatever the number, or `Memory` if an allocation failed.
pub fn read_stm_in_parts<T: Threads + Sync>(
    rt: &T,
    alloc: Global,
    bytes: &[u8],
    threads: usize,
) -> Result<Vec<Stem>, StmFault>
    ensures { Gives Memory (listed result) (stm_of bytes.now) }
{
    match read_plain_in_parts(rt, alloc, bytes, threads) {
        Ok(stems) => Ok(stems),
        Err(StmFault::Memory) => Err(StmFault::Memory),
        Err(_) => read_by_lines(alloc, bytes),
    }
}
