//! Bucking and checks in parts: in whatever number of threads stems are cut, or outvalued cuts are looked for, what is
//! written is what one thread writes.
use crate::work::apt_and_stm;
use buckfleet_engine::{Settings, run_buck, run_buck_in_parts, run_check};
use buckfleet_engine_cross_check::{CrossCheck, run_check_with};
use buckfleet_engine_files::{EngineFault, Nobody, SeveralThreads};
use std::alloc::Global;
use std::test::Fail;
use std::thread::Threads;

/// The most bytes that a text has here.
const ROOM: usize = 131_072;

/// The diameters of a journal's stems.
const DIAMETERS: usize = 41;

/// Whether a second file is one of stems, which are cut, or a journal, which is checked.
#[derive(Clone, Copy)]
enum Work {
    Bucking,
    Check,
}

/// The saw instruction with a period of 100.
fn instruction(alloc: Global) -> Result<String, Fail> {
    let (apt, _) = apt_and_stm();
    Ok(apt.replace(alloc, "902 1 1~", "902 1 100~")?)
}

/// Puts a stem, which has this number, at the end of a file.
fn put_stem(text: &mut String, alloc: Global, number: usize) -> Result<(), Fail> {
    let samples = " 250".repeat(alloc, 31 + number % 40)?;
    Ok(write!(text, "951 1 {number}~952 1 1~953 1{samples}~\n")?)
}

/// Puts the cut of a stem, which has this number, at the end of a journal.
fn put_cut(text: &mut String, alloc: Global, stem: usize) -> Result<(), Fail> {
    let (number, version) = (stem.saturating_add(1), stem / 100);
    let diameters = " 250".repeat(alloc, DIAMETERS)?;
    Ok(write!(
        text,
        "981 1 1 {number} {version}~981 2 {stem} 1~981 3{diameters}~981 4~981 5 0 4000 0~981 6 157080000~\n"
    )?)
}

/// The second file: so many stems, each with a number of its own, or the journal of their cuts by one harvester under base
/// prices.
fn file_of(alloc: Global, work: Work, stems: usize) -> Result<String, Fail> {
    let is_check = matches!(work, Work::Check);
    let head = if is_check { "1 2 JRN~\n" } else { "1 2 STM~\n" };
    let mut text = String::from_str(alloc, head)?;
    if is_check {
        for _ in 0..stems / 100 + 1 {
            text.push_str("971 1 400 500 600 800~\n")?;
        }
    }
    for stem in 0..stems {
        if is_check {
            put_cut(&mut text, alloc, stem)?;
        } else {
            put_stem(&mut text, alloc, stem)?;
        }
    }
    Ok(text)
}

/// Puts what so many threads write of an instruction file and a second one, or one without threads if no number is given.
fn put_text<'x, T: Threads + Sync>(
    rt: &T,
    alloc: Global,
    work: Work,
    (mut apt, mut second): (&'x [u8], &'x [u8]),
    threads: Option<u8>,
    text: &mut Vec<u8>,
) -> Result<(), EngineFault> {
    let workers = SeveralThreads::of(rt, threads, &Nobody);
    let by = CrossCheck {
        rule: None,
        settings: Settings::own(),
    };
    match (work, threads) {
        (Work::Bucking, None) => run_buck(alloc, &mut apt, &mut second, text),
        (Work::Bucking, _) => run_buck_in_parts(&workers, alloc, &mut apt, &mut second, text),
        (Work::Check, None) => run_check(alloc, &mut apt, &mut second, text),
        (Work::Check, _) => {
            run_check_with(&workers, alloc, &by, &mut apt, &mut second, &mut [], text)
        }
    }
}

/// What they write.
fn text_by<T: Threads + Sync>(
    rt: &T,
    alloc: Global,
    work: Work,
    files: (&[u8], &[u8]),
    threads: Option<u8>,
) -> Result<Vec<u8>, EngineFault> {
    // Room for all, since what a list as a writer is refused is a fault of writing.
    let mut text = Vec::with_capacity(alloc, ROOM)?;
    put_text(rt, alloc, work, files, threads, &mut text)?;
    Ok(text)
}

/// Whether 1 to 9 threads write this text.
fn all_write<T: Threads + Sync>(
    rt: &T,
    alloc: Global,
    work: Work,
    files: (&[u8], &[u8]),
    text: &[u8],
) -> Result<bool, EngineFault> {
    for threads in 1..10 {
        if text_by(rt, alloc, work, files, Some(threads))?.as_slice() != text {
            return Ok(false);
        }
    }
    Ok(true)
}

/// Whether they write of so many stems what one engine without threads does.
fn is_same<T: Threads + Sync>(
    rt: &T,
    alloc: Global,
    work: Work,
    stems: usize,
) -> Result<bool, Fail> {
    let apt = instruction(alloc)?;
    let second = file_of(alloc, work, stems)?;
    let files = (apt.as_bytes(), second.as_bytes());
    let text = text_by(rt, alloc, work, files, None)?;
    Ok(all_write(rt, alloc, work, files, text.as_slice())?)
}

#[test]
fn numbers_of_threads(rt: HostRuntime) -> Result<(), Fail> {
    for number in [0, 1, 7, 1_000] {
        assert!(rt;
            is_same(&rt, rt.alloc(), Work::Bucking, number)?,
            "{number}"
        );
        assert!(rt; is_same(&rt, rt.alloc(), Work::Check, number)?, "{number}");
    }
    Ok(())
}

/// Whether a run in two parts is refused memory; an error, if it ends otherwise than it may.
fn is_refused<T: Threads + Sync>(
    rt: &T,
    alloc: Global,
    work: Work,
    files: (&[u8], &[u8]),
    text: &[u8],
) -> Result<bool, Fail> {
    match text_by(rt, alloc, work, files, Some(2)) {
        Ok(made) if made.as_slice() == text => Ok(false),
        Err(EngineFault::Memory) => Ok(true),
        _ => Err(Fail::from("another answer")),
    }
}

/// Runs in two parts, and once more if memory was refused, which the error then says.
fn goes_on<T: Threads + Sync>(
    rt: &T,
    alloc: Global,
    work: Work,
    files: (&[u8], &[u8]),
    text: &[u8],
) -> Result<(), Fail> {
    if matches!(work, Work::Check) && text != b"LAWFUL 129\n".as_slice() {
        return Err(Fail::from("the journal of 129 cuts isn't lawful"));
    }
    if !is_refused(rt, alloc, work, files, text)? {
        return Ok(());
    }
    if is_refused(rt, alloc, work, files, text)? {
        return Err(Fail::from("refused again"));
    }
    Err(Fail::from(EngineFault::Memory))
}

/// The first part has 128 stems, the second one.
fn goes_on_of_two_parts<T: Threads + Sync>(rt: &T, alloc: Global, work: Work) -> Result<(), Fail> {
    let apt = instruction(alloc)?;
    let second = file_of(alloc, work, 129)?;
    let files = (apt.as_bytes(), second.as_bytes());
    let text = text_by(rt, alloc, work, files, None)?;
    goes_on(rt, alloc, work, files, text.as_slice())
}

#[test]
fn refused_memory_of_each_part(rt: HostRuntime) -> Result<(), Fail> {
    goes_on_of_two_parts(&rt, rt.alloc(), Work::Bucking)
}

#[test]
fn refused_memory_of_a_check_in_parts(rt: HostRuntime) -> Result<(), Fail> {
    goes_on_of_two_parts(&rt, rt.alloc(), Work::Check)
}
