//! Each read and each write of each engine fails in turn, or gives or takes nothing in turn.
ghost use Rattle.std.specs.Prelude.{◌<◌};

use crate::streams::{Sink, Source, Trouble};
use crate::work::{ENGINES, Ending, Engine};
use buckfleet_engine_files::EngineFault;
use std::alloc::Global;
use std::sync::Wait;
use std::thread::Threads;

/// How many bytes a read gives and a write takes.
const STEP: usize = 20;

/// How many calls so many bytes take.
fn calls_of(bytes: &[u8]) -> usize {
    bytes.len().div_ceil(STEP)
}

/// What the calls before this one gave of some bytes.
fn given_before(bytes: &[u8], call: usize) -> &[u8] {
    let end = call.saturating_sub(1).saturating_mul(STEP).min(bytes.len());
    &bytes[..end]
}

/// A run of an engine over these files, one of which has trouble.
fn run_reading<T: Threads + Wait + Sync>(
    rt: &T,
    alloc: Global,
    engine: Engine,
    files: [&[u8]; 3],
    place: usize,
    trouble: Trouble,
) -> Ending {
    let [first, second, third] = files;
    let mut sources = [
        Source::of(first, STEP),
        Source::of(second, STEP),
        Source::of(third, STEP),
    ];
    if let Some(source) = sources.get_mut(place) {
        source.trouble = trouble;
    }
    engine.run(rt, alloc, sources, [Sink::of(STEP), Sink::of(STEP)])
}

/// Whether a run in which a file fails at this read is refused by the file's number, with nothing written and nothing
/// read of the files after it.
fn stops<T: Threads + Wait + Sync>(
    rt: &T,
    alloc: Global,
    engine: Engine,
    place: usize,
    read: usize,
) -> bool
    requires { place < 3 }
{
    let files = engine.files();
    let run = run_reading(rt, alloc, engine, files, place, Trouble::Fails(read));
    let mut wanted = [0; 3];
    for k in 0..place {
        wanted[k] = calls_of(files[k]).saturating_add(1);
    }
    wanted[place] = read;
    run.reads == wanted && run.is_unwritten(EngineFault::Read { file: place as u32 })
}

/// Whether a run in which a file gives nothing at this read ends as one over what was given before, and doesn't read
/// on.
fn is_cut<T: Threads + Wait + Sync>(
    rt: &T,
    alloc: Global,
    engine: Engine,
    place: usize,
    read: usize,
) -> bool
    requires { place < 3 }
{
    let mut files = engine.files();
    let run = run_reading(rt, alloc, engine, files, place, Trouble::Ends(read));
    files[place] = given_before(files[place], read);
    let cut = run_reading(rt, alloc, engine, files, place, Trouble::Nothing);
    run.reads[place] == read && run.is_like(&cut)
}

/// The file and the read at which a run doesn't end as it must, if there is one.
fn wrong_read<T: Threads + Wait + Sync>(
    rt: &T,
    alloc: Global,
    engine: Engine,
) -> Option<(usize, usize)> {
    let files = engine.files();
    for place in 0..engine.reads() {
        for read in 1..calls_of(files[place]).saturating_add(2) {
            if !stops(rt, alloc, engine, place, read) || !is_cut(rt, alloc, engine, place, read) {
                return Some((place, read));
            }
        }
    }
    None
}

#[test]
fn reads(rt: HostRuntime) {
    for engine in ENGINES {
        assert!(rt; wrong_read(&rt, rt.alloc(), engine) == None, "{engine:?}");
    }
}

/// Whether a run in which one of both writers has trouble ends as a write fault, with these first bytes of both texts.
fn keeps<T: Threads + Wait + Sync>(
    rt: &T,
    alloc: Global,
    engine: Engine,
    troubles: [Trouble; 2],
    lengths: [usize; 2],
) -> bool {
    let mut journal = Sink::of(STEP);
    journal.trouble = troubles[0];
    let mut text = Sink::of(STEP);
    text.trouble = troubles[1];
    let [first, second, third] = engine.files();
    let sources = [
        Source::of(first, usize::MAX),
        Source::of(second, usize::MAX),
        Source::of(third, usize::MAX),
    ];
    engine
        .run(rt, alloc, sources, [journal, text])
        .kept(engine.texts(), lengths)
}

/// How many bytes of both texts are there if the writer at a place has trouble at this write: of the report only after the
/// whole journal.
fn lengths_before(engine: Engine, place: usize, write: usize) -> [usize; 2] {
    let [journal, _] = engine.texts();
    if place == 0 {
        return [given_before(journal, write).len(), 0];
    }
    let [front, rest] = engine.pieces();
    let later = given_before(rest, write.saturating_sub(calls_of(front))).len();
    let length = given_before(front, write).len().saturating_add(later);
    [journal.len(), length]
}

/// How many writes the writer at a place is given.
fn writes_to(engine: Engine, place: usize) -> usize {
    let [journal, _] = engine.texts();
    let [front, rest] = engine.pieces();
    if place == 0 {
        calls_of(journal)
    } else {
        calls_of(front).saturating_add(calls_of(rest))
    }
}

/// Whether a run ends as it must if the writer at a place fails at this write, and if it takes nothing.
fn keeps_at<T: Threads + Wait + Sync>(
    rt: &T,
    alloc: Global,
    engine: Engine,
    place: usize,
    write: usize,
) -> bool
    requires { place < 2 }
{
    let lengths = lengths_before(engine, place, write);
    let mut fails = [Trouble::Nothing; 2];
    fails[place] = Trouble::Fails(write);
    let mut ends = [Trouble::Nothing; 2];
    ends[place] = Trouble::Ends(write);
    keeps(rt, alloc, engine, fails, lengths) && keeps(rt, alloc, engine, ends, lengths)
}

/// The writer and the write at which a run doesn't end as it must, if there is one.
fn wrong_write<T: Threads + Wait + Sync>(
    rt: &T,
    alloc: Global,
    engine: Engine,
) -> Option<(usize, usize)> {
    for place in 0..2usize {
        for write in 1..writes_to(engine, place).saturating_add(1) {
            if !keeps_at(rt, alloc, engine, place, write) {
                return Some((place, write));
            }
        }
    }
    None
}

#[test]
fn writes(rt: HostRuntime) {
    for engine in ENGINES {
        assert!(rt; wrong_write(&rt, rt.alloc(), engine) == None, "{engine:?}");
    }
}

/// Whether an engine that reads and writes byte after byte writes its texts.
fn writes_bytes<T: Threads + Wait + Sync>(rt: &T, alloc: Global, engine: Engine) -> bool {
    let run = engine.run_by(rt, alloc, 1);
    run.wrote(engine.texts()) && run.text.writes == engine.texts()[1].len()
}

#[test]
fn byte_after_byte(rt: HostRuntime) {
    for engine in ENGINES {
        assert!(rt; writes_bytes(&rt, rt.alloc(), engine), "{engine:?}");
    }
}
