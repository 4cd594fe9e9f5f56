//! Long work, made by formulas and done from memory to memory. The last line of each is printed: an ordinary harvest of
//! 5,000 stems; a check of a journal of 30,000 cuts that a fleet of one harvester wrote; as many stems as a history has
//! room for, and more, by such a fleet and by two harvesters in turn; and as many bytes as a file may have, and one more,
//! each by a read of its own.
use buck_record::{Memory, put_number};
use buck_rule::{Rule, Standing, step};
use buckfleet_engine::{run_bare, run_buck, run_check, run_fleet_files, run_in_turn};
use buckfleet_engine_files::{EngineFault, write_fault};
use std::alloc::Global;
use std::sync::Wait;
use std::thread::Threads;
use std::{io, str};

/// How many stems are felled.
const STEMS: u32 = 5_000;

const INSTRUCTION: &str = "1 2 APT~
901 1 100~
902 1 10~
903 1 200~
910 1 2~

911 1 pine saw log~
912 1 1~
913 1 1 2~
914 1 1~
915 1 140 160 180 200 240 280~
915 2 600~
916 1 3700 4000 4300 4600 4900 5200 5500~
917 1 340 370 410 420 430 440 440
      400 430 470 480 490 500 500
      460 490 530 540 550 560 560
      520 550 590 600 610 620 620
      580 610 650 660 670 680 680
      600 630 670 680 690 700 700~
918 1  10  10  20  20  30  30  20
       10  10  20  20  30  30  20
       10  10  20  20  30  30  20
       10  10  20  20  30  30  20
       10  10  20  20  30  30  20
       10  10  20  20  30  30  20~

911 1 pine pulpwood~
912 1 1~
913 1 1 2 3~
914 1 1~
915 1 50~
915 2 700~
916 1 3000 3500 4000 4500 5000~
917 1 260 260 260 260 260~
918 1 100 100 100 100 100~
";

/// The instruction of the fleets: prices that may move by half after each 1,000 stems.
const SAW: &str = "1 2 APT~901 1 100~902 1 1000~903 1 500~910 1 1~
911 1 saw~912 1 1~913 1 1~914 1 1~915 1 100 200~915 2 400~
916 1 3000 4000~917 1 400 500 600 800~918 1 1 1 1 1~
";

/// Puts a stem of 8 to 20 m, 3 mm thinner for each two samples, and never below 60; in every third stem the wood from some
/// place on is of grade 3.
fn put_stem(out: &mut Vec<u8>, stem: u32) -> Result<(), Memory> {
    let butt = 180 + stem % 241;
    out.extend_from_slice(b"951 1")?;
    put_number(out, u128::from(stem))?;
    out.extend_from_slice(b"~952 1 1~953 1")?;
    for sample in 0..81 + stem % 120 {
        let diameter = butt.saturating_sub(sample * 3 / 2).max(60);
        put_number(out, u128::from(diameter))?;
    }
    out.extend_from_slice(b"~")?;
    if stem % 3 == 0 {
        out.extend_from_slice(b"954 1 0 1")?;
        put_number(out, u128::from(3_000 + stem % 41 * 100))?;
        out.extend_from_slice(b" 3~")?;
    }
    out.extend_from_slice(b"\n")?;
    Ok(())
}

/// What an engine wrote, or the line of its fault.
fn written_or_fault(
    alloc: Global,
    outcome: Result<(), EngineFault>,
    written: Vec<u8>,
) -> Result<Vec<u8>, Memory> {
    match outcome {
        Ok(()) => Ok(written),
        Err(fault) => {
            let mut line = Vec::new(alloc);
            if !write_fault(&mut line, &fault) {
                return Err(Memory);
            }
            Ok(line)
        }
    }
}

/// The text of the harvest.
fn harvest(alloc: Global) -> Result<Vec<u8>, Memory> {
    let mut file = Vec::new(alloc);
    file.extend_from_slice(b"1 2 STM~\n")?;
    for stem in 1..STEMS + 1 {
        put_stem(&mut file, stem)?;
    }
    let mut written = Vec::new(alloc);
    let outcome = run_buck(
        alloc,
        &mut INSTRUCTION.as_bytes(),
        &mut file.as_slice(),
        &mut written,
    );
    written_or_fault(alloc, outcome, written)
}

/// A stem file of this many stems, each of so many samples of 250 mm.
fn like_stems(alloc: Global, number: u32, samples: u32) -> Result<Vec<u8>, Memory> {
    let mut out = Vec::new(alloc);
    out.extend_from_slice(b"1 2 STM~")?;
    for _ in 0..number {
        out.extend_from_slice(b"951 1 1~952 1 1~953 1")?;
        for _ in 0..samples {
            out.extend_from_slice(b" 250")?;
        }
        out.extend_from_slice(b"~")?;
    }
    Ok(out)
}

/// What a fleet of one harvester under the step rule says of a stem file, and its journal.
fn fleet<T: Threads + Wait + Sync>(
    rt: &T,
    alloc: Global,
    file: &[u8],
) -> Result<(Vec<u8>, Vec<u8>), Memory> {
    let mut journal = Vec::new(alloc);
    let mut report = Vec::new(alloc);
    let outcome = run_fleet_files(
        rt,
        alloc,
        &mut SAW.as_bytes(),
        &mut [file],
        Rule::new(|s: &Standing| step(s)),
        Some(&mut journal),
        &mut report,
    );
    Ok((written_or_fault(alloc, outcome, report)?, journal))
}

/// The check of the journal of a fleet that cut this many stems of 3,000 mm, in periods of 1,000.
fn checked<T: Threads + Wait + Sync>(rt: &T, alloc: Global, stems: u32) -> Result<Vec<u8>, Memory> {
    let file = like_stems(alloc, stems, 31)?;
    let (_, journal) = fleet(rt, alloc, file.as_slice())?;
    let mut written = Vec::new(alloc);
    let outcome = run_check(
        alloc,
        &mut SAW.as_bytes(),
        &mut journal.as_slice(),
        &mut written,
    );
    written_or_fault(alloc, outcome, written)
}

/// What a fleet says of this many stems of no length.
fn filled<T: Threads + Wait + Sync>(rt: &T, alloc: Global, stems: u32) -> Result<Vec<u8>, Memory> {
    let file = like_stems(alloc, stems, 1)?;
    let (written, _) = fleet(rt, alloc, file.as_slice())?;
    Ok(written)
}

/// What is said of twice this many stems of no length, which two harvesters cut in turn.
fn filled_in_turn(alloc: Global, stems: u32) -> Result<Vec<u8>, Memory> {
    let file = like_stems(alloc, stems, 1)?;
    let mut written = Vec::new(alloc);
    let outcome = run_in_turn(
        alloc,
        &mut SAW.as_bytes(),
        &mut [file.as_slice(), file.as_slice()],
        Rule::new(|s: &Standing| step(s)),
        None::<&mut Vec<u8>>,
        &mut written,
    );
    written_or_fault(alloc, outcome, written)
}

/// Gives this many blanks, one at each read.
#[derive(Drop)]
struct Blanks {
    left: u32,
}

impl io::Read for Blanks {
    fn read(&mut self, buf: &mut [u8]) -> io::Result<usize> {
        if self.left == 0 {
            return Ok(0);
        }
        let Some(byte) = buf.first_mut() else {
            return Ok(0);
        };
        *byte = b' ';
        self.left -= 1;
        Ok(1)
    }
}

/// What is said of an input of this many blanks.
fn blank(alloc: Global, left: u32) -> Result<Vec<u8>, Memory> {
    let mut written = Vec::new(alloc);
    let outcome = run_bare(alloc, &mut Blanks { left }, &mut written);
    written_or_fault(alloc, outcome, written)
}

/// The last line of a text, or that memory ran out.
fn last_line(text: &Result<Vec<u8>, Memory>) -> &str {
    match text {
        Err(_) => "memory",
        Ok(text) => match str::from_utf8(text.as_slice()) {
            Ok(lines) => lines.lines().last().unwrap_or(""),
            Err(_) => "",
        },
    }
}

/// Prints a line of each work.
pub fn print_lines<T: Threads + Wait + Sync, P: Print>(
    threads: &T,
    rt: &P,
    alloc: Global,
) -> io::Result<()> {
    println!(rt; "5,000 stems: {}", last_line(&harvest(alloc)))?;
    println!(rt;
        "30,000 cuts: {}",
        last_line(&checked(threads, alloc, 30_000))
    )?;
    println!(rt;
        "1,000,000 stems: {}",
        last_line(&filled(threads, alloc, 1_000_000))
    )?;
    println!(rt;
        "1,000,001 stems: {}",
        last_line(&filled(threads, alloc, 1_000_001))
    )?;
    println!(rt;
        "1,000,000 stems in turn: {}",
        last_line(&filled_in_turn(alloc, 500_000))
    )?;
    println!(rt;
        "1,000,002 stems in turn: {}",
        last_line(&filled_in_turn(alloc, 500_001))
    )?;
    println!(rt;
        "67,108,864 bytes: {}",
        last_line(&blank(alloc, 67_108_864))
    )?;
    println!(rt;
        "67,108,865 bytes: {}",
        last_line(&blank(alloc, 67_108_865))
    )
}
