//! A day of one harvester, as a user of the libraries writes it: from the bytes of an instruction file and a stem file
//! to the best cutting of the first stem, and then a book over all stems, with the prices that it makes on the way, and
//! with new targets in the middle.
#![tactic(auto)]

mod texts;

ghost use Rattle.std.specs.Prelude.{◌≡◌};
ghost use Rattle.buck_rule.specs.Stored.{Answers};

use buck_apt::{AptFault, read_apt};
use buck_book::{Book, DemandRefusal, Plan, Refusal};
use buck_dp::{Cutting, best};
use buck_record::Memory;
use buck_rule::{Rule, Standing, step};
use buck_stem::{Stem, StmFault, read_stm};
use buck_value::Sheet;
use std::alloc::AllocError;
use std::io;
use std::process::ExitCode;
use std::sync::Arc;
use texts::{INSTRUCTION, STEMS, TARGETS};
use thiserror::Error;

/// Why the day ends early.
#[derive(Debug, Drop, Error)]
enum DayFault {
    #[error("the instruction is refused: {0}")]
    Instruction(#[from] AptFault),
    #[error("the stems are refused: {0}")]
    Stems(#[from] StmFault),
    #[error("a plan is refused: {0}")]
    Plan(#[from] Refusal),
    #[error("new targets are refused: {0}")]
    Demand(#[from] DemandRefusal),
    #[error(transparent)]
    Memory(#[from] Memory),
    #[error(transparent)]
    Growth(#[from(alloc)] AllocError),
    #[error(transparent)]
    Output(#[from] io::Error),
}

/// Prints a line for each log, from the butt on.
fn print_logs(rt: &HostRuntime, cutting: &Cutting) -> Result<(), DayFault> {
    for log in cutting.logs.as_slice() {
        println!(rt;
            "  {} mm from {} mm on, assortment {}",
            log.length, log.start, log.assortment
        )?;
    }
    Ok(())
}

/// Prints the version of a sheet and its prices, class by class.
fn print_sheet(rt: &HostRuntime, sheet: &Sheet) -> Result<(), DayFault> {
    print!(rt; "sheet {}:", sheet.version())?;
    for price in sheet.prices() {
        print!(rt; " {price}")?;
    }
    println!(rt;)?;
    Ok(())
}

/// Prints the best cutting of a stem under a sheet.
fn print_best(rt: &HostRuntime, sheet: &Sheet, stem: &Stem) -> Result<(), DayFault> {
    let (cutting, worth) = best(rt.alloc(), sheet, stem)?;
    println!(rt; "stem {}, worth {worth}", stem.number())?;
    print_logs(rt, &cutting)
}

/// Plans a stem under the sheet in force, commits the plan for harvester 1, and prints the entry.
fn cut<F: Fn(&Standing) -> u64 + Drop>(
    rt: &HostRuntime,
    book: &mut Book<F>,
    stem: Arc<Stem>,
) -> Result<(), DayFault>
    requires { Answers F.Fn book.old.rule }
    ensures { book.new.rule ≡ book.old.rule }
{
    let plan = Plan::make(rt.alloc(), book.sheet().clone()?, stem)?;
    let ready = book.prepare(rt.alloc(), &plan)?;
    let entry = book.commit(ready, 1, plan);
    println!(rt;
        "entry {} under sheet {}, worth {}",
        entry.number, entry.version, entry.worth
    )?;
    print_logs(rt, &entry.cutting)
}

/// Puts new targets in force for harvester 1, and prints the demand.
fn demand<F: Fn(&Standing) -> u64 + Drop>(
    rt: &HostRuntime,
    book: &mut Book<F>,
    targets: &[u32],
) -> Result<(), DayFault>
    requires { Answers F.Fn book.old.rule }
    ensures { book.new.rule ≡ book.old.rule }
{
    let targets = Arc::new(rt.alloc(), Vec::from_slice(rt.alloc(), targets)?)?;
    let ready = book.prepare_demand(rt.alloc(), &targets)?;
    let demand = book.commit_demand(ready, 1);
    println!(rt; "demand {} ends sheet {}", demand.number, demand.version)?;
    Ok(())
}

/// Cuts all stems, one after the other; before the seventh the mill changes its mind.
fn cut_all<F: Fn(&Standing) -> u64 + Drop>(
    rt: &HostRuntime,
    book: &mut Book<F>,
    stems: Vec<Stem>,
) -> Result<(), DayFault>
    requires { Answers F.Fn book.old.rule }
    ensures { book.new.rule ≡ book.old.rule }
{
    for stem in stems {
        if book.len() == 6 {
            demand(rt, book, TARGETS.as_slice())?;
        }
        cut(rt, book, Arc::new(rt.alloc(), stem)?)?;
    }
    Ok(())
}

/// The whole day.
fn run(rt: &HostRuntime) -> Result<(), DayFault> {
    let instruction = Arc::new(rt.alloc(), read_apt(rt.alloc(), INSTRUCTION.as_bytes())?)?;
    let stems = read_stm(rt.alloc(), STEMS.as_bytes())?;
    let rule = Rule::new(|s: &Standing| step(s));
    let mut book = Book::open(rt.alloc(), instruction, rule, 1_000)?;
    if let Some(first) = stems.first() {
        print_best(rt, book.sheet(), first)?;
    }
    cut_all(rt, &mut book, stems)?;
    for sheet in book.sheets() {
        print_sheet(rt, sheet)?;
    }
    Ok(())
}

fn main(rt: HostRuntime) -> ExitCode {
    match run(&rt) {
        Ok(()) => ExitCode::SUCCESS,
        Err(fault) => {
            let _ = eprintln!(&rt; "{fault}");
            ExitCode::FAILURE
        }
    }
}
