//! The commands with their options and files, as `clap` reads them and tells of them.
use crate::commands::Word::{
    AnyStms, Apt, Draws, Explain, First, InTurn, Journal, Journals, Limit, LimitEach, Limits, Line,
    Out, Own, OwnToo, Period, PeriodEach, Periods, Quiet, Rule, RuleOfPrices, RuleOfTuning,
    RuleOfWishes, Rules, Second, Seed, Stm, Stms, Table, Targets, Threads,
};
use crate::help;
use buck_rule::NamedRule;
use clap::error::ErrorKind;
use clap::{Arg, ArgAction, Command, Error, value_parser};
use std::alloc::Global;

/// The name of the program.
pub const PROGRAM: &str = "buckfleet";

/// What a command takes after its name.
#[derive(Clone, Copy)]
enum Word {
    InTurn,
    Rule,
    /// The rule that a journal is held against.
    RuleOfPrices,
    /// The rule that wishes are granted under.
    RuleOfWishes,
    /// The rule that prices are tuned by.
    RuleOfTuning,
    Rules,
    Period,
    Limit,
    Periods,
    Limits,
    /// A number for each of two journals.
    PeriodEach,
    LimitEach,
    Targets,
    Draws,
    Seed,
    Out,
    Threads,
    Quiet,
    Explain,
    Apt,
    Journal,
    Journals,
    First,
    Second,
    /// The contract of an owner.
    Own,
    /// The same beside stems.
    OwnToo,
    Table,
    Stm,
    Stms,
    /// Stem files that need not be there.
    AnyStms,
    Line,
}

/// A command, what it is for, the rest of its help, and its words in the order of the help.
#[derive(Clone, Copy)]
struct Named {
    name: &'static str,
    about: &'static str,
    help: &'static str,
    words: &'static [Word],
}

/// The commands in the order of the help.
static COMMANDS: [Named; 13] = [
    Named {
        name: "buck",
        about: "Cut each stem of a stem file into the most valuable logs",
        help: help::BUCK,
        words: &[Threads, Quiet, Apt, Stm, Explain],
    },
    Named {
        name: "fleet",
        about: "Cut stem files by a fleet of harvesters, one for each file",
        help: help::FLEET,
        words: &[InTurn, Rule, Period, Limit, Out, Quiet, Apt, Stms, Explain],
    },
    Named {
        name: "sweep",
        about: "Compare rules, periods and limits on the same stems",
        help: help::SWEEP,
        words: &[
            Rules, Periods, Limits, Targets, OwnToo, Draws, Seed, Threads, Quiet, Apt, Stms,
            Explain,
        ],
    },
    Named {
        name: "wishes",
        about: "Find what each target of a mill costs",
        help: help::WISHES,
        words: &[
            RuleOfWishes,
            Period,
            Limit,
            Targets,
            Draws,
            Seed,
            Threads,
            Quiet,
            Apt,
            Stms,
            Explain,
        ],
    },
    Named {
        name: "tune",
        about: "Find base prices for a stand from the stems of a similar one",
        help: help::TUNE,
        words: &[
            RuleOfTuning,
            Period,
            Limit,
            Targets,
            Threads,
            Quiet,
            Apt,
            Stms,
            Explain,
        ],
    },
    Named {
        name: "live",
        about: "Cut stems as they are felled, answering each before reading the next",
        help: help::LIVE,
        words: &[Rule, Period, Limit, Out, Quiet, Apt, Explain],
    },
    Named {
        name: "check",
        about: "Check whether a journal is lawful for an instruction",
        help: help::CHECK,
        words: &[
            RuleOfPrices,
            Period,
            Limit,
            Threads,
            Quiet,
            Apt,
            Journal,
            AnyStms,
            Explain,
        ],
    },
    Named {
        name: "report",
        about: "Print the report of a journal, as fleet printed it",
        help: help::REPORT,
        words: &[Period, Limit, Quiet, Apt, Journal, Explain],
    },
    Named {
        name: "view",
        about: "Show journals as a page for a browser",
        help: help::VIEW,
        words: &[Period, Limit, Threads, Quiet, Apt, Journals, Explain],
    },
    Named {
        name: "table",
        about: "Show journals as a table for a spreadsheet",
        help: help::TABLE,
        words: &[Period, Limit, Threads, Quiet, Apt, Journals, Table, Explain],
    },
    Named {
        name: "appraise",
        about: "Show what journals bring under an owner's contract",
        help: help::APPRAISE,
        words: &[Period, Limit, Threads, Quiet, Apt, Journals, Own, Explain],
    },
    Named {
        name: "compare",
        about: "Compare the figures of two journals",
        help: help::COMPARE,
        words: &[
            PeriodEach, LimitEach, Threads, Quiet, Apt, First, Second, Explain,
        ],
    },
    Named {
        name: "explain",
        about: "Say what a fault line means, and what to do next",
        help: help::EXPLAIN,
        words: &[Line],
    },
];

/// The words that name tables.
const TABLES: [&str; 6] = [
    "classes",
    "postings",
    "logs",
    "degrees",
    "assortments",
    "lacking",
];

/// What is said of stem files.
const STMS: &str = "Stem files, one for each harvester";

fn flag<'a>(alloc: Global, name: &'a str, help: &'a str) -> Arg<'a> {
    Arg::new(alloc, name)
        .long(name)
        .action(ArgAction::SetTrue)
        .help(help)
}

/// An option with a value.
fn option<'a>(alloc: Global, name: &'a str, value: &'a str, help: &'a str) -> Arg<'a> {
    Arg::new(alloc, name)
        .long(name)
        .value_name(value)
        .help(help)
}

fn rule<'a>(alloc: Global, help: &'a str) -> Arg<'a> {
    option(alloc, "rule", "RULE", help)
        .value_parser(NamedRule::NAMES.as_slice())
        .hide_possible_values(true)
}

fn file<'a>(alloc: Global, name: &'a str, help: &'a str) -> Arg<'a> {
    Arg::new(alloc, name)
        .required(true)
        .action(ArgAction::Set)
        .help(help)
}

/// A word, as `clap` has it.
fn arg<'a>(alloc: Global, word: Word) -> Arg<'a> {
    match word {
        InTurn => flag(alloc, "in-turn", help::IN_TURN).long_help(help::IN_TURNS),
        Rule => rule(alloc, help::RULE)
            .default_value(NamedRule::Steady.name())
            .long_help(help::RULES),
        RuleOfPrices => rule(alloc, help::CHECKED_RULE),
        RuleOfWishes => rule(alloc, help::RULE).required(true),
        RuleOfTuning => rule(alloc, help::RULE)
            .default_value(NamedRule::Root.name())
            .long_help(help::RULES),
        Rules => rule(alloc, help::SWEPT_RULES).action(ArgAction::Append),
        Period => option(alloc, "period", "N", help::PERIOD),
        Limit => option(alloc, "limit", "N", help::LIMIT),
        Periods => option(alloc, "period", "LIST", help::PERIODS),
        Limits => option(alloc, "limit", "LIST", help::LIMITS),
        PeriodEach => option(alloc, "period", "LIST", help::COMPARED_PERIODS),
        LimitEach => option(alloc, "limit", "LIST", help::COMPARED_LIMITS),
        Targets => option(alloc, "targets", "FILE", help::TARGETS),
        OwnToo => option(alloc, "own", "OWN", help::OWN),
        Draws => option(alloc, "draws", "N", help::DRAWS),
        Seed => option(alloc, "seed", "S", help::SEED),
        Out => option(alloc, "journal", "OUT", help::OUT),
        Threads => option(alloc, "threads", "N", help::THREADS).value_parser(value_parser!(
            u8
        ).range(1..65)),
        Quiet => flag(alloc, "quiet", help::QUIET).short('q'),
        Explain => flag(alloc, "explain", help::EXPLAINED),
        Apt => file(alloc, "APT", "Instruction file"),
        Journal => file(alloc, "JOURNAL", "Journal"),
        Journals => file(alloc, "JOURNAL", "Journals, 1 to 64").num_args(1..65),
        First => file(alloc, "JOURNAL", "First journal"),
        Second => file(alloc, "OTHER", "Second journal"),
        Own => file(alloc, "OWN", "Owner's contract, as an instruction file"),
        Table => file(alloc, "TABLE", "Table to print").value_parser(TABLES.as_slice()),
        Stm => file(alloc, "STM", "Stem file"),
        Stms => file(alloc, "STM", STMS).num_args(1..),
        AnyStms => file(alloc, "STM", STMS).required(false).num_args(0..),
        Line => file(alloc, "LINE", "Fault line, as one argument or several").num_args(1..),
    }
}

/// A command with its words.
fn command<'a>(alloc: Global, named: &Named) -> Result<Command<'a>, Error> {
    let mut command = Command::new(alloc, named.name)
        .about(named.about)
        .after_long_help(named.help);
    for word in named.words {
        command = command.arg(arg(alloc, *word))?;
    }
    Ok(command)
}

/// The program with its commands.
pub fn program<'a>(alloc: Global) -> Result<Command<'a>, Error> {
    let mut program = Command::new(alloc, PROGRAM)
        .version(help::version())
        .about(help::PROGRAM)
        .after_long_help(help::COMMANDS)
        .arg(arg(alloc, Explain))?;
    for named in &COMMANDS {
        program = program.subcommand(command(alloc, named)?)?;
    }
    Ok(program)
}

/// What the program can be asked for, as help.
pub fn help_text(alloc: Global) -> Result<String, Error> {
    Ok(program(alloc)?.render_help()?)
}

/// What is wrong with the words of a command, in the form of what `clap` finds: with the command's usage, or that of
/// the program if no command has the name.
pub fn mistake(alloc: Global, name: &str, message: &str) -> Result<Error, Error> {
    let mut command = match COMMANDS.iter().find(|named| named.name == name) {
        Some(named) => {
            let whole = format!(in alloc; "{PROGRAM} {name}")?;
            command(alloc, named)?.bin_name(whole.as_str())?
        }
        None => program(alloc)?,
    };
    Ok(command.error(ErrorKind::ValueValidation, message)?)
}
