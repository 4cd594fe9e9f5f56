//! The arguments of the command line, and what they ask for.
ghost use Rattle.std.specs.Prelude.{◌≡◌, ◌<◌, ◌≤◌, IfOk, IfSome, vec_len};
ghost use Rattle.buckfleet_command_words.specs.Words.{table_name};

use buck_apt_instruction::Settings;
use buck_page_cells::Table;
use buck_record::Memory;
use buck_rule::NamedRule;
use buckfleet_command_line::{PROGRAM, mistake, program};
use buckfleet_tasks::{
    AppraiseTask, BuckTask, CheckTask, Combination, CompareTask, CrossCheck, DASH, FleetTask,
    LiveTask, Order, OwnedTask, Shown, Subject, SweepTask, Task, TrialTask, TuneTask, ViewTask,
    WishesTask, Work, combinations,
};
use buckfleet_trial_draws::Draws;
use clap::{ArgMatches, Error};
use std::alloc::{AllocError, Global};

/// Why arguments that `clap` takes ask for no work.
#[derive(Drop)]
enum Unasked {
    /// What is wrong with them.
    Wrong(&'static str),
    /// An allocation failed.
    Memory,
}

/// An accepted argument can't be had.
const LOST: &str = "an argument is missing";

/// OUT has the name of an input file.
const EATEN: &str = "OUT is an input file, which it would overwrite";

/// `--threads` is not a number in its range.
const THREADLESS: &str = "--threads must be 1 to 64, in digits alone";

/// `--period` or `--limit` is not a number in its range.
const NUMBERLESS: &str = "--period must be 1 to 1000, and --limit 0 to 1000, in digits alone";

/// A table would have more runs than the maximum.
const MANY: &str = "at most 10000 runs: one for each combination, and one for each of its draws";

/// `--draws` or `--seed` is not a number in its range, or `--seed` is alone.
const DRAWLESS: &str =
    "--draws must be 1 to 1000 and --seed 0 to 18446744073709551615, in digits alone, and --seed needs --draws";

/// The instruction of `live` is standard input.
const SHARED: &str = "APT can't be standard input, which has the requests";

/// Standard input is named twice.
const TWICE: &str = "only one file can be -, which is standard input";

/// `--explain` is given before the command that it belongs to.
const EARLY: &str = "--explain must come after the name of a command";

impl From<Memory> for Unasked {
    fn from(_memory: Memory) -> Unasked {
        Unasked::Memory
    }
}

impl From<AllocError> for Unasked {
    fn from(_error: AllocError) -> Unasked {
        Unasked::Memory
    }
}

/// A word that the command line must have.
fn word<'a>(matches: &ArgMatches<'a>, id: &str) -> Result<&'a str, Unasked> {
    match matches.get_str(id) {
        Some(text) => Ok(text),
        None => Err(Unasked::Wrong(LOST)),
    }
}

/// The table of this name.
fn named_table(name: &str) -> Option<Table>
    ensures { IfSome result (λ table. name.now ≡ table_name table) }
{
    match name {
        "classes" => Some(Table::Classes),
        "postings" => Some(Table::Postings),
        "logs" => Some(Table::Logs),
        "degrees" => Some(Table::Degrees),
        "assortments" => Some(Table::Assortments),
        "lacking" => Some(Table::Lacking),
        _ => None,
    }
}

/// Names of files, after the first ones.
fn names<'a>(
    alloc: Global,
    first: &[&'a str],
    rest: &[&'a str],
) -> Result<Vec<&'a str>, AllocError> {
    let mut names = Vec::from_slice(alloc, first)?;
    names.extend_from_slice(rest)?;
    Ok(names)
}

/// Whether the journal's name, if there is one, is that of an input file.
fn is_input(journal: Option<&str>, apt: &str, stms: &[&str]) -> bool {
    match journal {
        Some(name) if name != DASH => name == apt || stms.iter().any(|stm| *stm == name),
        _ => false,
    }
}

/// Whether a word has no byte but digits.
fn has_digits_alone(word: &str) -> bool {
    word.as_bytes().iter().all(|byte| byte.is_ascii_digit())
}

/// The number that a word is: digits alone, leading zeros among them, as in files.
fn number(word: &str) -> Option<u32> {
    if !has_digits_alone(word) {
        return None;
    }
    word.parse::<u32>().ok()
}

/// The number after an option, if it is there.
fn number_after(words: &ArgMatches<'_>, option: &str) -> Result<Option<u32>, Unasked> {
    match words.get_str(option) {
        None => Ok(None),
        Some(word) => match number(word) {
            Some(number) => Ok(Some(number)),
            None => Err(Unasked::Wrong(NUMBERLESS)),
        },
    }
}

/// The numbers that are put in the place of the instruction's own.
fn settings(words: &ArgMatches<'_>) -> Result<Settings, Unasked> {
    let period = number_after(words, "period")?;
    let limit = number_after(words, "limit")?;
    match Settings::of(period, limit) {
        Some(settings) => Ok(settings),
        None => Err(Unasked::Wrong(NUMBERLESS)),
    }
}

/// The most threads at once, if an option says so.
fn asked_threads(words: &ArgMatches<'_>) -> Result<Option<u8>, Unasked> {
    match words.get_str("threads") {
        Some(word) if !has_digits_alone(word) => Err(Unasked::Wrong(THREADLESS)),
        _ => Ok(words.get_one::<u8>("threads")),
    }
}

/// The names of the stem files that the words have.
fn asked_stems<'a>(alloc: Global, words: &ArgMatches<'a>) -> Result<Vec<&'a str>, Unasked> {
    match words.get_strs("STM") {
        Some(stms) => Ok(names(alloc, &[], stms)?),
        None => Err(Unasked::Wrong(LOST)),
    }
}

/// What the words after `buck` ask for.
fn buck_work<'a>(words: &ArgMatches<'a>) -> Result<Work<'a>, Unasked> {
    Ok(Work::Buck(BuckTask {
        apt: word(words, "APT")?,
        stm: word(words, "STM")?,
        threads: asked_threads(words)?,
    }))
}

/// What the words after `report` ask for.
fn report_work<'a>(words: &ArgMatches<'a>) -> Result<Work<'a>, Unasked> {
    Ok(Work::Plain(Task::Report {
        apt: word(words, "APT")?,
        journal: word(words, "JOURNAL")?,
        settings: settings(words)?,
    }))
}

/// What the words after `fleet` ask for.
fn fleet_work<'a>(alloc: Global, words: &ArgMatches<'a>) -> Result<Work<'a>, Unasked> {
    let Some(rule) = NamedRule::of_name(word(words, "rule")?) else {
        return Err(Unasked::Wrong(LOST));
    };
    let stms = asked_stems(alloc, words)?;
    let apt = word(words, "APT")?;
    let journal = words.get_str("journal");
    if is_input(journal, apt, stms.as_slice()) {
        return Err(Unasked::Wrong(EATEN));
    }
    Ok(Work::Fleet(FleetTask {
        order: if words.get_flag("in-turn") {
            Order::InTurn
        } else {
            Order::AtOnce
        },
        rule,
        settings: settings(words)?,
        journal,
        apt,
        stms,
    }))
}

/// The most runs that a table may have.
const MOST_RUNS: usize = 10_000;

/// The rules of these names; the steady one if there is none.
fn named_rules(alloc: Global, names: &[&str]) -> Result<Vec<NamedRule>, Memory> {
    let mut rules = Vec::new(alloc);
    for name in names {
        if let Some(rule) = NamedRule::of_name(*name) {
            rules.push(rule)?;
        }
    }
    if rules.is_empty() {
        rules.push(NamedRule::Steady)?;
    }
    Ok(rules)
}

/// The numbers of a list, with one comma between; none if one of them isn't a number.
fn numbers_in(alloc: Global, list: &str) -> Result<Option<Vec<Option<u32>>>, Memory> {
    let mut numbers = Vec::new(alloc);
    for word in list.split(',') {
        match number(word) {
            Some(number) => numbers.push(Some(number))?,
            None => return Ok(None),
        }
    }
    Ok(Some(numbers))
}

/// The numbers after an option; the instruction's own if it isn't there.
fn numbers_after(
    alloc: Global,
    words: &ArgMatches<'_>,
    option: &str,
) -> Result<Vec<Option<u32>>, Unasked> {
    match words.get_str(option) {
        None => Ok(own_number(alloc)?),
        Some(list) => match numbers_in(alloc, list)? {
            Some(numbers) => Ok(numbers),
            None => Err(Unasked::Wrong(NUMBERLESS)),
        },
    }
}

/// A list without a number.
fn own_number(alloc: Global) -> Result<Vec<Option<u32>>, Memory> {
    let mut numbers = Vec::new(alloc);
    numbers.push(None)?;
    Ok(numbers)
}

/// The most orders that are drawn.
const MOST_DRAWS: u32 = 1_000;

/// The number of draws that a word is.
fn draws_word(word: &str) -> Result<u16, Unasked> {
    match number(word) {
        Some(number) if number >= 1 && number <= MOST_DRAWS => Ok(number as u16),
        _ => Err(Unasked::Wrong(DRAWLESS)),
    }
}

/// The seed that an argument is, 1 if there is none.
fn seed_word(word: Option<&str>) -> Result<u64, Unasked> {
    let Some(word) = word else {
        return Ok(1);
    };
    if !has_digits_alone(word) {
        return Err(Unasked::Wrong(DRAWLESS));
    }
    match word.parse::<u64>() {
        Ok(seed) => Ok(seed),
        Err(_) => Err(Unasked::Wrong(DRAWLESS)),
    }
}

/// The orders that are to be drawn, if there are any.
fn asked_draws(words: &ArgMatches<'_>) -> Result<Option<Draws>, Unasked> {
    let seed = words.get_str("seed");
    match words.get_str("draws") {
        Some(word) => Ok(Some(Draws {
            number: draws_word(word)?,
            seed: seed_word(seed)?,
        })),
        None if seed.is_some() => Err(Unasked::Wrong(DRAWLESS)),
        None => Ok(None),
    }
}

/// How many runs there are for each line of a table.
fn runs_each(draws: &Option<Draws>) -> usize {
    match draws {
        Some(draws) => usize::from(draws.number).saturating_add(1),
        None => 1,
    }
}

/// The runs that the words after `sweep` ask for.
fn asked_combinations(
    alloc: Global,
    words: &ArgMatches<'_>,
    draws: &Option<Draws>,
) -> Result<Vec<Combination>, Unasked> {
    let rules = named_rules(alloc, words.get_strs("rule").unwrap_or(&[]))?;
    let periods = numbers_after(alloc, words, "period")?;
    let limits = numbers_after(alloc, words, "limit")?;
    let runs = rules
        .len()
        .saturating_mul(periods.len())
        .saturating_mul(limits.len())
        .saturating_mul(runs_each(draws));
    if runs > MOST_RUNS {
        return Err(Unasked::Wrong(MANY));
    }
    let made = combinations(
        alloc,
        rules.as_slice(),
        periods.as_slice(),
        limits.as_slice(),
    );
    match made? {
        Some(combinations) => Ok(combinations),
        None => Err(Unasked::Wrong(NUMBERLESS)),
    }
}

/// What the arguments of `sweep` ask for: a trial if they name targets, draws or an owner's contract.
fn sweep_work<'a>(alloc: Global, words: &ArgMatches<'a>) -> Result<Work<'a>, Unasked> {
    let draws = asked_draws(words)?;
    let combinations = asked_combinations(alloc, words, &draws)?;
    let targets = words.get_str("targets");
    let apt = word(words, "APT")?;
    let stms = asked_stems(alloc, words)?;
    let threads = asked_threads(words)?;
    let own = words.get_str("own");
    if draws.is_none() && targets.is_none() && own.is_none() {
        return Ok(Work::Sweep(SweepTask {
            combinations,
            apt,
            stms,
            threads,
        }));
    }
    let trial = TrialTask {
        combinations,
        apt,
        stms,
        targets,
        draws,
        threads,
    };
    match own {
        Some(own) => Ok(Work::Owned(OwnedTask { trial, own })),
        None => Ok(Work::Trial(trial)),
    }
}

/// What the words after `wishes` ask for.
fn wishes_work<'a>(alloc: Global, words: &ArgMatches<'a>) -> Result<Work<'a>, Unasked> {
    let Some(rule) = NamedRule::of_name(word(words, "rule")?) else {
        return Err(Unasked::Wrong(LOST));
    };
    let settings = settings(words)?;
    let apt = word(words, "APT")?;
    let draws = asked_draws(words)?;
    let threads = asked_threads(words)?;
    Ok(Work::Wishes(WishesTask {
        rule,
        settings,
        apt,
        stms: asked_stems(alloc, words)?,
        targets: words.get_str("targets"),
        draws,
        threads,
    }))
}

/// What the words after `tune` ask for.
fn tune_work<'a>(alloc: Global, words: &ArgMatches<'a>) -> Result<Work<'a>, Unasked> {
    let Some(rule) = NamedRule::of_name(word(words, "rule")?) else {
        return Err(Unasked::Wrong(LOST));
    };
    let threads = asked_threads(words)?;
    Ok(Work::Tune(TuneTask {
        rule,
        settings: settings(words)?,
        apt: word(words, "APT")?,
        stms: asked_stems(alloc, words)?,
        targets: words.get_str("targets"),
        threads,
    }))
}

/// What the words after `live` ask for.
fn live_work<'a>(words: &ArgMatches<'a>) -> Result<Work<'a>, Unasked> {
    let Some(rule) = NamedRule::of_name(word(words, "rule")?) else {
        return Err(Unasked::Wrong(LOST));
    };
    let apt = word(words, "APT")?;
    let journal = words.get_str("journal");
    if apt == DASH {
        return Err(Unasked::Wrong(SHARED));
    }
    if is_input(journal, apt, &[]) {
        return Err(Unasked::Wrong(EATEN));
    }
    Ok(Work::Live(LiveTask {
        rule,
        settings: settings(words)?,
        journal,
        apt,
    }))
}

/// The rule that an argument names, if it is there.
fn asked_rule(name: Option<&str>) -> Result<Option<NamedRule>, Unasked> {
    match name {
        None => Ok(None),
        Some(name) => match NamedRule::of_name(name) {
            Some(rule) => Ok(Some(rule)),
            None => Err(Unasked::Wrong(LOST)),
        },
    }
}

/// What the words after `check` ask for.
fn check_work<'a>(alloc: Global, words: &ArgMatches<'a>) -> Result<Work<'a>, Unasked> {
    let rule = asked_rule(words.get_str("rule"))?;
    let apt = word(words, "APT")?;
    let journal = word(words, "JOURNAL")?;
    let stms = words.get_strs("STM").unwrap_or(&[]);
    let settings = settings(words)?;
    let threads = asked_threads(words)?;
    Ok(Work::Check(CheckTask {
        by: CrossCheck { rule, settings },
        apt,
        files: names(alloc, &[journal], stms)?,
        threads,
    }))
}

/// The names of 1 to 64 journals that the words have.
fn asked_journals<'a>(alloc: Global, words: &ArgMatches<'a>) -> Result<Vec<&'a str>, Unasked>
    ensures { IfOk result (λ names. (0 < vec_len names) × (vec_len names ≤ 64)) }
{
    let journals = names(alloc, &[], words.get_strs("JOURNAL").unwrap_or(&[]))?;
    if journals.is_empty() || journals.len() > 64 {
        return Err(Unasked::Wrong(LOST));
    }
    Ok(journals)
}

/// What the words after `view` ask for, or those after `table`.
fn view_work<'a>(alloc: Global, words: &ArgMatches<'a>, shown: Shown) -> Result<Work<'a>, Unasked> {
    let apt = word(words, "APT")?;
    let settings = settings(words)?;
    let threads = asked_threads(words)?;
    let journals = asked_journals(alloc, words)?;
    Ok(Work::View(ViewTask {
        apt,
        journals,
        shown,
        settings,
        threads,
    }))
}

/// What the words after `table` ask for.
fn table_work<'a>(alloc: Global, words: &ArgMatches<'a>) -> Result<Work<'a>, Unasked> {
    match named_table(word(words, "TABLE")?) {
        Some(table) => view_work(alloc, words, Shown::Table(table)),
        None => Err(Unasked::Wrong(LOST)),
    }
}

/// What the words after `appraise` ask for.
fn appraise_work<'a>(alloc: Global, words: &ArgMatches<'a>) -> Result<Work<'a>, Unasked> {
    let settings = settings(words)?;
    let apt = word(words, "APT")?;
    let own = word(words, "OWN")?;
    let threads = asked_threads(words)?;
    Ok(Work::Appraise(AppraiseTask {
        settings,
        apt,
        journals: asked_journals(alloc, words)?,
        own,
        threads,
    }))
}

/// Of one or two numbers, that of the journal at a place.
fn number_of(numbers: &[Option<u32>], place: usize) -> Result<Option<u32>, Unasked> {
    match numbers {
        [one] => Ok(*one),
        [first, _] if place == 0 => Ok(*first),
        [_, second] => Ok(*second),
        _ => Err(Unasked::Wrong(NUMBERLESS)),
    }
}

/// The numbers that are put in the place of the instruction's own for the journal at a place.
fn settings_at(
    periods: &[Option<u32>],
    limits: &[Option<u32>],
    place: usize,
) -> Result<Settings, Unasked> {
    let period = number_of(periods, place)?;
    let limit = number_of(limits, place)?;
    match Settings::of(period, limit) {
        Some(settings) => Ok(settings),
        None => Err(Unasked::Wrong(NUMBERLESS)),
    }
}

/// What the words after `compare` ask for.
fn compare_work<'a>(alloc: Global, words: &ArgMatches<'a>) -> Result<Work<'a>, Unasked> {
    let periods = numbers_after(alloc, words, "period")?;
    let limits = numbers_after(alloc, words, "limit")?;
    let periods = periods.as_slice();
    let limits = limits.as_slice();
    Ok(Work::Compare(CompareTask {
        first: settings_at(periods, limits, 0)?,
        second: settings_at(periods, limits, 1)?,
        apt: word(words, "APT")?,
        journals: [word(words, "JOURNAL")?, word(words, "OTHER")?],
        threads: asked_threads(words)?,
    }))
}

/// The work that the words after a command's name ask for.
fn work_of<'a>(alloc: Global, name: &str, words: &ArgMatches<'a>) -> Result<Work<'a>, Unasked> {
    match name {
        "buck" => buck_work(words),
        "fleet" => fleet_work(alloc, words),
        "check" => check_work(alloc, words),
        "report" => report_work(words),
        "view" => view_work(alloc, words, Shown::Page),
        "table" => table_work(alloc, words),
        "live" => live_work(words),
        "sweep" => sweep_work(alloc, words),
        "wishes" => wishes_work(alloc, words),
        "tune" => tune_work(alloc, words),
        "appraise" => appraise_work(alloc, words),
        "compare" => compare_work(alloc, words),
        _ => Err(Unasked::Wrong(LOST)),
    }
}

/// The work that the program's arguments ask for.
#[derive(Drop)]
pub struct Request<'a> {
    /// What is to be done.
    pub work: Work<'a>,
    /// Whether progress and warnings are suppressed.
    pub quiet: bool,
    /// Whether faults are to be said in words too.
    pub explain: bool,
}

impl Request<'_> {
    /// Keeps requests that can't be read from replacing an old journal by one of no posting. Other work stays as it is.
    pub fn keep_old_journal(&mut self) {
        if let Work::Live(task) = &mut self.work {
            task.journal = None;
        }
    }
}

/// The words of a fault line, with a space before each.
fn line_of(alloc: Global, words: &[&str]) -> Result<String, AllocError> {
    let mut line = String::new(alloc);
    for word in words {
        line.push(' ')?;
        line.push_str(word)?;
    }
    Ok(line)
}

/// The request of the arguments: work over files, or the sentence of a fault line.
#[derive(Drop)]
pub enum Asked<'a> {
    /// Work over files.
    Work(Request<'a>),
    /// The sentence of a fault line.
    Sentence(String),
}

/// What the words after a command's name ask for.
fn request_of<'a>(alloc: Global, name: &str, words: &ArgMatches<'a>) -> Result<Asked<'a>, Unasked> {
    if name == "explain" {
        return match words.get_strs("LINE") {
            Some(line) => Ok(Asked::Sentence(line_of(alloc, line)?)),
            None => Err(Unasked::Wrong(LOST)),
        };
    }
    let work = work_of(alloc, name, words)?;
    if Subject::of(alloc, &work)?.has_input_twice() {
        return Err(Unasked::Wrong(TWICE));
    }
    Ok(Asked::Work(Request {
        work,
        quiet: words.get_flag("quiet"),
        explain: words.get_flag("explain"),
    }))
}

/// Returns what the arguments ask for, the first of which is the program's name; else help or the version, or what is
/// wrong with them.
pub fn parse<'a>(alloc: Global, words: &'a [String]) -> Result<Asked<'a>, Error> {
    let matches = program(alloc)?.try_get_matches_from(words)?;
    let explain = matches.get_flag("explain");
    let (name, asked) = match matches.subcommand() {
        Some(_) if explain => (PROGRAM, Err(Unasked::Wrong(EARLY))),
        Some((name, words)) => (name, request_of(alloc, name, words)),
        None => {
            return Ok(Asked::Work(Request {
                work: Work::Plain(Task::Bare),
                quiet: false,
                explain,
            }));
        }
    };
    match asked {
        Ok(asked) => Ok(asked),
        Err(Unasked::Wrong(message)) => Err(mistake(alloc, name, message)?),
        Err(Unasked::Memory) => Err(Error::from(AllocError)),
    }
}
