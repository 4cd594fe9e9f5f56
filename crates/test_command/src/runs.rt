//! What runs leave on each stream, by their words.
use crate::place::{Ending, run_words};
use std::alloc::Global;
use std::io::ErrorKind;
use std::sync::Wait;
use std::test::Fail;
use std::thread::Threads;

/// What is cut of the stem under the base prices.
const TEXT: &str =
    "STEM 1 4000 1 157080000\nLOG 0 4000 250 1 1 157080000 saw\nTOTAL 1 1 157080000\n";

/// The report of the journal `jrn`.
const REPORT: &str = "ENTRY 0 1 1 0 1 1 157080000
CLASS 0 0 0 1 0 400 600
CLASS 0 0 1 1 0 500 750
CLASS 0 1 0 1 0 600 900
CLASS 0 1 1 1 1 800 400
DEGREE 0 2500 saw
TOTAL 1 1 157080000
";

/// The report of three harvesters in turn, with two stems, one and two, under the step rule.
const IN_TURN: &str = "ENTRY 0 1 1 0 1 1 157080000
ENTRY 1 2 1 1 1 1 132535800
ENTRY 2 3 1 2 1 1 78540000
ENTRY 3 1 2 3 2 1 78540000
ENTRY 4 3 2 4 2 1 88357200
CLASS 0 0 0 1 0 400 600
CLASS 0 0 1 1 0 500 750
CLASS 0 1 0 1 2 600 300
CLASS 0 1 1 1 3 800 400
DEGREE 0 5000 saw
TOTAL 5 5 535053000
";

/// The line of what is cut under the base prices, in a report.
const ENTRY: &str = "ENTRY 0 1 1 0 1 1 157080000\n";

/// The line of a write fault.
const WRITE: &str = "write fault\n";

/// OUT is an input.
const EATEN: &str = "error: OUT is";

/// A period or a limit is out of range.
const NO_NUMBER: &str = "error: --period must be 1 to 1000";

/// The fault of the journal `jrn` if prices may not move.
const UNMOVED: &str = "replay fault 2 1 0\n";

/// The fault of the journal `unlawful`.
const UNLAWFUL: &str = "replay fault 1 1\n";

/// The lines of files that can't be read, and of a stem file that is none.
const READ_1: &str = "read fault 1\n";

const READ_2: &str = "read fault 2\n";

const READ_3: &str = "read fault 3\n";

const STM_1: &str = "stm 1 fault 2\n";

const STM_2: &str = "stm 2 fault 2\n";

const STM_3: &str = "stm 3 fault 2\n";

/// How the report of no stem begins.
const NOTHING: &str = "CLASS 0 0 0 1 0 400 400\n";

/// What is said of a file that is no journal.
const NO_JOURNAL: &str = "journal fault 2\n";

/// Faults in words, and their lines.
const OTHER_KIND: &str = "stm, line 1: kind of file (1 2): \"STM\", expected APT\napt fault 2\n";

const NONE: &str = "none: no such file\nread fault 1\n";

const NO: &str = "no: is a folder\nwrite fault\n";

const FULL: &str = "full: can't be opened, read or written\nwrite fault\n";

const NO_SHEET: &str =
    "unlawful: prices (971 1) of version 1: missing, expected 4 numbers\nreplay fault 1 1\n";

const PRICE: &str =
    "jrn, line 1: price of version 1, class 3 (assortment 0 \"saw\", row 1, column 1): 400, expected 500 by the rule linear
check fault 4 1 3 400 500\n";

const CUT: &str =
    "jrn, line 1: posting 0 (harvester 1, stem 1): cut 1 of its harvester, expected 0, the number of stems in empty
check fault 3 1 1\n";

/// What a check says that ties a journal to stem files and a rule.
const LAWFUL: &str = "LAWFUL 1\n";

const OTHER: &str = "check fault 1 1 1\n";

const UNCUT: &str = "check fault 2 2 1\n";

const SURPLUS: &str = "check fault 3 1 1\n";

const LINEAR: &str = "check fault 4 1 3 400 500\n";

const STEADY: &str = "check fault 4 1 0 600 400\n";

/// Words; the status; how what stands on the output begins, or on the errors if the status isn't 0, and nothing on the
/// other; and the names that are asked for. All files are opened before one is read, in the order of the words, so that a
/// file that is missing comes before one that is refused; the file of a journal is made after that, and before one is
/// read.
type Row = (&'static str, u8, &'static str, &'static str);

/// What needs no journal: the bare form, `buck`, and words of no command.
const WORDS: [Row; 25] = [
    ("", 0, TEXT, ""),
    ("buck apt stm", 0, TEXT, "apt stm "),
    ("buck --quiet apt stm", 0, TEXT, "apt stm "),
    ("buck --threads 1 apt stm", 0, TEXT, "apt stm "),
    ("buck apt stm --threads=64", 0, TEXT, "apt stm "),
    ("buck --threads 0 apt stm", 2, "error: ", ""),
    ("buck --threads 65 apt stm", 2, "error: ", ""),
    ("buck --threads two apt stm", 2, "error: ", ""),
    ("buck --threads +4 apt stm", 2, "error: --threads must", ""),
    ("buck stm apt", 1, "apt fault 2\n", "stm apt "),
    ("buck apt bad", 1, "stm 1 fault 2\n", "apt bad "),
    ("buck none stm", 5, "read fault 0\n", "none "),
    ("buck apt none", 5, "read fault 1\n", "apt none "),
    ("buck apt heavy", 3, "memory\n", "apt heavy "),
    ("--help", 0, "Cut felled stems", ""),
    ("buck --help", 0, "Cut each stem", ""),
    ("--version", 0, "buckfleet 0.1.0 (logic ", ""),
    ("pine.apt", 2, "error: ", ""),
    ("buck apt", 2, "error: ", ""),
    ("buck apt stm more", 2, "error: ", ""),
    ("buck --fast apt stm", 2, "error: ", ""),
    ("buck --quiet --quiet apt stm", 2, "error: ", ""),
    ("--quiet", 2, "error: ", ""),
    ("bucks apt stm", 2, "error: ", ""),
    ("buck --in-turn apt stm", 2, "error: ", ""),
];

/// The words of `fleet`.
const FLEETS: [Row; 27] = [
    ("fleet apt stm", 0, ENTRY, "apt stm "),
    ("fleet --journal out apt stm", 0, ENTRY, "apt stm >out "),
    ("fleet apt stm --journal=no -q", 5, WRITE, "apt stm >no "),
    ("fleet apt stm --journal full", 5, WRITE, "apt stm >full "),
    ("fleet apt stm stm apt", 1, STM_3, "apt stm stm apt "),
    ("fleet --help", 0, "Cut stem files", ""),
    ("fleet apt", 2, "error: ", ""),
    ("fleet --rule fast apt stm", 2, "error: ", ""),
    ("fleet --period 0 apt stm", 2, NO_NUMBER, ""),
    ("fleet --limit 1001 apt stm", 2, NO_NUMBER, ""),
    ("fleet --period +5 apt stm", 2, NO_NUMBER, ""),
    ("fleet --limit= apt stm", 2, "error: ", ""),
    ("fleet --limit 1 --limit 1 apt stm", 2, "error: ", ""),
    ("fleet --journal apt apt stm", 2, "error: OUT is", ""),
    ("fleet --journal many apt stm many", 2, "error: OUT is", ""),
    ("fleet --journal ./stm apt stm", 5, WRITE, "apt stm >./stm "),
    (
        "fleet --in-turn --rule step apt two stm two",
        0,
        IN_TURN,
        "apt two stm two ",
    ),
    (
        "fleet --in-turn apt empty stm",
        0,
        "ENTRY 0 2 1 0 ",
        "apt empty stm ",
    ),
    ("fleet --in-turn apt empty", 0, NOTHING, "apt empty "),
    (
        "fleet --in-turn --journal o apt bad",
        5,
        WRITE,
        "apt bad >o ",
    ),
    ("fleet --in-turn=yes apt stm", 2, "error: ", ""),
    ("fleet --in-turn --in-turn apt stm", 2, "error: ", ""),
    ("fleet --in-turn apt", 2, "error: ", ""),
    ("fleet --journal=stm --in-turn apt stm", 2, EATEN, ""),
    ("fleet apt none stm --journal out", 5, READ_1, "apt none "),
    ("fleet --journal o apt stm none", 5, READ_2, "apt stm none "),
    ("fleet apt bad --journal out", 1, STM_1, "apt bad >out "),
];

/// The words of `check` and `report`.
const JOURNALS: [Row; 30] = [
    ("check apt jrn", 0, "LAWFUL 1\n", "apt jrn "),
    ("check apt stm", 1, "journal fault 2\n", "apt stm "),
    ("check apt none", 5, "read fault 1\n", "apt none "),
    ("check --help", 0, "Check whether", ""),
    ("check apt", 2, "error: ", ""),
    ("report apt jrn", 0, REPORT, "apt jrn "),
    ("report jrn apt", 1, "apt fault 2\n", "jrn apt "),
    ("report apt stm", 1, "journal fault 2\n", "apt stm "),
    ("report apt none", 5, "read fault 1\n", "apt none "),
    ("report apt jrn stm", 2, "error: ", ""),
    ("report --help", 0, "Print the report", ""),
    ("check apt jrn stm", 0, "LAWFUL 1\n", "apt jrn stm "),
    ("check apt jrn stm empty", 0, LAWFUL, "apt jrn stm empty "),
    ("check --rule step apt jrn stm", 0, LAWFUL, "apt jrn stm "),
    ("check apt jrn --rule=step", 0, "LAWFUL 1\n", "apt jrn "),
    ("check apt jrn many stm", 4, OTHER, "apt jrn many stm "),
    ("check apt jrn stm stm", 4, UNCUT, "apt jrn stm stm "),
    ("check apt jrn empty stm", 4, SURPLUS, "apt jrn empty stm "),
    ("check apt jrn --rule linear", 4, LINEAR, "apt jrn "),
    ("check --rule steady apt jrn", 4, STEADY, "apt jrn "),
    (
        "check apt jrn empty --rule linear",
        4,
        SURPLUS,
        "apt jrn empty ",
    ),
    ("check apt unlawful stm", 4, UNLAWFUL, "apt unlawful stm "),
    ("check apt jrn bad", 1, "stm 2 fault 2\n", "apt jrn bad "),
    ("check apt bad bad", 1, NO_JOURNAL, "apt bad bad "),
    ("check apt unlawful bad", 1, STM_2, "apt unlawful bad "),
    ("check apt jrn stm none", 5, READ_3, "apt jrn stm none "),
    ("check --rule fast apt jrn", 2, "error: ", ""),
    ("check --threads 9 apt jrn stm", 0, LAWFUL, "apt jrn stm "),
    (
        "check apt unlawful --threads=1",
        4,
        UNLAWFUL,
        "apt unlawful ",
    ),
    ("check --threads 65 apt jrn", 2, "error: ", ""),
];

/// The words of `view` and `table`, and journals under another limit.
const PAGES: [Row; 22] = [
    ("view apt jrn", 0, "<!DOCTYPE html>\n", "apt jrn "),
    ("view apt stm", 1, "journal fault 2\n", "apt stm "),
    ("view jrn apt", 1, "apt fault 2\n", "jrn apt "),
    ("view apt none", 5, "read fault 1\n", "apt none "),
    ("table apt jrn classes", 0, "assortment,row,", "apt jrn "),
    ("table apt jrn postings", 0, "position,kind,", "apt jrn "),
    ("table --quiet apt jrn logs", 0, "position,log,", "apt jrn "),
    ("table apt jrn degrees", 0, "postings,version,", "apt jrn "),
    ("table apt unlawful classes", 4, UNLAWFUL, "apt unlawful "),
    ("check --limit 0 apt jrn", 4, UNMOVED, "apt jrn "),
    ("report --limit 0 apt jrn", 4, UNMOVED, "apt jrn "),
    ("table --limit 0 apt jrn logs", 4, UNMOVED, "apt jrn "),
    ("view --help", 0, "Show journals as a page", ""),
    ("table --help", 0, "Show journals as a table", ""),
    ("view apt jrn none", 5, READ_2, "apt jrn none "),
    ("table apt jrn", 2, "error: ", ""),
    ("table apt jrn stems", 2, "error: ", ""),
    (
        "view --threads 3 apt jrn",
        0,
        "<!DOCTYPE html>\n",
        "apt jrn ",
    ),
    ("view --threads 0 apt jrn", 2, "error: ", ""),
    (
        "table --threads 3 apt jrn logs",
        0,
        "position,log,",
        "apt jrn ",
    ),
    ("table --threads -1 apt jrn logs", 2, "error: ", ""),
    ("report --threads 3 apt jrn", 2, "error: ", ""),
];

/// The words of `explain`.
const SENTENCES: [Row; 7] = [
    ("explain replay fault 4 12", 0, "Posting 12, counted", ""),
    ("explain seats", 0, "There are more than 64 ", ""),
    ("explain nothing", 2, "error: there is no such", ""),
    ("explain replay fault 4", 2, "error: there is no such", ""),
    ("explain apt fault 3 953 1", 2, "error: there is", ""),
    ("explain", 2, "error: ", ""),
    ("explain --help", 0, "Say what", ""),
];

/// Words for which a fault is said in words, and files in the place of which streams stand.
const EXPLAINED: [Row; 14] = [
    ("--explain", 0, TEXT, ""),
    ("--explain buck apt stm", 2, "error: --explain", ""),
    ("explain --explain seats", 2, "error: ", ""),
    ("buck --explain stm apt", 1, OTHER_KIND, "stm apt "),
    ("buck apt none --explain", 5, NONE, "apt none "),
    (
        "fleet apt stm --explain --journal no",
        5,
        NO,
        "apt stm >no ",
    ),
    (
        "fleet --explain apt stm --journal full",
        5,
        FULL,
        "apt stm >full ",
    ),
    ("check --explain apt unlawful", 4, NO_SHEET, "apt unlawful "),
    (
        "check --explain --rule linear apt jrn",
        4,
        PRICE,
        "apt jrn ",
    ),
    ("check --explain apt jrn empty", 4, CUT, "apt jrn empty "),
    ("buck - stm", 1, "apt fault 1 15\n", "stm "),
    ("buck - -", 2, "error: only one", ""),
    ("fleet apt stm --journal -", 0, "1 2 JRN~\n", "apt stm "),
    ("fleet apt - --journal -", 1, "stm 1 fault 1 15\n", "apt "),
];

/// What is said of `bad`.
const BAD: &str = "bad, line 1: kind of file (1 2): \"BAD\", expected STM\n";

/// What is said of the file of blanks.
const BLANK: &str = "long: kind of file (1 2): missing, expected 1 2 APT~\n";

/// What is said of `twins` after each command that reads it.
const TWIN: &str = "note: twins: assortment 1 \"saw\": an earlier one has the same name\n";

/// What is said of requests that are an instruction and a stem, and then of `twins`.
const LIVE: &str = "standard input, line 1: expected a stem (951 1 and more) or new targets (982 2)
standard input, line 2: expected a stem (951 1 and more) or new targets (982 2)
standard input, line 3: expected a stem (951 1 and more) or new targets (982 2)
standard input, line 4: item 1, \"|1 2 STM\", expected two numbers from 0 to 65535 and whitespace at its beginning
standard input, line 5: expected a stem (951 1 and more) or new targets (982 2)
note: twins: assortment 1 \"saw\": an earlier one has the same name
";

/// Words, and what stands on the screen, by a clock that is read 600 ms after it was read before.
const SCREENS: [(&str, &str); 32] = [
    ("buck long stm", BLANK),
    (
        "fleet apt many",
        "\r1000 of 1000 stems planned\x1b[K\nnote: many: stem 1 (place 2): an earlier stem has the same number\n",
    ),
    ("fleet --quiet apt many", ""),
    (
        "fleet --in-turn apt many",
        "note: many: stem 1 (place 2): an earlier stem has the same number\n",
    ),
    ("buck apt bad", BAD),
    (
        "fleet apt two stm",
        "note: stm: stem 1 (place 1): an earlier stem has the same number\n",
    ),
    ("check apt jrn stm", ""),
    (
        "buck apt beech",
        "note: beech: stem 9 (place 1): no assortment takes its species, 2\n",
    ),
    ("buck -q apt beech", ""),
    ("buck twins stm", TWIN),
    (
        "fleet twins two stm",
        "note: twins: assortment 1 \"saw\": an earlier one has the same name\nnote: stm: stem 1 (place 1): an earlier stem has the same number\n",
    ),
    ("sweep --rule steady --threads 1 twins empty", TWIN),
    (
        "sweep --rule steady --threads 1 --own twins twins empty",
        TWIN,
    ),
    (
        "sweep --rule steady --draws 1 --threads 1 twins empty",
        "\r1 of 2 runs made\x1b[K\r2 of 2 runs made\x1b[K\nnote: twins: assortment 1 \"saw\": an earlier one has the same name\n",
    ),
    (
        "wishes --rule steady twins empty",
        "\r1 of 1 runs made\x1b[K\nnote: twins: assortment 1 \"saw\": an earlier one has the same name\n",
    ),
    ("tune twins empty", TWIN),
    ("check twins idle", TWIN),
    ("check --rule steady twins idle", TWIN),
    ("report twins idle", TWIN),
    ("view twins idle", TWIN),
    ("table twins idle logs", TWIN),
    ("appraise twins idle twins", TWIN),
    (
        "compare twins idle idle",
        "note: idle: named twice, so it counts twice\nnote: twins: assortment 1 \"saw\": an earlier one has the same name\n",
    ),
    ("live twins", LIVE),
    (
        "fleet --rule linear apt stm",
        "note: 1 stem, and a period of 1: no price moves before all are cut\n",
    ),
    ("fleet --rule linear apt two", ""),
    (
        "fleet --rule step --period 2 apt two",
        "note: 2 stems, and a period of 2: no price moves before all are cut\n",
    ),
    ("fleet apt stm", ""),
    (
        "fleet --journal out apt stm",
        "note: out: 67108865 bytes: check, report, view and table read at most 67108864\n",
    ),
    (
        "fleet --journal full apt stm",
        "full: can't be opened, read or written\n",
    ),
    (
        "sweep --rule steady --draws 4 --threads 1 apt empty",
        "\r1 of 5 runs made\x1b[K\r2 of 5 runs made, about 1 s left\x1b[K\r3 of 5 runs made, about 2 s left\x1b[K\r4 of 5 runs made, about 1 s left\x1b[K\r5 of 5 runs made\x1b[K\n",
    ),
    (
        "wishes --rule steady apt empty",
        "\r1 of 1 runs made\x1b[K\n",
    ),
];

/// A run of the words of a line.
fn run_line<T: Threads + Wait + Sync>(rt: &T, alloc: Global, line: &str) -> Result<Ending, Fail> {
    let mut words = Vec::new(alloc);
    words.push(String::from_str(alloc, "buckfleet")?)?;
    for word in line.split_ascii_whitespace() {
        words.push(String::from_str(alloc, word)?)?;
    }
    Ok(run_words(rt, alloc, &Ok(words)))
}

/// Whether one stream begins so if the other is empty.
fn says(ending: &Ending, start: &str) -> bool {
    let (said, other) = if ending.status == 0 {
        (&ending.output, &ending.errors)
    } else {
        (&ending.errors, &ending.output)
    };
    said.as_slice().starts_with(start.as_bytes()) && other.is_empty()
}

/// The first line of a table whose run leaves something else, if there is one.
fn wrong_run<T: Threads + Wait + Sync>(
    rt: &T,
    alloc: Global,
    rows: &[Row],
) -> Result<Option<&'static str>, Fail> {
    for (line, status, start, names) in rows {
        let ending = run_line(rt, alloc, line)?;
        let is_right = ending.status == *status
            && says(&ending, start)
            && ending.names.as_slice() == names.as_bytes();
        if !is_right {
            return Ok(Some(*line));
        }
    }
    Ok(None)
}

/// The table of three harvesters, with two stems, one and two, by each rule with two periods.
const SWEPT: &str =
    "rule,period,limit,versions,\"degree_0 saw\",least_degree,base_worth_millionths,best_base_worth_millionths,cost_ten_thousandths,volume_cm3,\"volume_cm3_0 saw\",\"unsteered_volume_cm3_0 saw\",\"diameter_degree_0 saw\",\"length_degree_0 saw\"
steady,1,500,6,2500,2500,785400000,785400000,0,981750,981750,981750,5000,5000
steady,2,500,3,2500,2500,785400000,785400000,0,981750,981750,981750,5000,5000
step,1,500,6,5000,5000,647954400,785400000,1750,883574,883574,981750,5000,9000
step,2,500,3,5000,5000,647954400,785400000,1750,883574,883574,981750,5000,9000
linear,1,500,6,4500,4500,716677200,785400000,875,932662,932662,981750,5000,7000
linear,2,500,3,5000,5000,647954400,785400000,1750,883574,883574,981750,5000,9000
";

/// The table of no stem.
const UNSWEPT: &str =
    "rule,period,limit,versions,\"degree_0 saw\",least_degree,base_worth_millionths,best_base_worth_millionths,cost_ten_thousandths,volume_cm3,\"volume_cm3_0 saw\",\"unsteered_volume_cm3_0 saw\",\"diameter_degree_0 saw\",\"length_degree_0 saw\"
steady,1,500,1,,,0,0,0,0,0,0,,
";

/// Which rules, periods and limits are compared, and on which stems.
const SWEEPS: [Row; 9] = [
    (
        "sweep --rule steady --rule step --rule linear --period 01,2 apt two stm two",
        0,
        SWEPT,
        "apt two stm two ",
    ),
    ("sweep apt empty", 0, UNSWEPT, "apt empty "),
    ("sweep apt stm bad", 1, STM_2, "apt stm bad "),
    ("sweep apt none", 5, READ_1, "apt none "),
    ("sweep apt", 2, "error: ", ""),
    ("sweep --period 1, apt stm", 2, NO_NUMBER, ""),
    ("sweep --limit 0,1001 apt stm", 2, NO_NUMBER, ""),
    ("sweep --limit 1 --limit 2 apt stm", 2, "error: ", ""),
    ("sweep --journal o apt stm", 2, "error: ", ""),
];

/// All tables of words.
const TABLES: [&[Row]; 7] = [
    &WORDS, &FLEETS, &JOURNALS, &PAGES, &EXPLAINED, &SENTENCES, &SWEEPS,
];

#[test]
fn runs_of_words(rt: HostRuntime) -> Result<(), Fail> {
    for rows in TABLES {
        let wrong = wrong_run(&rt, rt.alloc(), rows)?.unwrap_or("none");
        assert!(rt; wrong == "none", "{wrong}");
    }
    Ok(())
}

/// The first line whose run leaves something else on the screen, if there is one.
fn wrong_screen<T: Threads + Wait + Sync>(
    rt: &T,
    alloc: Global,
) -> Result<Option<&'static str>, Fail> {
    for (line, screen) in SCREENS {
        let ending = run_line(rt, alloc, line)?;
        if ending.screen.as_slice() != screen.as_bytes() {
            return Ok(Some(line));
        }
    }
    Ok(None)
}

#[test]
fn what_is_told_on_a_screen(rt: HostRuntime) -> Result<(), Fail> {
    let wrong = wrong_screen(&rt, rt.alloc())?.unwrap_or("none");
    assert!(rt; wrong == "none", "{wrong}");
    Ok(())
}

/// Whether it is said so that the words can't be had for this reason.
fn refuses<T: Threads + Wait + Sync>(
    rt: &T,
    alloc: Global,
    kind: ErrorKind,
    status: u8,
    start: &str,
) -> bool {
    let ending = run_words(rt, alloc, &Err(kind));
    ending.status == status && says(&ending, start) && ending.names.is_empty()
}

#[test]
fn words_that_cannot_be_had(rt: HostRuntime) {
    assert!(rt;
        refuses(
            &rt,
            rt.alloc(),
            ErrorKind::InvalidData,
            2,
            "error: an argument is not UTF-8"
        )
    );
    assert!(rt; refuses(&rt, rt.alloc(), ErrorKind::OutOfMemory, 3, "memory\n"));
}
