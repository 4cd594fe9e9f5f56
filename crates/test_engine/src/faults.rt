//! The line, the exit status and the text of each fault.
use crate::streams::{Sink, Trouble};
use buck_apt::AptFault;
use buck_book_journal::{JournalFault, ReplayFault};
use buck_fleet::CloseFault;
use buck_stem::StmFault;
use buckfleet_engine_files::{CheckFault, EngineFault, status, write_fault};
use buckfleet_engine_text::TextFault;
use std::alloc::Global;
use std::fmt::Display;

/// Whether a fault has this line and this exit status; and if a write takes nothing, the answer says so and what was
/// written before is there.
fn says(fault: EngineFault, line: &str, code: u8) -> bool {
    let mut whole = Sink::of(8);
    let is_whole = write_fault(&mut whole, &fault);
    let mut torn = Sink::of(3);
    torn.trouble = Trouble::Ends(2);
    let is_torn = !write_fault(&mut torn, &fault);
    is_whole
        && whole.bytes() == line.as_bytes()
        && is_torn
        && line.as_bytes().starts_with(torn.bytes())
        && !torn.bytes().is_empty()
        && status(&fault) == code
}

/// Faults with their lines and statuses: the engines' own, and those of files with as many fields as there are. The lines of
/// all others stand in the worked cases.
const LINES: [(EngineFault, &str, u8); 16] = [
    (EngineFault::Read { file: 0 }, "read fault 0\n", 5),
    (EngineFault::Read { file: 64 }, "read fault 64\n", 5),
    (EngineFault::Write, "write fault\n", 5),
    (EngineFault::Memory, "memory\n", 3),
    (EngineFault::Seats, "seats\n", 2),
    (EngineFault::Full, "full\n", 3),
    (
        EngineFault::Apt(AptFault::Digits {
            number: 65535,
            kind: 1,
            place: 1024,
        }),
        "apt fault 5 65535 1 1024\n",
        1,
    ),
    (
        EngineFault::Stm {
            file: 12,
            fault: StmFault::Digits {
                number: 65535,
                kind: 1,
                place: 1024,
            },
        },
        "stm 12 fault 5 65535 1 1024\n",
        1,
    ),
    (
        EngineFault::Journal(JournalFault::NotJournal),
        "journal fault 2\n",
        1,
    ),
    (
        EngineFault::Replay(ReplayFault::Price {
            version: 3,
            class: 16383,
        }),
        "replay fault 2 3 16383\n",
        4,
    ),
    (
        EngineFault::Check(CheckFault::Price {
            version: 3,
            class: 16383,
            price: 20_000_000,
            wanted: 0,
        }),
        "check fault 4 3 16383 20000000 0\n",
        4,
    ),
    (
        EngineFault::Close(CloseFault::Calls {
            harvester: 64,
            number: 1_000_000,
        }),
        "close fault 2 64 1000000\n",
        4,
    ),
    (
        EngineFault::Close(CloseFault::Instruction),
        "close fault 1\n",
        4,
    ),
    (EngineFault::Apt(AptFault::Memory), "memory\n", 3),
    (EngineFault::Journal(JournalFault::Memory), "memory\n", 3),
    (EngineFault::Replay(ReplayFault::Memory), "memory\n", 3),
];

#[test]
fn lines_and_statuses(rt: HostRuntime) {
    for (fault, line, code) in LINES {
        assert!(rt; says(fault, line, code), "{line}");
    }
}

/// Whether a fault is shown so.
fn is_shown<T: Display>(alloc: Global, fault: &T, text: &str) -> bool {
    match format!(in alloc; "{fault}") {
        Ok(shown) => shown.as_str() == text,
        Err(_) => false,
    }
}

/// Faults and their texts.
const TEXTS: [(EngineFault, &str); 11] = [
    (EngineFault::Read { file: 1 }, "file 1 can't be read"),
    (EngineFault::Write, "the output can't be written"),
    (
        EngineFault::Apt(AptFault::NotApt),
        "the instruction is refused: the file is not an instruction",
    ),
    (
        EngineFault::Stm {
            file: 2,
            fault: StmFault::NotStm,
        },
        "the stems of file 2 are refused: the file is not one of stems",
    ),
    (
        EngineFault::Journal(JournalFault::NotJournal),
        "the journal is refused: the file is not a journal",
    ),
    (
        EngineFault::Replay(ReplayFault::Worth { at: 1 }),
        "the journal is not lawful: the worth of posting 1 is not that of its logs",
    ),
    (
        EngineFault::Check(CheckFault::Uncut {
            harvester: 1,
            place: 2,
        }),
        "the journal is lawful, but not as asked: stem 2 of the file of harvester 1 was not cut",
    ),
    (
        EngineFault::Close(CloseFault::Instruction),
        "the fleet did not close well: the instruction is another",
    ),
    (EngineFault::Seats, "not 1 to 64 stem files"),
    (EngineFault::Full, "the history is full"),
    (EngineFault::Memory, "out of memory"),
];

#[test]
fn texts(rt: HostRuntime) {
    for (fault, text) in TEXTS {
        assert!(rt; is_shown(rt.alloc(), &fault, text), "{text}");
    }
    assert!(rt; is_shown(rt.alloc(), &TextFault::Memory, "out of memory"));
}
