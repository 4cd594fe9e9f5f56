//! The types that callers make, take apart or match: their fields, and the number of each fault.

use buck_apt::{AptFault, Class};
use buck_book::{
    Demand, DemandRefusal, Entry, Journal, JournalFault, Posting, Refusal, ReplayFault,
    TargetsFault,
};
use buck_dp::Cutting;
use buck_fleet::world::{Event, StepFault};
use buck_fleet::{
    CloseFault, CutFault, DemandReply, Kept, OpenFault, Path, Reply, RetargetFault, RunFault,
    TryFault,
};
use buck_record::{Item, RecordFault};
use buck_rule::Standing;
use buck_stem::{Stem, StemFault, StmFault};
use buck_value::{Log, SheetFault};
use std::sync::Arc;

/// The numbers of faults of `RecordFault`, `StemFault` and `SheetFault`.
pub fn faults_of_parts(record: &RecordFault, stem: &StemFault, sheet: &SheetFault) -> [u8; 3] {
    [
        match record {
            RecordFault::Head { item: _ } => 1,
            RecordFault::Digits { place: _ } => 2,
            RecordFault::Memory => 3,
        },
        match stem {
            StemFault::Limits => 1,
            StemFault::Memory => 2,
        },
        match sheet {
            SheetFault::Count => 1,
            SheetFault::Price { at: _ } => 2,
        },
    ]
}

/// The numbers of faults of `AptFault` and `StmFault`.
pub fn faults_of_files(apt: &AptFault, stm: &StmFault) -> [u8; 2] {
    [
        match apt {
            AptFault::Head { item: _ } => 1,
            AptFault::NotApt => 2,
            AptFault::Missing { number: _, kind: _ } => 3,
            AptFault::Twice { number: _, kind: _ } => 4,
            AptFault::Digits {
                number: _,
                kind: _,
                place: _,
            } => 5,
            AptFault::Range { number: _, kind: _ } => 6,
            AptFault::Order { number: _, kind: _ } => 7,
            AptFault::Count { number: _, kind: _ } => 8,
            AptFault::Module { length: _ } => 9,
            AptFault::Targets { assortment: _ } => 10,
            AptFault::Memory => 11,
        },
        match stm {
            StmFault::Head { item: _ } => 1,
            StmFault::NotStm => 2,
            StmFault::Missing { number: _, kind: _ } => 3,
            StmFault::Twice { number: _, kind: _ } => 4,
            StmFault::Digits {
                number: _,
                kind: _,
                place: _,
            } => 5,
            StmFault::Range { number: _, kind: _ } => 6,
            StmFault::Order { number: _, kind: _ } => 7,
            StmFault::Count { number: _, kind: _ } => 8,
            StmFault::Memory => 9,
        },
    ]
}

/// The numbers of faults of `Refusal`, `TargetsFault` and `DemandRefusal`.
pub fn refusals(refusal: &Refusal, targets: &TargetsFault, demand: &DemandRefusal) -> [u8; 3] {
    [
        match refusal {
            Refusal::Full => 1,
            Refusal::Stale { in_force: _ } => 2,
            Refusal::Memory => 3,
        },
        match targets {
            TargetsFault::Count => 1,
            TargetsFault::Range { at: _ } => 2,
            TargetsFault::Sum { assortment: _ } => 3,
        },
        match demand {
            DemandRefusal::Full => 1,
            DemandRefusal::Targets(_) => 2,
            DemandRefusal::Memory => 3,
        },
    ]
}

/// The numbers of faults of `ReplayFault` and `JournalFault`.
pub fn faults_of_journals(replay: &ReplayFault, journal: &JournalFault) -> [u8; 2] {
    [
        match replay {
            ReplayFault::Sheet { version: _ } => 1,
            ReplayFault::Price {
                version: _,
                class: _,
            } => 2,
            ReplayFault::Numbering { at: _ } => 3,
            ReplayFault::Version { at: _ } => 4,
            ReplayFault::Cutting { at: _ } => 5,
            ReplayFault::Worth { at: _ } => 6,
            ReplayFault::Outvalued { at: _ } => 7,
            ReplayFault::Memory => 8,
            ReplayFault::Targets { at: _ } => 9,
        },
        match journal {
            JournalFault::Head { item: _ } => 1,
            JournalFault::NotJournal => 2,
            JournalFault::Shape { item: _ } => 3,
            JournalFault::Digits { item: _ } => 4,
            JournalFault::Count { item: _ } => 5,
            JournalFault::Range { item: _ } => 6,
            JournalFault::Memory => 7,
        },
    ]
}

/// The numbers of faults of `OpenFault`, `TryFault` and `CutFault`.
pub fn faults_of_calls(open: &OpenFault, attempt: &TryFault, cut: &CutFault) -> [u8; 3] {
    [
        match open {
            OpenFault::Seats => 1,
            OpenFault::Capacity => 2,
            OpenFault::Memory => 3,
        },
        match attempt {
            TryFault::Full { plan: _ } => 1,
            TryFault::Stale {
                in_force: _,
                plan: _,
            } => 2,
            TryFault::Memory { plan: _ } => 3,
        },
        match cut {
            CutFault::Full => 1,
            CutFault::Memory => 2,
        },
    ]
}

/// The numbers of faults of `RetargetFault`, `RunFault` and `CloseFault`.
pub fn faults_of_ends(retarget: &RetargetFault, run: &RunFault, close: &CloseFault) -> [u8; 3] {
    [
        match retarget {
            RetargetFault::Full => 1,
            RetargetFault::Targets(_) => 2,
            RetargetFault::Memory => 3,
        },
        match run {
            RunFault::Full => 1,
            RunFault::Memory => 2,
        },
        match close {
            CloseFault::Instruction => 1,
            CloseFault::Calls {
                harvester: _,
                number: _,
            } => 2,
        },
    ]
}

/// The numbers of faults of `StepFault`, and of a `Path`.
pub fn steps(fault: &StepFault, path: &Path) -> [u8; 2] {
    [
        match fault {
            StepFault::NotAllowed => 1,
            StepFault::Full => 2,
            StepFault::Memory => 3,
            StepFault::Targets(_) => 4,
        },
        match path {
            Path::Optimistic => 1,
            Path::Locked => 2,
        },
    ]
}

/// `buck_record::Item`, `buck_apt::Class`, `buck_value::Log`, `buck_dp::Cutting` and `buck_rule::Standing` of their parts.
pub fn made_of_numbers(
    rest: Vec<u8>,
    logs: Vec<Log>,
    small: u8,
    short: u16,
    number: u32,
    wide: u64,
) -> (Item, Class, Log, Cutting, Standing) {
    let item = Item {
        number: short,
        kind: short,
        rest,
    };
    let class = Class {
        assortment: small,
        row: small,
        column: small,
    };
    let log = Log {
        start: number,
        length: number,
        assortment: small,
    };
    let standing = Standing {
        base: wide,
        limit: wide,
        target: wide,
        targets: wide,
        count: wide,
        counts: wide,
    };
    (item, class, log, Cutting { logs }, standing)
}

/// `buck_book::Entry` and `buck_book::Demand` of their parts.
pub fn postings(
    stem: Arc<Stem>,
    cutting: Arc<Cutting>,
    targets: Arc<Vec<u32>>,
    number: u32,
    worth: u64,
) -> (Entry, Demand) {
    let entry = Entry {
        harvester: number,
        number,
        stem,
        version: number,
        cutting,
        worth,
    };
    let demand = Demand {
        harvester: number,
        number,
        version: number,
        targets,
    };
    (entry, demand)
}

/// `buck_book::Journal` of its parts.
pub fn journal(sheets: Vec<Vec<u32>>, entries: Vec<Posting>) -> Journal {
    Journal { sheets, entries }
}

/// `buck_fleet::Kept`, `buck_fleet::Reply` and `buck_fleet::DemandReply` of their parts.
pub fn replies(
    posting: Posting,
    entry: Entry,
    demand: Demand,
    position: u32,
    attempts: u8,
    path: Path,
) -> (Kept, Reply, DemandReply) {
    let kept = Kept {
        position,
        entry: posting,
    };
    let reply = Reply {
        entry,
        position,
        attempts,
        path,
    };
    (kept, reply, DemandReply { demand, position })
}

/// The cut of a posting, if it is one, and the harvester of an event.
pub fn cut_and_harvester<'a>(posting: &'a Posting, event: &Event) -> (Option<&'a Entry>, u32) {
    let cut = match posting {
        Posting::Cut(entry) => Some(entry),
        Posting::Demand(_) => None,
    };
    let harvester = match event {
        Event::Read {
            harvester,
            version: _,
        } => *harvester,
        Event::Plan { harvester, stem: _ } => *harvester,
        Event::Try { harvester } => *harvester,
        Event::Locked { harvester, stem: _ } => *harvester,
        Event::Retarget {
            harvester,
            targets: _,
        } => *harvester,
        Event::Raise { harvester } => *harvester,
        Event::Leave { harvester } => *harvester,
    };
    (cut, harvester)
}
