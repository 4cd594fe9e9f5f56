//! Shows journals that lie beside it, as `buckfleet view` and `buckfleet table` do, and prints of each page and of each
//! table whether it is, byte for byte, the one that is stored there. The figures and drawings of the stored ones were
//! made by another program, in another language, and looked at by a person.
use buckfleet_engine::{Settings, conclude};
use buckfleet_engine_files::{Desk, Disk, Nobody};
use buckfleet_engine_page::{Shown, Table, ViewTask, serve_view};
use std::io::Write;
use std::thread::Threads;
use std::{fs, io};

/// What is shown, how that is to end, and where the bytes stand that are to be printed.
#[derive(Drop)]
struct Case {
    apt: &'static str,
    journal: &'static str,
    /// A second journal, if several are shown.
    next: Option<&'static str>,
    shown: Shown,
    status: u8,
    /// What is to stand on the errors.
    told: &'static str,
    stored: &'static str,
}

/// A page that is to be shown well.
fn page(apt: &'static str, journal: &'static str, stored: &'static str) -> Case {
    Case {
        apt,
        journal,
        next: None,
        shown: Shown::Page,
        status: 0,
        told: "",
        stored,
    }
}

/// A table of the morning.
fn table(table: Table, stored: &'static str) -> Case {
    Case {
        apt: "morning.apt",
        journal: "morning.jrn",
        next: None,
        shown: Shown::Table(table),
        status: 0,
        told: "",
        stored,
    }
}

/// A morning of three harvesters; one whose targets were changed twice, with trims, and with names that are hostile or no
/// UTF-8; a journal without a posting, and one with a demand alone; one that isn't lawful; one lawful and one that isn't;
/// and the tables of the morning, and of two such mornings.
fn cases() -> [Case; 13] {
    [
        page("morning.apt", "morning.jrn", "morning.html"),
        page("targets.apt", "targets.jrn", "targets.html"),
        page("saw.apt", "none.jrn", "none.html"),
        page("saw.apt", "demand.jrn", "demand.html"),
        Case {
            apt: "morning.apt",
            journal: "bad.jrn",
            next: None,
            shown: Shown::Page,
            status: 4,
            told: "replay fault 6 0\n",
            stored: "bad.html",
        },
        Case {
            apt: "morning.apt",
            journal: "morning.jrn",
            next: Some("bad.jrn"),
            shown: Shown::Page,
            status: 4,
            told: "replay 2 fault 6 0\n",
            stored: "second_bad.html",
        },
        table(Table::Classes, "classes.csv"),
        table(Table::Postings, "postings.csv"),
        table(Table::Logs, "logs.csv"),
        table(Table::Degrees, "degrees.csv"),
        table(Table::Assortments, "assortments.csv"),
        table(Table::Lacking, "lacking.csv"),
        Case {
            apt: "morning.apt",
            journal: "morning.jrn",
            next: Some("morning.jrn"),
            shown: Shown::Table(Table::Assortments),
            status: 0,
            told: "",
            stored: "two_mornings.csv",
        },
    ]
}

/// Whether a case ends as it is to end, with the stored bytes.
fn is_right<T: Threads + Sync>(threads: &T, rt: &HostRuntime, case: &Case) -> io::Result<bool> {
    let alloc = rt.alloc();
    let stored = fs::read(rt, case.stored)?;
    let mut journals = Vec::new(alloc);
    journals.push(case.journal)?;
    if let Some(next) = case.next {
        journals.push(next)?;
    }
    let task = ViewTask {
        apt: case.apt,
        journals,
        shown: case.shown,
        settings: Settings::own(),
        threads: None,
    };
    let mut output = Vec::new(alloc);
    let mut errors = Vec::new(alloc);
    let outcome = serve_view(
        threads,
        alloc,
        &task,
        &Nobody,
        &mut Disk::of(rt, alloc, &Desk::of(0)),
        &mut output,
    );
    let status = conclude(&mut errors, &outcome);
    Ok(
        status == case.status
            && errors.as_slice() == case.told.as_bytes()
            && output.as_slice() == stored.as_slice(),
    )
}

/// Prints a line for each case.
pub fn compare<T: Threads + Sync>(threads: &T, rt: &HostRuntime) -> io::Result<()> {
    let mut output = io::writer(rt);
    for case in cases() {
        let word = if is_right(threads, rt, &case)? {
            ": same\n"
        } else {
            ": differs\n"
        };
        output.write_all(case.stored.as_bytes())?;
        output.write_all(word.as_bytes())?;
    }
    Ok(())
}
