//! The table of fault lines and their sentences.

/// A fault line that may be, in each file that may have it, and its sentence.
#[derive(Clone, Copy, Drop)]
pub(crate) struct Row {
    /// The words of a line; a letter stands for any number.
    pub(crate) lines: &'static [&'static str],
    /// `{a}` stands for the number in the place of that letter. The rest is of the item that `a` and `b` name: `{item}`
    /// itself, its `{range}`, `{order}` and `{count}`, or that alone in which an owner's instruction may not differ, as
    /// a `{whole}` or in a `{part}`; or of the file: its `{kind}`, and its `{place}` among the files.
    pub(crate) sentence: &'static str,
}

/// All of them. Of two that fit, the first is meant.
pub(crate) static ROWS: [Row; 43] = [
    Row {
        lines: &["apt fault 1 a", "stm n fault 1 a"],
        sentence: "Item {a} {place}, counted from 1, does not begin with two numbers: look there for a missing or extra tilde (~), or for text that does not belong there (--explain says where).",
    },
    Row {
        lines: &["apt fault 2", "stm n fault 2"],
        sentence: "The kind of file \"1 2 {kind}~\" is not {place}: check that you named the right files, in the right order.",
    },
    Row {
        lines: &["apt fault 3 a b", "stm n fault 3 a b"],
        sentence: "{item} {place} is missing or comes too late: add it, or look for a missing tilde (~) before it (--explain says where).",
    },
    Row {
        lines: &["apt fault 4 a b", "stm n fault 4 a b"],
        sentence: "{item} {place} is given twice, but may be given only once: remove the wrong one (--explain says where).",
    },
    Row {
        lines: &["apt fault 5 a b c", "stm n fault 5 a b c"],
        sentence: "{item} {place} has a word that is not a number, word {c}: write digits alone there, no sign, point or comma, at most 4294967295 (--explain says where).",
    },
    Row {
        lines: &["apt fault 6 a b", "stm n fault 6 a b"],
        sentence: "{item} {place} is out of range ({range}): correct it (--explain says where).",
    },
    Row {
        lines: &["apt fault 7 a b", "stm n fault 7 a b"],
        sentence: "{item} {place} {order}: put it in order (--explain says where).",
    },
    Row {
        lines: &["apt fault 8 a b", "stm n fault 8 a b"],
        sentence: "{item} {place} has too few or too many numbers, it must have {count}: look for a missing or an extra one (--explain says where).",
    },
    Row {
        lines: &["apt fault 9 a"],
        sentence: "The length {a} mm in the instruction file is not a multiple of the module (901 1): change the length (916 1) or the module.",
    },
    Row {
        lines: &["apt fault 10 a"],
        sentence: "The targets (918 1) of assortment {a}, counted from 0, in the instruction file are more than 1000000000 together: only their proportions matter, so make all of them smaller.",
    },
    Row {
        lines: &["journal fault 1 a"],
        sentence: "Item {a} of the journal, counted from 1, does not begin with two numbers: the file is damaged or is not a journal, so ask the sender for a new copy.",
    },
    Row {
        lines: &["journal fault 2"],
        sentence: "The file named as a journal does not begin with \"1 2 JRN~\": check that you named the files in the right order.",
    },
    Row {
        lines: &["journal fault 3 a"],
        sentence: "Item {a} of the journal, counted from 1, is not the one expected there: the journal was cut off, or an item is missing or extra, so ask the sender for a new copy.",
    },
    Row {
        lines: &["journal fault 4 a"],
        sentence: "Item {a} of the journal, counted from 1, has a word that is not a number: the journal was changed or damaged, so ask the sender for a new copy.",
    },
    Row {
        lines: &["journal fault 5 a"],
        sentence: "Item {a} of the journal, counted from 1, has too few or too many numbers: the journal was changed or damaged, so ask the sender for a new copy.",
    },
    Row {
        lines: &["journal fault 6 a"],
        sentence: "Item {a} of the journal, counted from 1, has a number that is too small, too great or out of order: the journal was changed or damaged, so ask the sender for a new copy.",
    },
    Row {
        lines: &["replay fault 1 a"],
        sentence: "The prices of version {a} in the journal are missing, are not one for each class, or are one list too many: check that the instruction and its period are those of that day, and that the journal is complete.",
    },
    Row {
        lines: &["replay fault 2 a b"],
        sentence: "In version {a} the price of class {b}, both counted from 0, is out of its bounds after what was cut before: check that the instruction and its limit are those of that day; if so, ask the sender.",
    },
    Row {
        lines: &["replay fault 3 a"],
        sentence: "Posting {a}, counted from 0, does not have its harvester's next number: a posting is missing, repeated or moved, so ask the sender for a new copy.",
    },
    Row {
        lines: &["replay fault 4 a"],
        sentence: "Posting {a}, counted from 0, was not planned at the prices in force: check that the instruction and its period are those of that day; if so, ask the sender.",
    },
    Row {
        lines: &["replay fault 5 a"],
        sentence: "The logs of posting {a}, counted from 0, cannot be cut from its stem under this instruction: check that the instruction is that of that day; if so, ask the sender.",
    },
    Row {
        lines: &["replay fault 6 a"],
        sentence: "The worth of posting {a}, counted from 0, is not the worth of its logs: check that the instruction is that of that day; if so, ask the sender.",
    },
    Row {
        lines: &["replay fault 7 a"],
        sentence: "The stem of posting {a}, counted from 0, could have been cut into logs worth more: check that the instruction is that of that day; if so, ask who cut it why (check --explain shows the better logs).",
    },
    Row {
        lines: &["replay fault 9 a"],
        sentence: "The new targets of posting {a}, counted from 0, are not one for each class, or are too great: check that the instruction is that of that day; if so, ask the sender.",
    },
    Row {
        lines: &["close fault 1"],
        sentence: "The fleet's history has another instruction than the fleet, which no run has ever shown: keep the files and tell the makers of this program.",
    },
    Row {
        lines: &["close fault 2 a b"],
        sentence: "The reply to call {b} of harvester {a} is not what the fleet's history holds, which no run has ever shown: keep the files and tell the makers of this program.",
    },
    Row {
        lines: &["check fault 1 a b"],
        sentence: "Cut {b} of harvester {a}, counted from 1, is not of the stem at that place in its stem file: check that the stem files are those of that day, in the right order; if so, a stem was changed or exchanged.",
    },
    Row {
        lines: &["check fault 2 a b"],
        sentence: "Stem {b} of harvester {a}'s stem file, counted from 1, is not cut in the journal: check that the journal is complete; if so, wood is missing.",
    },
    Row {
        lines: &["check fault 3 a b"],
        sentence: "Harvester {a} cut more stems in the journal than its stem file has; cut {b}, counted from 1, is the first of them: check that you named all stem files, in the right order.",
    },
    Row {
        lines: &["check fault 4 a b c d"],
        sentence: "In version {a} the price of class {b}, both counted from 0, is {c}, but the rule gives {d}: check that the rule, the period and the limit are those of that day; if so, ask the sender.",
    },
    Row {
        lines: &["targets fault 1"],
        sentence: "The new targets are not one for each class of the instruction: give one number for each class, assortment by assortment, row by row.",
    },
    Row {
        lines: &["targets fault 2 a"],
        sentence: "The new target of class {a}, counted from 0, is above 1000000: only proportions matter, so make all of them smaller.",
    },
    Row {
        lines: &["targets fault 3 a"],
        sentence: "The new targets of assortment {a}, counted from 0, are more than 1000000000 together: only proportions matter, so make all of them smaller.",
    },
    Row {
        lines: &["targets fault 4 a"],
        sentence: "Item {a} of the file of targets, counted from 1, does not begin with two numbers: check that you named the right file, or look there for a missing or extra tilde (~).",
    },
    Row {
        lines: &["targets fault 5 a b"],
        sentence: "List {a} of the targets (918 1), counted from 0, has a word that is not a number, word {b}: write digits alone there.",
    },
    Row {
        lines: &["own fault 11 a b"],
        sentence: "{whole} of the owner's instruction differs from that of the instruction named first: write the owner's prices into a copy of that one.",
    },
    Row {
        lines: &["own fault 12 a b c"],
        sentence: "{part} of assortment {c}, counted from 0, of the owner's instruction differs from that of the instruction named first: write the owner's prices into a copy of that one.",
    },
    Row {
        lines: &["read fault 0"],
        sentence: "The instruction file, or standard input without a command, cannot be opened or read, or is too long: check its name, and that it exists and you may read it (--explain says which).",
    },
    Row {
        lines: &["read fault a"],
        sentence: "File {a} after the instruction (with live: the request or standard input) cannot be opened or read, or is too long: check its name, and that it exists and you may read it (--explain says which).",
    },
    Row {
        lines: &["write fault"],
        sentence: "The output or the journal could not be written: check that the disk is not full, that the folder exists and you may write there, and that the journal is not an input file.",
    },
    Row {
        lines: &["seats"],
        sentence: "There are more than 64 stem files: name at most 64, one for each harvester.",
    },
    Row {
        lines: &["memory"],
        sentence: "The computer did not have enough memory: close other programs, or cut fewer stems at a time.",
    },
    Row {
        lines: &["full"],
        sentence: "One run has room for 1000000 stems and changes of targets: start a new one with the rest.",
    },
];
