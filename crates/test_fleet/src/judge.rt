//! A plain slow judge of a history of the saw instruction, by the step rule and targets that are all 1. Each stem has
//! one diameter and is shorter than 9,000 mm. It has arithmetic of its own, counts the whole list at each entry, and
//! finds what a stem is worth by trying all lists of logs.
use buck_book_postings::{Entry, Posting};
use buck_fleet::Closed;
use buck_value::Sheet;

/// The base prices of the four classes, row by row.
const BASE: [u64; 4] = [400, 500, 600, 800];

/// The diameter of a stem in mm.
fn diameter_of(entry: &Entry) -> u64 {
    match entry.stem.samples().first() {
        Some(sample) => u64::from(*sample),
        None => 0,
    }
}

/// The place of a log's class among the four. None if there is no such class.
fn class_of(diameter: u64, length: u64) -> Option<usize> {
    if diameter < 100 || diameter >= 400 {
        return None;
    }
    let row = if diameter < 200 { 0usize } else { 2 };
    match length {
        3000 => Some(row),
        4000 => Some(row + 1),
        _ => None,
    }
}

/// Counts the logs of an entry, each in its class.
fn count_logs(counts: &mut [u64; 4], entry: &Entry) {
    let diameter = diameter_of(entry);
    for log in entry.cutting.logs.as_slice() {
        match class_of(diameter, u64::from(log.length)) {
            Some(class) if class < 4 => counts[class] = counts[class].saturating_add(1),
            _ => {}
        }
    }
}

/// How many logs were cut in each class.
pub fn counts_of(postings: &[Posting]) -> [u64; 4] {
    let mut counts = [0; 4];
    for posting in postings {
        if let Posting::Cut(entry) = posting {
            count_logs(&mut counts, entry);
        }
    }
    counts
}

/// All logs of all classes.
fn sum_of(counts: &[u64; 4]) -> u64 {
    let [a, b, c, d] = *counts;
    a.saturating_add(b).saturating_add(c).saturating_add(d)
}

/// The degree of apportionment in hundredths of a per cent. None if nothing was cut.
pub fn degree_of(postings: &[Posting]) -> Option<u64> {
    let counts = counts_of(postings);
    let all = sum_of(&counts);
    let mut met = 0u64;
    for count in &counts {
        met = met.saturating_add(all.min(count.saturating_mul(4)));
    }
    met.saturating_mul(10_000)
        .checked_div(all.saturating_mul(4))
}

/// What all entries are worth.
pub fn worth_of(postings: &[Posting]) -> u64 {
    let mut worth = 0u64;
    for posting in postings {
        if let Posting::Cut(entry) = posting {
            worth = worth.saturating_add(entry.worth);
        }
    }
    worth
}

/// The price of a class by the step rule, with so many of its logs among so many.
fn price_of(class: usize, limit: u64, count: u64, all: u64) -> u64 {
    let base = *BASE.get(class).unwrap_or(&0);
    let span = base.saturating_mul(limit) / 1000;
    let cut = count.saturating_mul(4);
    if cut < all {
        base.saturating_add(span)
    } else if cut == all {
        base
    } else {
        base.saturating_sub(span)
    }
}

/// Whether a sheet has the prices that follow from the postings before it.
fn is_right_sheet(sheet: &Sheet, limit: u64, before: &[Posting]) -> bool {
    let counts = counts_of(before);
    let all = sum_of(&counts);
    match sheet.prices() {
        [a, b, c, d] => {
            u64::from(*a) == price_of(0, limit, counts[0], all)
                && u64::from(*b) == price_of(1, limit, counts[1], all)
                && u64::from(*c) == price_of(2, limit, counts[2], all)
                && u64::from(*d) == price_of(3, limit, counts[3], all)
        }
        _ => false,
    }
}

/// Whether all sheets are right, and there is one more than periods that ended.
fn are_right_sheets(closed: &Closed, period: usize, limit: u64) -> bool {
    let postings = closed.entries();
    let sheets = closed.sheets();
    let Some(ends) = postings.len().checked_div(period) else {
        return false;
    };
    if sheets.len() != ends.saturating_add(1) {
        return false;
    }
    for (version, sheet) in sheets.iter().enumerate() {
        let number = version.saturating_mul(period);
        if number > postings.len() {
            return false;
        }
        let (before, _) = postings.split_at(number);
        if sheet.version() as usize != version || !is_right_sheet(sheet, limit, before) {
            return false;
        }
    }
    true
}

/// What a log is worth, in millionths of the price unit. 0 if it has no class.
fn worth_of_log(prices: &[u32], diameter: u64, length: u64) -> u64 {
    let square = diameter.saturating_mul(diameter).saturating_mul(length);
    let volume = square.saturating_mul(7854) / 10_000_000;
    match class_of(diameter, length) {
        Some(class) => volume.saturating_mul(u64::from(*prices.get(class).unwrap_or(&0))),
        None => 0,
    }
}

/// What an entry's logs are worth together. None if one isn't allowed, or begins before the end of another.
fn worth_of_entry(entry: &Entry, prices: &[u32]) -> Option<u64> {
    let diameter = diameter_of(entry);
    let mut end = 0u64;
    let mut worth = 0u64;
    for log in entry.cutting.logs.as_slice() {
        let (start, length) = (u64::from(log.start), u64::from(log.length));
        if start < end || start % 100 != 0 {
            return None;
        }
        end = start.saturating_add(length);
        if end > u64::from(entry.stem.length()) || class_of(diameter, length).is_none() {
            return None;
        }
        worth = worth.saturating_add(worth_of_log(prices, diameter, length));
    }
    Some(worth)
}

/// The most that a list of logs is worth: a stem shorter than 9,000 mm has at most two, at 90 places and of two lengths.
fn best_list(prices: &[u32], diameter: u64, to: u64) -> u64 {
    let worths = [
        worth_of_log(prices, diameter, 3000),
        worth_of_log(prices, diameter, 4000),
    ];
    let mut most = 0u64;
    for a in 0..180u64 {
        let end = a / 2 * 100 + 3000 + a % 2 * 1000;
        let first = if end <= to {
            worths[(a % 2) as usize]
        } else {
            0
        };
        most = most.max(first);
        for b in 0..180u64 {
            let start = b / 2 * 100;
            if first > 0 && end <= start && start + 3000 + b % 2 * 1000 <= to {
                most = most.max(first.saturating_add(worths[(b % 2) as usize]));
            }
        }
    }
    most
}

/// How many postings are a harvester's.
fn calls_of(postings: &[Posting], harvester: u32) -> usize {
    let mut calls = 0usize;
    for posting in postings {
        if let Posting::Cut(entry) = posting {
            if entry.harvester == harvester {
                calls = calls.saturating_add(1);
            }
        }
    }
    calls
}

/// Whether an entry is worth what its logs are under these prices, and no list of logs is worth more.
fn is_best(entry: &Entry, prices: &[u32]) -> bool {
    let most = best_list(prices, diameter_of(entry), u64::from(entry.stem.length()));
    entry.stem.length() < 9000 && entry.worth == most && worth_of_entry(entry, prices) == Some(most)
}

/// Whether an entry may stand after these postings.
fn may_follow(before: &[Posting], entry: &Entry, closed: &Closed, period: usize) -> bool {
    let calls = calls_of(before, entry.harvester);
    let version = before.len().checked_div(period);
    if version != Some(entry.version as usize) || entry.number as usize != calls.saturating_add(1) {
        return false;
    }
    match closed.sheets().get(entry.version as usize) {
        Some(sheet) => is_best(entry, sheet.prices()),
        None => false,
    }
}

/// Whether all entries may stand where they do.
fn are_right_entries(closed: &Closed, period: usize) -> bool {
    let postings = closed.entries();
    for (i, posting) in postings.iter().enumerate() {
        if i > postings.len() {
            return false;
        }
        let (before, _) = postings.split_at(i);
        let is_right = match posting {
            Posting::Cut(entry) => may_follow(before, entry, closed, period),
            Posting::Demand(_) => false,
        };
        if !is_right {
            return false;
        }
    }
    true
}

/// Whether a history is lawful, with this period in stems and this limit per mille.
pub fn is_right(closed: &Closed, period: usize, limit: u64) -> bool {
    are_right_sheets(closed, period, limit) && are_right_entries(closed, period)
}
