//! The instruction under which commits and boards are timed, and stems out of files.

use buck_apt::{Instruction, read_apt};
use buck_stem::{Stem, read_stm};
use std::alloc::Global;
use std::fs;
use std::sync::Arc;

const INSTRUCTION: &str = "1 2 APT~901 1 100~902 1 100~903 1 500~910 1 1~
911 1 saw~912 1 1~913 1 1~914 1 1~915 1 100 200~915 2 400~
916 1 3000 4000~917 1 400 500 600 800~918 1 1 1 1 1~";

/// One assortment of four classes, in periods of 100.
pub fn one_saw_log(alloc: Global) -> Option<Arc<Instruction>> {
    let instruction = read_apt(alloc, INSTRUCTION.as_bytes()).ok()?;
    Arc::new(alloc, instruction).ok()
}

/// The instruction in a file.
pub fn instruction_of(rt: &HostRuntime, file: &str) -> Option<Arc<Instruction>> {
    let bytes = fs::read(rt, file).ok()?;
    let instruction = read_apt(rt.alloc(), bytes.as_slice()).ok()?;
    Arc::new(rt.alloc(), instruction).ok()
}

/// The stems of files, dealt out in turn into so many lists.
pub fn dealt(rt: &HostRuntime, files: &[String], number: usize) -> Option<Vec<Vec<Arc<Stem>>>> {
    let mut lists = Vec::new(rt.alloc());
    for _ in 0..number {
        lists.push(Vec::new(rt.alloc())).ok()?;
    }
    let mut next = 0usize;
    for file in files {
        let bytes = fs::read(rt, file.as_str()).ok()?;
        for stem in read_stm(rt.alloc(), bytes.as_slice()).ok()? {
            let stem = Arc::new(rt.alloc(), stem).ok()?;
            lists.get_mut(next.checked_rem(number)?)?.push(stem).ok()?;
            next = next.wrapping_add(1);
        }
    }
    Some(lists)
}
