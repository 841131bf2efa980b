//! Each class as a folder of its own.
use crate::outcome::{Outcome, outcome_of};
use ja_base::{File, Memory};
use ja_lib::Table;
use std::alloc::Global;
use std::slice;
use std::thread::Threads;
use tool_parts::ClassFolder;

/// One more than the last number of a refusal.
pub const NUMBERS: usize = 74;

/// What came of class files, each as a folder of its own.
#[derive(Drop)]
pub struct Tally {
    /// Files that were not read as classes.
    pub unread: u64,
    /// Classes that were refused, by the number of the refusal.
    pub refused: [u64; NUMBERS],
    /// The classes that were lowered.
    pub lowered: ClassFolder,
}

/// Lowers each file as a folder of its own.
pub fn tally_of<R: Threads + Sync>(
    rt: &R,
    alloc: Global,
    files: &[File],
    table: &Table,
) -> Result<Tally, Memory> {
    let mut tally = Tally {
        unread: 0,
        refused: [0; NUMBERS],
        lowered: ClassFolder::new(alloc),
    };
    for file in files {
        tally = counted(rt, alloc, tally, file, table)?;
    }
    Ok(tally)
}

/// The counts with one more file.
fn counted<R: Threads + Sync>(
    rt: &R,
    alloc: Global,
    tally: Tally,
    file: &File,
    table: &Table,
) -> Result<Tally, Memory> {
    let mut tally = tally;
    match outcome_of(rt, alloc, slice::from_ref(file), table)? {
        Outcome::Unread => tally.unread = tally.unread.saturating_add(1),
        Outcome::Refused(refusal) => {
            let number = refusal.number() as usize;
            tally.refused[number] = tally.refused[number].saturating_add(1);
        }
        Outcome::Lowered(_) => tally.lowered = tally.lowered.with_file(alloc, file)?,
    }
    Ok(tally)
}
