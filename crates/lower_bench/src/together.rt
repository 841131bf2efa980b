//! Classes as one folder.
use crate::outcome::file_of;
use ja_base::{Memory, Name};
use ja_ir::Program;
use ja_lib::Table;
use ja_lower::LowerFault;
use std::alloc::Global;
use std::thread::Threads;
use tool_parts::ClassFolder;

/// A folder, its program, and how many classes were left out.
#[derive(Drop)]
pub struct Whole {
    pub folder: ClassFolder,
    pub program: Program,
    pub left_out: u64,
}

/// The program of classes as one folder, without those on whose account it is refused: they are left out one by
/// one. None where no class is left.
pub fn lower_together<R: Threads + Sync>(
    rt: &R,
    alloc: Global,
    classes: ClassFolder,
    table: &Table,
) -> Result<Option<Whole>, Memory> {
    let mut folder = classes;
    for left_out in 0..folder.len() {
        match folder.lower(rt, alloc, table) {
            Ok(program) => {
                return Ok(Some(Whole {
                    folder,
                    program,
                    left_out: left_out as u64,
                }));
            }
            Err(LowerFault::Refused(refusal)) => {
                let place = file_of(&refusal).and_then(|file| place_of(&folder, file));
                folder = folder.without(place.unwrap_or(0));
            }
            Err(LowerFault::Memory) => return Err(Memory),
        }
    }
    Ok(None)
}

/// The place of the class with a file of this name.
fn place_of(folder: &ClassFolder, file: &Name) -> Option<usize> {
    folder
        .names()
        .as_slice()
        .iter()
        .position(|name| name == file)
}

/// The number of instructions of a program.
pub fn instructions(program: &Program) -> u64 {
    let mut count = 0u64;
    for method in program.methods().as_slice() {
        count = count.saturating_add(method.code.len());
    }
    count
}
