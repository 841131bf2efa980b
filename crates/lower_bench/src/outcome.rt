//! What comes of files.
use ja_base::{File, Memory, Name, Refusal};
use ja_ir::Program;
use ja_lib::Table;
use ja_lower::LowerFault;
use std::alloc::Global;
use std::thread::Threads;
use tool_parts::{ClassFolder, text_of, text_of_refusal};

/// What comes of files as one folder.
#[derive(Drop)]
pub enum Outcome {
    /// None of them was read as a class.
    Unread,
    Refused(Refusal),
    Lowered(Program),
}

/// What comes of files as one folder.
pub fn outcome_of<R: Threads + Sync>(
    rt: &R,
    alloc: Global,
    files: &[File],
    table: &Table,
) -> Result<Outcome, Memory> {
    let folder = ClassFolder::new(alloc).with_files(alloc, files)?;
    if folder.is_empty() && !files.is_empty() {
        return Ok(Outcome::Unread);
    }
    match folder.lower(rt, alloc, table) {
        Ok(program) => Ok(Outcome::Lowered(program)),
        Err(LowerFault::Refused(refusal)) => Ok(Outcome::Refused(refusal)),
        Err(LowerFault::Memory) => Err(Memory),
    }
}

/// What comes of files as one folder, as lines.
pub fn outcome_text<R: Threads + Sync>(
    rt: &R,
    alloc: Global,
    files: &[File],
    table: &Table,
) -> Result<String, Memory> {
    match outcome_of(rt, alloc, files, table)? {
        Outcome::Unread => Ok(String::from_str(alloc, "unread\n")?),
        Outcome::Refused(refusal) => text_of_refusal(alloc, &refusal),
        Outcome::Lowered(program) => text_of(alloc, &program),
    }
}

/// The file on whose account a folder is refused by lowering.
pub fn file_of(refusal: &Refusal) -> Option<&Name> {
    match refusal {
        Refusal::PlatformClass { file }
        | Refusal::Duplicate { file }
        | Refusal::Cycle { file }
        | Refusal::CrossPackage { file, .. }
        | Refusal::Native { file, .. }
        | Refusal::FrameSize { file, .. }
        | Refusal::StackDepth { file, .. }
        | Refusal::KindClash { file, .. }
        | Refusal::FallsOff { file, .. }
        | Refusal::Reflection { file, .. }
        | Refusal::ThreadStart { file, .. }
        | Refusal::LibraryStore { file, .. }
        | Refusal::NoField { file, .. } => Some(file),
        _ => None,
    }
}
