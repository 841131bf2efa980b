//! Folders in memory.
use crate::bytes::{Spelled, files_of, name_of, numbers_behind};
use ja_base::{Memory, Name, Names};
use ja_io::{Folder, FolderFail, MemFolder, has_distinct_names};
use std::alloc::{AllocError, Global};

/// Adds what the folder `d` answers to each line `enter NAME` or `list`, with its count of faults.
pub fn add_folder(
    out: &mut String,
    alloc: Global,
    spelled: &[Spelled],
    lines: &[&str],
) -> Result<(), Memory> {
    match folder_of(alloc, spelled, lines)? {
        Some(mut folder) => add_answers(out, alloc, &mut folder, lines),
        None => Ok(writeln!(out, "two files of one name")?),
    }
}

/// The folder `d` of the files of lines, whose calls fail as they say, unless two files have one name.
pub fn folder_of(
    alloc: Global,
    spelled: &[Spelled],
    lines: &[&str],
) -> Result<Option<MemFolder>, Memory> {
    let files = files_of(alloc, spelled, lines)?;
    if !has_distinct_names(files.as_slice()) {
        return Ok(None);
    }
    let fails = numbers_behind(alloc, lines, "folder fails ")?;
    let name = Name::of(alloc, b"d")?;
    Ok(Some(MemFolder::new(name, files, fails)))
}

/// Adds what a folder answers to each line.
fn add_answers(
    out: &mut String,
    alloc: Global,
    folder: &mut MemFolder,
    lines: &[&str],
) -> Result<(), Memory> {
    for line in lines {
        add_answer(out, alloc, folder, line)?;
    }
    Ok(())
}

/// Adds what a folder answers to a line.
fn add_answer(
    out: &mut String,
    alloc: Global,
    folder: &mut MemFolder,
    line: &str,
) -> Result<(), Memory> {
    if line == "list" {
        return Ok(add_names(out, folder.list(alloc))?);
    }
    let Some(dir) = line.strip_prefix("enter ") else {
        return Ok(());
    };
    let answer = entered(alloc, folder, dir)?;
    Ok(writeln!(out, "{line}: {answer}, faults {}", folder.faults())?)
}

/// What a folder answers to entering a directory.
fn entered(alloc: Global, folder: &mut MemFolder, dir: &str) -> Result<&'static str, Memory> {
    let dir = name_of(alloc, dir)?;
    Ok(fail_word(folder.enter(alloc, &dir).err()))
}

/// The word of what failed, or of nothing.
fn fail_word(fail: Option<FolderFail>) -> &'static str {
    match fail {
        None => "done",
        Some(FolderFail::Absent) => "absent",
        Some(FolderFail::Fault) => "fault",
        Some(FolderFail::Memory) => "out of memory",
    }
}

/// Adds the names of the files, or why there are none.
fn add_names(out: &mut String, names: Result<Names, FolderFail>) -> Result<(), AllocError> {
    match names {
        Ok(names) => add_each(out, names.as_slice()),
        Err(fail) => writeln!(out, "list: {}", fail_word(Some(fail))),
    }
}

/// Adds names.
fn add_each(out: &mut String, names: &[Name]) -> Result<(), AllocError> {
    write!(out, "list:")?;
    for name in names {
        write!(out, " {}", str::from_utf8(name.bytes()).unwrap_or("?"))?;
    }
    writeln!(out)
}
