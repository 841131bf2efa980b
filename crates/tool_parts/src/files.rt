//! The words of a call, and the files of a directory.
use ja_base::{File, Files, MAX_FILE_BYTES, Memory, Name, Names};
use ja_io::{DirFolder, Folder, FolderFail};
use std::alloc::Global;
use std::env::{self, Env};
use std::fs::Files as FilesOfSystem;
use std::io::{self, ErrorKind};

/// The words after the program's name.
pub fn words_of<R: Env + AllocGlobal>(rt: &R) -> io::Result<Names> {
    let alloc = rt.alloc();
    let mut words = Names::new(alloc);
    for word in env::args(rt)?.skip(1) {
        let word = Name::of(alloc, word.as_bytes()).map_err(out_of_memory)?;
        words.push(word).map_err(out_of_memory)?;
    }
    Ok(words)
}

/// The names of the folders that lie directly in a directory and have files below them, in byte order.
pub fn folders_in<R: FilesOfSystem + AllocGlobal + Clone + Drop>(
    rt: R,
    dir: &Name,
) -> io::Result<Names> {
    let alloc = rt.alloc();
    let mut folder = DirFolder::new(rt);
    let names = sorted_names(alloc, &mut folder, dir)?;
    let mut parts = Names::new(alloc);
    for name in names.as_slice() {
        if let Some(part) = first_part(name) {
            add_part(alloc, &mut parts, part).map_err(out_of_memory)?;
        }
    }
    Ok(parts)
}

/// What stands before the first `/` of a name, if there is one.
fn first_part(name: &Name) -> Option<&[u8]> {
    let bytes = name.bytes();
    let end = bytes.iter().position(|byte| *byte == b'/')?;
    bytes.get(..end)
}

/// Adds a part, unless it is the last one already.
fn add_part(alloc: Global, parts: &mut Names, part: &[u8]) -> Result<(), Memory> {
    match parts.as_slice().last() {
        Some(last) if last.bytes() == part => Ok(()),
        _ => parts.push(Name::of(alloc, part)?),
    }
}

/// The files below a directory whose names end with a suffix, in byte order of their names.
pub fn files_in<R: FilesOfSystem + AllocGlobal + Clone + Drop>(
    rt: R,
    dir: &Name,
    suffix: &[u8],
) -> io::Result<Files> {
    let alloc = rt.alloc();
    let mut folder = DirFolder::new(rt);
    let names = sorted_names(alloc, &mut folder, dir)?;
    let mut files = Files::new(alloc);
    for name in names.as_slice() {
        if name.bytes().ends_with(suffix) {
            let file = file_of(alloc, &mut folder, name)?;
            files.push(file).map_err(out_of_memory)?;
        }
    }
    Ok(files)
}

/// The names of all files below a directory, in byte order. The folder has entered it then.
fn sorted_names<R: FilesOfSystem + AllocGlobal + Clone + Drop>(
    alloc: Global,
    folder: &mut DirFolder<R>,
    dir: &Name,
) -> io::Result<Vec<Name>> {
    folder.enter(alloc, dir).map_err(error_of)?;
    let mut names = folder.list(alloc).map_err(error_of)?.into_vec();
    names.sort()?;
    Ok(names)
}

/// The file of this name.
fn file_of<R: FilesOfSystem + AllocGlobal + Clone + Drop>(
    alloc: Global,
    folder: &mut DirFolder<R>,
    name: &Name,
) -> io::Result<File> {
    let piece = folder.read(alloc, name, MAX_FILE_BYTES).map_err(error_of)?;
    Ok(File {
        name: name.copy(alloc).map_err(out_of_memory)?,
        bytes: piece.bytes,
    })
}

/// The error for want of memory.
fn out_of_memory(_memory: Memory) -> io::Error {
    io::Error::from(ErrorKind::OutOfMemory)
}

/// The error of a folder that failed.
fn error_of(fail: FolderFail) -> io::Error {
    match fail {
        FolderFail::Absent => io::Error::from(ErrorKind::NotFound),
        FolderFail::Fault => io::Error::from(ErrorKind::InvalidData),
        FolderFail::Memory => out_of_memory(Memory),
    }
}
