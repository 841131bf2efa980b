//! What a real directory answers.
use ja_base::{Memory, Name, Names};
use ja_io::{DirFolder, Folder, FolderFail, Piece};
use std::alloc::Global;
use std::fs::Files;
use std::io;

/// The name that a word spells.
fn name_of(alloc: Global, word: &str) -> io::Result<Name> {
    Name::of(alloc, word.as_bytes()).map_err(out_of_memory)
}

/// The error for want of memory.
fn out_of_memory(_memory: Memory) -> io::Error {
    io::Error::from(io::ErrorKind::OutOfMemory)
}

/// The word of what failed.
fn fail_word(fail: FolderFail) -> &'static str {
    match fail {
        FolderFail::Absent => "absent",
        FolderFail::Fault => "fault",
        FolderFail::Memory => "out of memory",
    }
}

/// What comes of entering a directory.
pub fn entered<R: Files + AllocGlobal + Clone + Drop>(
    alloc: Global,
    folder: &mut DirFolder<R>,
    dir: &str,
) -> io::Result<String> {
    let dir = name_of(alloc, dir)?;
    let word = match folder.enter(alloc, &dir) {
        Ok(()) => "entered",
        Err(fail) => fail_word(fail),
    };
    Ok(String::from_str(alloc, word)?)
}

/// The names of the files of the directory that was entered, in byte order, each with a `;` behind it.
pub fn listed<R: Files + AllocGlobal + Clone + Drop>(
    alloc: Global,
    folder: &mut DirFolder<R>,
) -> io::Result<String> {
    match folder.list(alloc) {
        Ok(names) => joined(alloc, names),
        Err(fail) => Ok(String::from_str(alloc, fail_word(fail))?),
    }
}

/// Names in byte order, each with a `;` behind it.
fn joined(alloc: Global, names: Names) -> io::Result<String> {
    let mut names = names.into_vec();
    names.sort()?;
    let mut text = String::new(alloc);
    for name in &names {
        text.push_str(str::from_utf8(name.bytes()).unwrap_or("?"))?;
        text.push(';')?;
    }
    Ok(text)
}

/// The front of a file of the directory that was entered.
pub fn front<R: Files + AllocGlobal + Clone + Drop>(
    alloc: Global,
    folder: &mut DirFolder<R>,
    file: &str,
    most: &str,
) -> io::Result<String> {
    let file = name_of(alloc, file)?;
    match folder.read(alloc, &file, most.parse::<u64>().unwrap_or(0)) {
        Ok(piece) => shown(alloc, &piece),
        Err(fail) => Ok(String::from_str(alloc, fail_word(fail))?),
    }
}

/// The bytes of a piece, and whether the file has more.
fn shown(alloc: Global, piece: &Piece) -> io::Result<String> {
    let bytes = str::from_utf8(piece.bytes.as_slice()).unwrap_or("?");
    let end = if piece.longer { "more" } else { "end" };
    Ok(format!(in alloc; "`{bytes}`, {end}")?)
}
