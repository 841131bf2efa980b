//! Files below a directory.
use crate::failure::Failure;
use ja_base::{File, Name};
use std::alloc::Global;
use std::fs;
use std::rt::Runtime;

/// A name as a text of the system.
pub fn text_of(name: &Name) -> Result<&str, Failure> {
    str::from_utf8(name.bytes()).map_err(|_| Failure::Files)
}

/// Tests the names of files, which stand in their byte order: each leads below the directory, and no two are one.
pub fn check_names(alloc: Global, files: &[File]) -> Result<(), Failure> {
    let mut before = "";
    for file in files {
        let name = text_of(&file.name)?;
        if !stays_below(name) {
            return Err(Failure::Files);
        }
        if name == before {
            let name = String::from_str(alloc, name).map_err(|_| Failure::Memory)?;
            return Err(Failure::Twice { name });
        }
        before = name;
    }
    Ok(())
}

/// Writes files below a directory, which is made where it is not there. Their names were tested.
pub fn write_files<R: Runtime + AllocGlobal>(
    rt: &R,
    dir: &str,
    files: &[File],
) -> Result<(), Failure> {
    fs::create_dir_all(rt, dir)?;
    for file in files {
        write_file(rt, dir, file)?;
    }
    Ok(())
}

/// Writes a file below a directory, and makes the folders on the way.
fn write_file<R: Runtime + AllocGlobal>(rt: &R, dir: &str, file: &File) -> Result<(), Failure> {
    let name = text_of(&file.name)?;
    let alloc = rt.alloc();
    if let Some((folder, _)) = name.rsplit_once('/') {
        let path = format!(in alloc; "{dir}/{folder}").map_err(|_| Failure::Memory)?;
        fs::create_dir_all(rt, path.as_str())?;
    }
    let path = format!(in alloc; "{dir}/{name}").map_err(|_| Failure::Memory)?;
    fs::write(rt, path.as_str(), file.bytes.as_slice())?;
    Ok(())
}

/// Whether a path leads to a place below the folder in which it begins.
fn stays_below(path: &str) -> bool {
    path.split('/')
        .all(|part| part != "" && part != "." && part != "..")
}
