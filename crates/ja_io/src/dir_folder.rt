ghost use Rattle.std.specs.Prelude.{◌≡◌, ◌≢◌, ◌+◌, ◌^◌, ◌<◌, ◌≤◌, IfOk, IfSome};
ghost use Rattle.ja_io.specs.Count.{one_more};
ghost use Rattle.ja_io.specs.Front.{IsFront};

use crate::name_text::text_of;
use crate::walk::names_below;
use crate::{Folder, FolderFail, Piece};
use ja_base::{Bytes, Name, Names};
use std::alloc::Global;
use std::fs::{self, File, Files};
use std::io::{self, ErrorKind, Read};
use std::marker::Model;

/// The real folder: a directory of the system.
///
/// It tells nothing of what it holds. Contracts see it as the numbers of its calls and of its faults.
#[derive(Drop)]
pub struct DirFolder<R: Files> {
    files: R,
    dir: Option<String>,
    calls: u64,
    faults: u64,
}

impl<R: Files> Model for DirFolder<R> {
    ghost use Rattle.ja_io.specs.Edge.{CallCounts};

    ghost Value = { CallCounts };

    ghost view = { λ f. record { calls = f.calls; faults = f.faults } };
}

impl<R: Files> DirFolder<R> {
    /// A folder over the runtime's files, which has no directory yet. It takes no memory.
    pub fn new(files: R) -> DirFolder<R>
        ensures { result ≡ record { calls = 0; faults = 0 } }
    {
        DirFolder {
            files,
            dir: None,
            calls: 0,
            faults: 0,
        }
    }
}

impl<R: Files + AllocGlobal + Clone + Drop> DirFolder<R> {
    // Finds a directory, which may be reached through symbolic links.
    fn directory(&self, alloc: Global, dir: &Name) -> io::Result<String> {
        let path = text_of(dir)?;
        if !fs::metadata(&self.files, path)?.is_dir() {
            return Err(io::Error::from(ErrorKind::NotADirectory));
        }
        Ok(String::from_str(alloc, path)?)
    }

    // The names of the files of the directory that was entered.
    fn names(&self, alloc: Global) -> io::Result<Names> {
        match &self.dir {
            Some(dir) => names_below(&self.files, alloc, dir.as_str()),
            None => Err(io::Error::from(ErrorKind::NotFound)),
        }
    }

    // The front of a file of the directory that was entered.
    fn front(&self, alloc: Global, name: &Name, most: u64) -> io::Result<Piece> {
        let Some(dir) = &self.dir else {
            return Err(io::Error::from(ErrorKind::NotFound));
        };
        let name = text_of(name)?;
        let path = format!(in alloc; "{dir}/{name}")?;
        front_of(alloc, File::open(&self.files, path.as_str())?, most)
    }

    // Counts a call with this outcome, and its fault where it failed for another reason than memory.
    fn counted<T: Drop>(&mut self, outcome: io::Result<T>) -> Result<T, FolderFail>
        ensures calls { self.new.calls ≡ one_more self.old.calls }
        ensures present { result ≢ Err FolderFail.Absent }
        ensures fault { result ≡ Err FolderFail.Fault → self.new.faults ≡ one_more self.old.faults }
        ensures quiet { result ≢ Err FolderFail.Fault → self.new.faults ≡ self.old.faults }
        ensures grows { self.old.faults ≤ self.new.faults }
    {
        self.calls = self.calls.saturating_add(1);
        match outcome {
            Ok(value) => Ok(value),
            Err(e) if e.kind() == ErrorKind::OutOfMemory => Err(FolderFail::Memory),
            Err(_) => {
                self.faults = self.faults.saturating_add(1);
                Err(FolderFail::Fault)
            }
        }
    }
}

impl<R: Files + AllocGlobal + Clone + Drop> Folder for DirFolder<R> {
    ghost use Rattle.std.specs.Prelude.{None};

    ghost told = { λ _. None };

    ghost faults = { λ f. f.faults };

    ghost calls = { λ f. f.calls };

    /// Fails where the directory is not there or is no directory.
    fn enter(&mut self, alloc: Global, dir: &Name) -> Result<(), FolderFail> {
        let found = self.directory(alloc, dir);
        self.dir = Some(self.counted(found)?);
        Ok(())
    }

    /// Walks through the directory and what is below it, and takes the regular files. It follows no symbolic
    /// link. It fails where a name is not UTF-8 or more than `MAX_ENTRIES` entries are met.
    fn list(&mut self, alloc: Global) -> Result<Names, FolderFail> {
        let names = self.names(alloc);
        self.counted(names)
    }

    /// Fails where the file is not there.
    fn read(&mut self, alloc: Global, name: &Name, most: u64) -> Result<Piece, FolderFail> {
        let piece = self.front(alloc, name, most);
        self.counted(piece)
    }
}

// The front of what a stream has left. One byte more than the piece is asked for, to see whether there is more.
fn front_of<S: Read + Drop>(alloc: Global, stream: S, most: u64) -> io::Result<Piece>
    ensures { most + 1 < 2 ^ 64 → IfOk result (λ piece. IfSome (S.remaining stream) (λ content. IsFront content most piece)) }
{
    let mut bytes = Vec::new(alloc);
    stream.take(most.saturating_add(1)).read_to_end(&mut bytes)?;
    let longer = bytes.len() as u64 > most;
    bytes.truncate(most as usize);
    Ok(Piece {
        bytes: Bytes::from_vec(bytes),
        longer,
    })
}
