ghost use Rattle.std.specs.Prelude.{◌≡◌, ◌+◌, ◌-◌, ◌<◌, ◌≤◌, ◌++◌, flat_map, length, vec_len, OnOk, OnSome, IfOk};
ghost use Rattle.ja_io.specs.declared.walk.TheConstants.{MAX_ENTRIES};
ghost use Rattle.ja_io.specs.Walk.{directories_of, files_of};

use crate::name_text::text_of;
use ja_base::{Name, Names};
use std::alloc::{AllocError, Global};
use std::fs::{self, DirEntry, Files};
use std::io::{self, ErrorKind};

/// The most entries, of any kind, that a walk through a directory may meet.
pub const MAX_ENTRIES: u64 = 1_000_000;

/// What an entry of a directory is.
#[derive(Clone, Copy)]
pub(crate) enum EntryKind {
    Directory,
    File,
    /// Such as a symbolic link, which is passed over.
    Other,
}

/// An entry of a directory.
#[derive(Drop)]
pub(crate) struct Entry {
    name: Name,
    kind: EntryKind,
}

/// The names of all regular files below a directory. Symbolic links below it are passed over.
///
/// It fails where a directory cannot be read, a name is not UTF-8, or there are more than `MAX_ENTRIES`
/// entries.
pub fn names_below<R: Files + AllocGlobal + Clone + Drop>(
    files: &R,
    alloc: Global,
    root: &str,
) -> io::Result<Names> {
    let mut walk = Walk::new(alloc)?;
    while let Some(below) = walk.next_directory() {
        let path = format!(in alloc; "{root}/{}", text_of(&below)?)?;
        let entries = entries_of(files, alloc, path.as_str(), MAX_ENTRIES - walk.met)?;
        walk.meet_all(alloc, &below, entries.as_slice())?;
    }
    let Walk { names, .. } = walk;
    Ok(Names::from_vec(names))
}

// The entries of a directory. It fails where there are more than `most`.
fn entries_of<R: Files + AllocGlobal + Clone + Drop>(
    files: &R,
    alloc: Global,
    path: &str,
    most: u64,
) -> io::Result<Vec<Entry>>
    ensures { IfOk result (λ entries. vec_len entries ≤ most) }
{
    let mut entries = Vec::new(alloc);
    for entry in fs::read_dir(files, path)? {
        if entries.len() as u64 >= most {
            return Err(io::Error::from(ErrorKind::QuotaExceeded));
        }
        entries.push(entry_seen(alloc, &entry?)?)?;
    }
    Ok(entries)
}

// What is kept of an entry that the system tells of.
fn entry_seen<R: Files>(alloc: Global, entry: &DirEntry<R, Global>) -> io::Result<Entry> {
    let kind = entry.file_type()?;
    Ok(Entry {
        name: Name::of(alloc, entry.file_name().as_bytes()).map_err(|_| AllocError)?,
        kind: if kind.is_dir() {
            EntryKind::Directory
        } else if kind.is_file() {
            EntryKind::File
        } else {
            EntryKind::Other
        },
    })
}

// The path of an entry of the directory `below`, with this end.
fn path_of(alloc: Global, below: &Name, name: &Name, end: &[u8]) -> Result<Name, AllocError>
    ensures { IfOk result (λ path. path ≡ (below.now ++ name.now) ++ end.now) }
{
    let mut bytes = Vec::new(alloc);
    bytes.extend_from_slice(below.bytes())?;
    bytes.extend_from_slice(name.bytes())?;
    bytes.extend_from_slice(end)?;
    Ok(Name::from_vec(bytes))
}

// A walk that is under way. A directory that is still to be visited is given by its path below the
// root, with a slash at its end; the root itself is the empty text.
#[derive(Drop)]
struct Walk {
    names: Vec<Name>,
    pending: Vec<Name>,
    met: u64,
    ghost bounded: { met ≤ MAX_ENTRIES },
}

impl Walk {
    // The walk that is to begin at the root.
    fn new(alloc: Global) -> Result<Walk, AllocError> {
        let mut pending = Vec::new(alloc);
        pending.push(Name::from_vec(Vec::new(alloc)))?;
        Ok(Walk {
            names: Vec::new(alloc),
            pending,
            met: 0,
        })
    }

    // Takes a directory that is still to be visited.
    fn next_directory(&mut self) -> Option<Name>
        ensures left { OnSome result (vec_len self.new.pending + (MAX_ENTRIES - self.new.met) < vec_len self.old.pending + (MAX_ENTRIES - self.old.met)) }
    {
        self.pending.pop()
    }

    // Meets each entry of the directory `below`.
    fn meet_all(&mut self, alloc: Global, below: &Name, entries: &[Entry]) -> Result<(), AllocError>
        requires { length entries.now ≤ MAX_ENTRIES - self.old.met }
        ensures names { OnOk result (self.new.names.items ≡ self.old.names.items ++ flat_map (files_of below.now) entries.now) }
        ensures pending { OnOk result (self.new.pending.items ≡ self.old.pending.items ++ flat_map (directories_of below.now) entries.now) }
        ensures left { OnOk result (vec_len self.new.pending + (MAX_ENTRIES - self.new.met) ≤ vec_len self.old.pending + (MAX_ENTRIES - self.old.met)) }
    {
        for entry in entries {
            self.meet(alloc, below, entry)?;
        }
        Ok(())
    }

    // Counts an entry of the directory `below`, and keeps a directory for a later visit and a regular file's name.
    fn meet(&mut self, alloc: Global, below: &Name, entry: &Entry) -> Result<(), AllocError>
        requires { self.old.met < MAX_ENTRIES }
        ensures names { OnOk result (self.new.names.items ≡ self.old.names.items ++ files_of below.now entry.now) }
        ensures pending { OnOk result (self.new.pending.items ≡ self.old.pending.items ++ directories_of below.now entry.now) }
        ensures counted { self.new.met ≡ self.old.met + 1 }
    {
        self.met += 1;
        match entry.kind {
            EntryKind::Directory => self
                .pending
                .push(path_of(alloc, below, &entry.name, b"/")?)?,
            EntryKind::File => self.names.push(path_of(alloc, below, &entry.name, b"")?)?,
            EntryKind::Other => {}
        }
        Ok(())
    }
}
