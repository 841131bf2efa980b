ghost use Rattle.std.specs.Prelude.{◌≡◌, ◌≢◌, ◌↔◌, ◌≤◌, Contains, All, Any, IfOk, IfErr, OnOk, IsTrue, IsFalse};
ghost use Rattle.std.specs.Bool.{OnTrue, OnFalse};
ghost use Rattle.ja_io.specs.Contents.{names_of, HasDistinctNames};
ghost use Rattle.ja_io.specs.Front.{IsFront};
ghost use Rattle.ja_io.specs.MemFolder.{next_fails, after_call};

use crate::{Folder, FolderFail, Piece};
use ja_base::{Bytes, File, Files, Memory, Name, Names, Numbers};
use std::alloc::Global;
use std::marker::Model;

/// A folder in memory, some of whose calls fail.
///
/// Its calls of all kinds are numbered from 1, as far as a counter of 64 bits goes.
#[derive(Drop)]
pub struct MemFolder {
    dir: Name,
    files: Files,
    fails: Numbers,
    calls: u64,
    faults: u64,
}

impl Model for MemFolder {
    ghost use Rattle.ja_io.specs.Contents.{HasDistinctNames};
    ghost use Rattle.ja_io.specs.MemFolder.{FolderState};

    ghost Value = { FolderState };

    ghost view = { λ f. record { dir = f.dir; files = f.files; fails = f.fails; calls = f.calls; faults = f.faults } };

    ghost invariant = { λ f. HasDistinctNames f.files };
}

impl MemFolder {
    /// A folder with this directory and these files, whose names are distinct (`has_distinct_names` tests
    /// it). The calls whose numbers are in `fails` fail. It takes no memory.
    pub fn new(dir: Name, files: Files, fails: Numbers) -> MemFolder
        requires { HasDistinctNames files }
        ensures { result ≡ record { dir = dir; files = files; fails = fails; calls = 0; faults = 0 } }
    {
        MemFolder {
            dir,
            files,
            fails,
            calls: 0,
            faults: 0,
        }
    }

    /// The number of calls that failed, as far as the counter goes. It takes no memory.
    pub fn faults(&self) -> u64
        ensures { result ≡ self.now.faults }
    {
        self.faults
    }

    // Counts a call. It fails where the call's number is to fail, and then counts a fault too.
    fn count_call(&mut self) -> Result<(), FolderFail>
        ensures passes { OnOk result (IsFalse (next_fails self.old)) }
        ensures fails { IfErr result (λ fail. (fail ≡ FolderFail.Fault) × IsTrue (next_fails self.old)) }
        ensures after { self.new ≡ after_call self.old }
        ensures grows { self.old.faults ≤ self.new.faults }
        ensures distinct { HasDistinctNames self.new.files }
    {
        self.calls = self.calls.saturating_add(1);
        if self.fails.as_slice().contains(&self.calls) {
            self.faults = self.faults.saturating_add(1);
            return Err(FolderFail::Fault);
        }
        Ok(())
    }
}

impl Folder for MemFolder {
    ghost use Rattle.std.specs.Prelude.{Some};

    ghost told = { λ f. Some (record { dir = f.dir; files = f.files }) };

    ghost faults = { λ f. f.faults };

    ghost calls = { λ f. f.calls };

    /// Fails where the call's number is to fail. Else `Absent` says that the directory has another name.
    fn enter(&mut self, _alloc: Global, dir: &Name) -> Result<(), FolderFail>
        ensures fault { (result ≡ Err FolderFail.Fault) ↔ IsTrue (next_fails self.old) }
        ensures absent { (result ≡ Err FolderFail.Absent) ↔ (IsFalse (next_fails self.old) × (self.old.dir ≢ dir.now)) }
        ensures memory { result ≢ Err FolderFail.Memory }
        ensures after { self.new ≡ after_call self.old }
        ensures grows { self.old.faults ≤ self.new.faults }
        ensures distinct { HasDistinctNames self.new.files }
    {
        self.count_call()?;
        if self.dir != *dir {
            return Err(FolderFail::Absent);
        }
        Ok(())
    }

    /// Fails exactly where the call's number is to fail, but for memory. The names come in the files' order.
    fn list(&mut self, alloc: Global) -> Result<Names, FolderFail>
        ensures names { IfOk result (λ names. names ≡ names_of self.old.files) }
        ensures fault { (result ≡ Err FolderFail.Fault) ↔ IsTrue (next_fails self.old) }
        ensures present { result ≢ Err FolderFail.Absent }
        ensures after { self.new ≡ after_call self.old }
        ensures grows { self.old.faults ≤ self.new.faults }
        ensures distinct { HasDistinctNames self.new.files }
    {
        self.count_call()?;
        match copy_names(alloc, self.files.as_slice()) {
            Ok(names) => Ok(names),
            Err(Memory) => Err(FolderFail::Memory),
        }
    }

    /// Fails exactly where the call's number is to fail, but for memory.
    fn read(&mut self, alloc: Global, name: &Name, most: u64) -> Result<Piece, FolderFail>
        requires { Contains (names_of self.old.files) name.now }
        ensures front { IfOk result (λ piece. All (λ file. file.name ≡ name.now → IsFront file.bytes most piece) self.old.files) }
        ensures fault { (result ≡ Err FolderFail.Fault) ↔ IsTrue (next_fails self.old) }
        ensures present { result ≢ Err FolderFail.Absent }
        ensures after { self.new ≡ after_call self.old }
        ensures grows { self.old.faults ≤ self.new.faults }
        ensures distinct { HasDistinctNames self.new.files }
    {
        self.count_call()?;
        let file = file_named(self.files.as_slice(), name);
        match front_of(alloc, file.bytes.as_slice(), most) {
            Ok(piece) => Ok(piece),
            Err(Memory) => Err(FolderFail::Memory),
        }
    }
}

/// Whether no two files have one name. It compares each two files, and takes no memory.
pub fn has_distinct_names(files: &[File]) -> bool
    ensures { IsTrue result ↔ HasDistinctNames files.now }
{
    for (i, file) in files.iter().enumerate() {
        if has_file(&files[i + 1..], &file.name) {
            return false;
        }
    }
    true
}

// Whether a file of this name is there.
fn has_file(files: &[File], name: &Name) -> bool
    ensures yes { OnTrue result (Any (λ file. file.name ≡ name.now) files.now) }
    ensures no { OnFalse result (All (λ file. file.name ≢ name.now) files.now) }
{
    for file in files {
        if file.name == *name {
            return true;
        }
    }
    false
}

// Copies of the files' names, in order.
fn copy_names(alloc: Global, files: &[File]) -> Result<Names, Memory>
    ensures { IfOk result (λ names. names ≡ names_of files.now) }
{
    let mut names = Names::new(alloc);
    for file in files {
        names.push(file.name.copy(alloc)?)?;
    }
    Ok(names)
}

// The file of this name, which is there.
fn file_named<'a>(files: &'a [File], name: &Name) -> &'a File
    requires distinct { HasDistinctNames files.now }
    requires there { Contains (names_of files.now) name.now }
    ensures { All (λ file. file.name ≡ name.now → file ≡ result.now) files.now }
{
    for file in files {
        if file.name == *name {
            return file;
        }
    }
    unreachable!()
}

// The first `most` bytes of a content, and whether there are more.
fn front_of(alloc: Global, content: &[u8], most: u64) -> Result<Piece, Memory>
    ensures { IfOk result (IsFront content.now most) }
{
    let longer = most < content.len() as u64;
    let front = if longer {
        &content[..most as usize]
    } else {
        content
    };
    let bytes = Bytes::from_vec(Vec::from_slice(alloc, front)?);
    Ok(Piece { bytes, longer })
}
