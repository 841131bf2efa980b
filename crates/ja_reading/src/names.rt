//! Which files are read, and what the names of files alone say.
ghost use Rattle.std.specs.Prelude.{◌≡◌, ◌≢◌, List, None, IfOk, count_by, option_copied};
ghost use Rattle.std.specs.List.{find};
ghost use Rattle.ja_base.specs.declared.file.File.{File};
ghost use Rattle.ja_lower.specs.Folder.{is_archive, is_class_file, is_read, names_of};
ghost use Rattle.ja_reading.specs.Unread.{AreRefused, IsByName};

use ja_base::{MAX_CLASS_FILES, Memory, Name, Refusal};
use std::alloc::Global;

/// Whether a file of this name is a class file.
pub(crate) fn is_class_file(name: &Name) -> bool
    ensures { result ≡ is_class_file name.now }
{
    name.bytes().ends_with(b".class")
}

/// Whether a file of this name is an archive.
fn is_archive(name: &Name) -> bool
    ensures { result ≡ is_archive name.now }
{
    let bytes = name.bytes();
    bytes.ends_with(b".jar")
        || bytes.ends_with(b".war")
        || bytes.ends_with(b".ear")
        || bytes.ends_with(b".zip")
}

/// Whether a file of this name is read.
pub(crate) fn is_read(name: &Name) -> bool
    ensures { result ≡ is_read name.now }
{
    is_class_file(name) || name.bytes() == b"julia.toml".as_slice()
}

/// The first name of an archive, if there is one.
fn first_archive(names: &[Name]) -> Option<&Name>
    ensures { option_copied result ≡ find is_archive names.now }
{
    names.iter().find(|name| is_archive(name))
}

/// How many names are those of class files.
fn count_class_files(names: &[Name]) -> usize
    ensures { result ≡ count_by is_class_file names.now }
{
    names.iter().filter(|name| is_class_file(name)).count()
}

/// The refusal of a folder by the names of its files, which are in order, if they refuse it.
pub(crate) fn refusal_by_names(alloc: Global, names: &[Name]) -> Result<Option<Refusal>, Memory>
    ensures refusal { IfOk result (λ refusal. (files : List File) → names_of files ≡ names.now → IsByName files refusal) }
    ensures refused { IfOk result (λ refusal. AreRefused names.now → refusal ≢ None) }
{
    if let Some(name) = first_archive(names) {
        let file = name.copy(alloc)?;
        return Ok(Some(Refusal::Archive { file }));
    }
    let count = count_class_files(names) as u64;
    if count > MAX_CLASS_FILES {
        return Ok(Some(Refusal::TooManyFiles { count }));
    }
    Ok(None)
}
