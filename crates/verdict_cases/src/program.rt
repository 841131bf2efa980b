//! The programs of cases.
ghost use Rattle.std.specs.Prelude.{◌≡◌};
ghost use Rattle.ja_ir.specs.Categories.{count_of_names};

use case_text::repeated;
use ja_base::{File, Files, Memory, Name};
use ja_ir::Program;
use ja_lib::{Table, default_table, read_table};
use std::alloc::Global;
use std::thread::Threads;
use tool_parts::{ClassFolder, class_files, text_of};

/// The listings and the tables of the cases.
#[derive(Drop)]
pub struct Cases {
    pub listings: Files,
    pub tables: Files,
}

/// The bytes of the file that has the name of a case and this end, if there is one.
fn bytes_of<'a>(files: &'a [File], case: &str, end: &[u8]) -> Option<&'a [u8]> {
    files
        .iter()
        .find(|file| file.name.bytes().strip_suffix(end) == Some(case.as_bytes()))
        .map(|file| file.bytes.as_slice())
}

/// The table of a case, if it is one.
fn table_of(alloc: Global, tables: &[File], case: &str) -> Option<Table> {
    match bytes_of(tables, case, b".toml") {
        Some(bytes) => read_table(alloc, bytes).ok(),
        None => default_table(alloc).ok(),
    }
}

/// The class files of the listing of a case, if it makes some.
fn files_of(alloc: Global, listings: &[File], case: &str) -> Option<Files> {
    let bytes = bytes_of(listings, case, b".txt")?;
    let listing = repeated(alloc, str::from_utf8(bytes).ok()?).ok()?;
    class_files(alloc, listing.as_str().as_bytes()).ok()
}

/// The program of a case, if it makes one.
pub fn program_of<R: Threads + Sync>(
    rt: &R,
    alloc: Global,
    cases: &Cases,
    case: &str,
) -> Option<Program> {
    let files = files_of(alloc, cases.listings.as_slice(), case)?;
    let table = table_of(alloc, cases.tables.as_slice(), case)?;
    let folder = ClassFolder::new(alloc)
        .with_files(alloc, files.as_slice())
        .ok()?;
    folder.lower(rt, alloc, &table).ok()
}

/// The number of categories of marks that have these names.
fn count_of(names: &[Name]) -> u64
    ensures { result ≡ count_of_names names.now }
{
    match names {
        [] => 1,
        [_first, others @ ..] => others.len() as u64 + 1,
    }
}

/// The text of a program as a category of marks sees it.
pub fn projected_text(alloc: Global, program: &Program, category: u32) -> Result<String, Memory> {
    if u64::from(category) >= count_of(program.categories().as_slice()) {
        return Ok(String::from_str(alloc, "no category\n")?);
    }
    let projected = program.project(alloc, category)?;
    text_of(alloc, &projected)
}
