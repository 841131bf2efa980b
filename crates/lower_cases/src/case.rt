//! One case.
use case_text::repeated;
use ja_base::{Memory, Refusal};
use ja_lib::{Table, TableFault, default_table, read_table};
use ja_lower::LowerFault;
use std::alloc::{AllocError, Global};
use std::thread::Threads;
use tool_parts::{ClassFolder, ListingFault, class_files, text_of, text_of_refusal};

/// More methods than there are: so all are one piece, for one thread.
const ONE_PIECE: usize = usize::MAX;

/// Each method is worth a thread: so there are as many pieces as there may be.
const MOST_PIECES: usize = 1;

/// The most lines of a program that are printed.
const MOST_LINES: usize = 1000;

/// Why there is nothing to lower.
#[derive(Drop)]
enum CaseFault {
    /// The table is refused.
    Refused(Refusal),
    /// The item of the listing with this number breaks the notation or cannot be written.
    Item(u64),
    /// The class of the listing at this place is written, and is not read back.
    Unread(u64),
    /// The listing is no UTF-8.
    Text,
    /// Memory ran out.
    Memory,
}

impl From<Memory> for CaseFault {
    fn from(_memory: Memory) -> CaseFault {
        CaseFault::Memory
    }
}

impl From<AllocError> for CaseFault {
    fn from(_error: AllocError) -> CaseFault {
        CaseFault::Memory
    }
}

impl From<ListingFault> for CaseFault {
    fn from(fault: ListingFault) -> CaseFault {
        match fault {
            ListingFault::Item { number } => CaseFault::Item(number),
            ListingFault::Unread { place } => CaseFault::Unread(place),
            ListingFault::Memory => CaseFault::Memory,
        }
    }
}

impl From<TableFault> for CaseFault {
    fn from(fault: TableFault) -> CaseFault {
        match fault {
            TableFault::Text => CaseFault::Refused(Refusal::TableText),
            TableFault::UnknownKey => CaseFault::Refused(Refusal::TableKey),
            TableFault::BadCategory => CaseFault::Refused(Refusal::TableCategory),
            TableFault::BadRow { row } => CaseFault::Refused(Refusal::TableRow { row }),
            TableFault::BadEntry { entry } => CaseFault::Refused(Refusal::TableEntry { entry }),
            TableFault::Memory => CaseFault::Memory,
        }
    }
}

/// What comes of a listing with a table, as lines: the text of the program, the line of the refusal, or `item`
/// or `unread` with a number where the listing makes no classes.
pub fn case_text<R: Threads + Sync>(
    rt: &R,
    alloc: Global,
    listing: &[u8],
    table: Option<&[u8]>,
) -> Result<String, Memory> {
    match lowered_text(rt, alloc, listing, table) {
        Ok(text) => Ok(text),
        Err(CaseFault::Refused(refusal)) => text_of_refusal(alloc, &refusal),
        Err(CaseFault::Item(number)) => Ok(format!(in alloc; "item {number}\n")?),
        Err(CaseFault::Unread(place)) => Ok(format!(in alloc; "unread {place}\n")?),
        Err(CaseFault::Text) => Ok(String::from_str(alloc, "no UTF-8\n")?),
        Err(CaseFault::Memory) => Err(Memory),
    }
}

/// What comes of lowering a listing's classes, as text.
fn lowered_text<R: Threads + Sync>(
    rt: &R,
    alloc: Global,
    listing: &[u8],
    table: Option<&[u8]>,
) -> Result<String, CaseFault> {
    let table = table_of(alloc, table)?;
    let listing = str::from_utf8(listing).map_err(|_| CaseFault::Text)?;
    let listing = repeated(alloc, listing)?;
    let files = class_files(alloc, listing.as_str().as_bytes())?;
    let folder = ClassFolder::new(alloc).with_files(alloc, files.as_slice())?;
    Ok(agreed_text(rt, alloc, &folder, &table)?)
}

/// The table that is given, or else the default table.
fn table_of(alloc: Global, table: Option<&[u8]>) -> Result<Table, CaseFault> {
    match table {
        Some(bytes) => Ok(read_table(alloc, bytes)?),
        None => Ok(default_table(alloc)?),
    }
}

/// What comes of a folder as text. It is lowered in pieces as `lower` makes them, in one piece and in many, and a
/// line says so where not the same comes of each.
fn agreed_text<R: Threads + Sync>(
    rt: &R,
    alloc: Global,
    folder: &ClassFolder,
    table: &Table,
) -> Result<String, Memory> {
    let text = outcome_text(rt, alloc, folder, table, None)?;
    for least in [ONE_PIECE, MOST_PIECES] {
        let other = outcome_text(rt, alloc, folder, table, Some(least))?;
        if other.as_str() != text.as_str() {
            return Ok(format!(in alloc; "differs in pieces of {least}\n")?);
        }
    }
    shortened(alloc, text)
}

/// The text of a folder's program, or the line of the refusal. A thread of its own lowers `least` methods or
/// more, where that is not left to `lower`.
fn outcome_text<R: Threads + Sync>(
    rt: &R,
    alloc: Global,
    folder: &ClassFolder,
    table: &Table,
    least: Option<usize>,
) -> Result<String, Memory> {
    let outcome = match least {
        None => folder.lower(rt, alloc, table),
        Some(least) => folder.lower_in_pieces(rt, alloc, table, least),
    };
    match outcome {
        Ok(program) => text_of(alloc, &program),
        Err(LowerFault::Refused(refusal)) => text_of_refusal(alloc, &refusal),
        Err(LowerFault::Memory) => Err(Memory),
    }
}

/// The number of lines that begin with a word.
fn count(text: &str, word: &str) -> usize {
    text.lines().filter(|line| line.starts_with(word)).count()
}

/// A text, or, where it is long, how many of its lines are of classes, methods and sink calls.
fn shortened(alloc: Global, text: String) -> Result<String, Memory> {
    let lines = text.as_str();
    if lines.lines().count() <= MOST_LINES {
        return Ok(text);
    }
    Ok(format!(in alloc;
        "lines of classes {} methods {} sites {}\n",
        count(lines, "class "),
        count(lines, "method "),
        count(lines, "site ")
    )?)
}
