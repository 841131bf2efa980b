//! Questions and their answers.
use crate::tables::shown::RowText;
use case_text::words_of;
use ja_base::{Flags, Memory, Name};
use ja_ir::LibRow;
use ja_lib::{EntryRow, Table};
use std::alloc::{AllocError, Global};

/// Adds the line of a question and its answer.
pub fn add_answer(
    out: &mut String,
    alloc: Global,
    table: &Table,
    question: &str,
) -> Result<(), Memory> {
    write!(out, "{question}: ")?;
    let words = words_of(alloc, question)?;
    add_of_words(out, alloc, table, words.as_slice())?;
    Ok(writeln!(out)?)
}

/// Adds the answer to a question.
fn add_of_words(
    out: &mut String,
    alloc: Global,
    table: &Table,
    words: &[&str],
) -> Result<(), Memory> {
    match words {
        ["row", class, method, desc] => {
            let row = row_of(alloc, table, class, method, desc)?;
            Ok(add_row(out, row)?)
        }
        ["marks", class, method, desc] => {
            let row = row_of(alloc, table, class, method, desc)?;
            Ok(add_marks(out, row)?)
        }
        words => add_of_table(out, alloc, table, words),
    }
}

/// Adds the answer to a question about the table.
fn add_of_table(
    out: &mut String,
    alloc: Global,
    table: &Table,
    words: &[&str],
) -> Result<(), Memory> {
    match words {
        ["categories"] => Ok(add_categories(out, table, &table.all_marks(alloc)?)?),
        ["entries"] => Ok(write!(out, "{}", table.entries().len())?),
        ["entry", place] => {
            let place = place.parse::<usize>().unwrap_or(usize::MAX);
            Ok(add_entry(out, table.entries().as_slice().get(place))?)
        }
        _ => Ok(write!(out, "no question")?),
    }
}

/// What the table says of a call, if it says something.
fn row_of<'a>(
    alloc: Global,
    table: &'a Table,
    class: &str,
    method: &str,
    desc: &str,
) -> Result<Option<&'a LibRow>, Memory> {
    let class = Name::of(alloc, class.as_bytes())?;
    let method = Name::of(alloc, method.as_bytes())?;
    let desc = Name::of(alloc, desc.as_bytes())?;
    Ok(table.row_of(&class, &method, &desc))
}

/// Adds a row.
fn add_row(out: &mut String, row: Option<&LibRow>) -> Result<(), AllocError> {
    match row {
        Some(row) => write!(out, "{}", RowText(row)),
        None => out.push_str("none"),
    }
}

/// Adds the marks that a call makes, as a flag for each category, and the category that its sinks are about.
fn add_marks(out: &mut String, row: Option<&LibRow>) -> Result<(), AllocError> {
    match row {
        Some(row) => write!(out, "{:?} category {}", row.marks.as_slice(), row.category),
        None => out.push_str("none"),
    }
}

/// Adds how many categories of marks there are, and their names.
fn add_categories(out: &mut String, table: &Table, all: &Flags) -> Result<(), AllocError> {
    write!(out, "{}", all.len())?;
    for name in table.categories().as_slice() {
        write!(out, " {}", text_of(name))?;
    }
    Ok(())
}

/// Adds an entry.
fn add_entry(out: &mut String, entry: Option<&EntryRow>) -> Result<(), AllocError> {
    let Some(entry) = entry else {
        return write!(out, "none");
    };
    let kind = if entry.is_static { "static " } else { "" };
    write!(
        out,
        "{kind}{} {} {} marked",
        text_of(&entry.class),
        text_of(&entry.method),
        text_of(&entry.desc)
    )?;
    for position in entry.marked.as_slice() {
        write!(out, " {position}")?;
    }
    Ok(())
}

/// The text of a name.
fn text_of(name: &Name) -> &str {
    str::from_utf8(name.bytes()).unwrap_or("?")
}
