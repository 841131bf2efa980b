//! One case.
use crate::tables::answer::add_answer;
use crate::tables::shown::FaultText;
use crate::tables::text::table_of;
use ja_base::Memory;
use ja_lib::{Table, TableFault, read_table};
use std::alloc::{AllocError, Global};

/// Adds what comes of a case, as lines. What stands behind `table` in its first line says whether it is one table,
/// or a table in each line.
pub fn add_case(out: &mut String, alloc: Global, case: &str) -> Result<(), Memory> {
    let (first, lines) = case.split_once('\n').unwrap_or((case, ""));
    match first.strip_prefix("s ") {
        Some(title) => {
            writeln!(out, "== {title}")?;
            add_tables(out, alloc, lines)
        }
        None => {
            writeln!(out, "== {}", first.trim_start())?;
            add_table(out, alloc, lines)
        }
    }
}

/// Adds what comes of the table in each line.
fn add_tables(out: &mut String, alloc: Global, tables: &str) -> Result<(), Memory> {
    for table in tables.lines() {
        if !table.is_empty() {
            let fault = read_table(alloc, table.as_bytes()).err();
            add_line(out, table, fault)?;
        }
    }
    Ok(())
}

/// Adds what came of a table of one line.
fn add_line(out: &mut String, table: &str, fault: Option<TableFault>) -> Result<(), AllocError> {
    writeln!(out, "{table} => {}", FaultText(fault))
}

/// Adds what came of the table in these lines, and the answers to the questions.
fn add_table(out: &mut String, alloc: Global, lines: &str) -> Result<(), Memory> {
    match table_of(alloc, lines) {
        Ok(table) => add_answers(out, alloc, &table, lines),
        Err(fault) => Ok(writeln!(out, "{}", FaultText(Some(fault)))?),
    }
}

/// Adds that a table was read, and the answers to the questions.
fn add_answers(out: &mut String, alloc: Global, table: &Table, lines: &str) -> Result<(), Memory> {
    writeln!(out, "read")?;
    for line in lines.lines() {
        if let Some(question) = line.strip_prefix("? ") {
            add_answer(out, alloc, table, question)?;
        }
    }
    Ok(())
}
