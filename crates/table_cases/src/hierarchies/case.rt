//! One hierarchy with its questions.
use crate::hierarchies::answer::add_answer;
use crate::hierarchies::head::heads_of;
use case_text::words_of;
use ja_base::Memory;
use ja_hier::{Hier, HierFault, hierarchy, is_numbered};
use ja_ir::ClassHead;
use std::alloc::{AllocError, Global};

/// Adds the title of a case and what comes of it, as lines.
pub fn add_text(out: &mut String, alloc: Global, case: &str) -> Result<(), Memory> {
    let lines = lines_of(alloc, case)?;
    match lines.as_slice() {
        [title, lines @ ..] => add_titled(out, alloc, title, lines),
        [] => Ok(()),
    }
}

/// The lines of a case that are neither empty nor begin with `#`.
fn lines_of<'a>(alloc: Global, case: &'a str) -> Result<Vec<&'a str>, AllocError> {
    let mut lines = Vec::new(alloc);
    for line in case.lines() {
        if !line.is_empty() && !line.starts_with('#') {
            lines.push(line)?;
        }
    }
    Ok(lines)
}

/// Adds the title of a case and what comes of its other lines.
fn add_titled(out: &mut String, alloc: Global, title: &str, lines: &[&str]) -> Result<(), Memory> {
    writeln!(out, "== {title}")?;
    add_case(out, alloc, lines)
}

/// Adds what comes of the lines of a case.
fn add_case(out: &mut String, alloc: Global, lines: &[&str]) -> Result<(), Memory> {
    let heads = heads_of(alloc, lines)?;
    match hierarchy_of(alloc, heads.as_slice()) {
        Ok(hier) => add_answers(out, alloc, &hier, lines),
        Err(fault) => Ok(add_fault(out, fault)?),
    }
}

/// The hierarchy of the classes. Where they are too many for one, the answer is want of memory.
fn hierarchy_of(alloc: Global, heads: &[ClassHead]) -> Result<Hier, HierFault> {
    if !is_numbered(heads) {
        return Err(HierFault::Memory);
    }
    hierarchy(alloc, heads)
}

/// Adds the line of a fault.
fn add_fault(out: &mut String, fault: HierFault) -> Result<(), AllocError> {
    match fault {
        HierFault::PlatformClass { class } => writeln!(out, "platform class {class}"),
        HierFault::Duplicate { class } => writeln!(out, "duplicate class {class}"),
        HierFault::Cycle { class } => writeln!(out, "cycle class {class}"),
        HierFault::CrossPackage { class, method } => {
            writeln!(out, "cross package class {class} method {method}")
        }
        HierFault::Memory => out.push_str("out of memory\n"),
    }
}

/// Adds how many classes there are, and the lines `? ..` with their answers.
fn add_answers(out: &mut String, alloc: Global, hier: &Hier, lines: &[&str]) -> Result<(), Memory> {
    writeln!(out, "classes {}", hier.heads().len())?;
    for line in lines {
        add_line(out, alloc, hier, line)?;
    }
    Ok(())
}

/// Adds a line with its answer, if it is a question.
fn add_line(out: &mut String, alloc: Global, hier: &Hier, line: &str) -> Result<(), Memory> {
    match line.strip_prefix("? ") {
        Some(question) => add_question(out, alloc, hier, question),
        None => Ok(()),
    }
}

/// Adds a question with its answer, as a line.
fn add_question(
    out: &mut String,
    alloc: Global,
    hier: &Hier,
    question: &str,
) -> Result<(), Memory> {
    out.push_str(question)?;
    out.push(':')?;
    let words = words_of(alloc, question)?;
    add_answer(out, alloc, hier, words.as_slice())?;
    out.push('\n')?;
    Ok(())
}
