//! Texts with parts that stand in them many times.
use std::alloc::{AllocError, Global};

/// A part of a text that stands for itself with each number of a range, and what comes behind it.
#[derive(Clone, Copy)]
struct Group<'a> {
    from: u64,
    to: u64,
    part: &'a str,
    behind: &'a str,
}

/// The group that begins behind a `{`, if one does.
fn group_of(text: &str) -> Option<Group<'_>> {
    let (inner, behind) = text.split_once('}')?;
    let (range, part) = inner.split_once(':')?;
    let (from, to) = range.split_once("..")?;
    Some(Group {
        from: from.parse::<u64>().ok()?,
        to: to.parse::<u64>().ok()?,
        part,
        behind,
    })
}

/// Adds a part, with a number for each `#` in it and the next one for each `%`.
fn add_numbered(out: &mut String, part: &str, number: u64) -> Result<(), AllocError> {
    for character in part.chars() {
        match character {
            '#' => write!(out, "{number}")?,
            '%' => write!(out, "{}", number.saturating_add(1))?,
            other => out.push(other)?,
        }
    }
    Ok(())
}

/// Adds a part for each number of its range, and what comes behind it.
fn add_group(out: &mut String, group: Group<'_>) -> Result<(), AllocError> {
    for number in group.from..group.to {
        add_numbered(out, group.part, number)?;
    }
    out.push_str(group.behind)
}

/// Adds what stands behind a `{`.
fn add_behind_brace(out: &mut String, text: &str) -> Result<(), AllocError> {
    match group_of(text) {
        Some(group) => add_group(out, group),
        None => {
            out.push('{')?;
            out.push_str(text)
        }
    }
}

/// A text in which `{FROM..TO:PART}` stands for PART with each number from FROM to before TO: a `#` in it is
/// that number, and a `%` the next one. PART has no `}`.
pub fn repeated(alloc: Global, text: &str) -> Result<String, AllocError> {
    let mut out = String::new(alloc);
    for (place, part) in text.split('{').enumerate() {
        if place == 0 {
            out.push_str(part)?;
        } else {
            add_behind_brace(&mut out, part)?;
        }
    }
    Ok(out)
}
