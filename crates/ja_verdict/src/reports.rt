//! Reports.
ghost use Rattle.std.specs.Prelude.{◌≡◌, ◌++◌, IfOk, OnOk, length};
ghost use Rattle.ja_facts.specs.Verdict.{clean_count, head_lines, report_text, site_lines, total_line, total_text, version_line, warned_count};
ghost use Rattle.ja_verdict.specs.Lines.{status_of};

use crate::print::{push_number, push_text};
use crate::site::push_site;
use ja_base::{Bytes, Flags, Memory, Name};
use ja_ir::{Parts, Program, Site};
use std::alloc::Global;

/// The first line, by the names of the categories of marks.
fn version(names: &[Name]) -> &'static [u8]
    ensures { result.now ≡ version_line names.now }
{
    if names.is_empty() {
        b"julia 1\n".as_slice()
    } else {
        b"julia 2\n".as_slice()
    }
}

/// Appends the lines before those of the sink calls.
fn push_head(alloc: Global, out: &mut Vec<u8>, parts: &Parts) -> Result<(), Memory>
    ensures { OnOk result (out.new.items ≡ out.old.items ++ head_lines parts.now) }
{
    push_text(out, version(parts.categories.as_slice()))?;
    push_text(out, b"classes ")?;
    push_number(alloc, out, parts.classes.len())?;
    push_text(out, b"\nentries ")?;
    push_number(alloc, out, parts.entries.len())?;
    push_text(out, b"\nsinks ")?;
    push_number(alloc, out, parts.sites.len())?;
    push_text(out, b"\n")
}

/// Appends the lines of sink calls, with a flag for each.
fn push_sites(
    alloc: Global,
    out: &mut Vec<u8>,
    parts: &Parts,
    sites: &[Site],
    warned: &[bool],
) -> Result<(), Memory>
    requires { length warned.now ≡ length sites.now }
    ensures { OnOk result (out.new.items ≡ out.old.items ++ site_lines parts.now sites.now warned.now) }
{
    for (at, site) in sites.iter().enumerate() {
        push_site(alloc, out, parts, site, warned[at])?;
    }
    Ok(())
}

/// How many flags are set.
fn count_warned(warned: &[bool]) -> usize
    ensures { result ≡ warned_count warned.now }
{
    warned.iter().filter(|flag| **flag).count()
}

/// The status of a report with these flags of its sink calls: 1 where some is warned, else 0. It takes no memory.
pub fn status(warned: &Flags) -> u8
    ensures { result ≡ status_of warned.now }
{
    if count_warned(warned.as_slice()) == 0 {
        0
    } else {
        1
    }
}

/// How many flags are not set.
fn count_clean(warned: &[bool]) -> usize
    ensures { result ≡ clean_count warned.now }
{
    warned.iter().filter(|flag| !**flag).count()
}

/// Appends the last line: how many sink calls are warned, and how many are clean.
fn push_total(alloc: Global, out: &mut Vec<u8>, warned: &[bool]) -> Result<(), Memory>
    ensures { OnOk result (out.new.items ≡ out.old.items ++ total_line warned.now) }
{
    push_text(out, b"total warned ")?;
    push_number(alloc, out, count_warned(warned) as u64)?;
    push_text(out, b" clean ")?;
    push_number(alloc, out, count_clean(warned) as u64)?;
    push_text(out, b"\n")?;
    Ok(())
}

/// The report on a program, with a flag for each of its sink calls.
pub fn report(alloc: Global, p: &Program, warned: &Flags) -> Result<Bytes, Memory>
    requires { length warned.now ≡ length p.now.sites }
    ensures { IfOk result (λ text. text ≡ report_text p.now warned.now) }
{
    let mut out = Vec::new(alloc);
    push_head(alloc, &mut out, p.parts())?;
    push_sites(
        alloc,
        &mut out,
        p.parts(),
        p.sites().as_slice(),
        warned.as_slice(),
    )?;
    push_total(alloc, &mut out, warned.as_slice())?;
    Ok(Bytes::from_vec(out))
}

/// The report on a program without the lines of its sink calls, with a flag for each.
pub fn total_report(alloc: Global, p: &Program, warned: &Flags) -> Result<Bytes, Memory>
    requires { length warned.now ≡ length p.now.sites }
    ensures { IfOk result (λ text. text ≡ total_text p.now warned.now) }
{
    let mut out = Vec::new(alloc);
    push_head(alloc, &mut out, p.parts())?;
    push_total(alloc, &mut out, warned.as_slice())?;
    Ok(Bytes::from_vec(out))
}
