//! Texts about sink calls.
use crate::words::{flags_of, small_of};
use ja_base::{Bytes, Flags, Memory, SiteId};
use ja_ir::Program;
use ja_verdict::{line_of, report, status, total_report};
use std::alloc::Global;

/// Bytes as a text.
pub fn text_of_bytes(alloc: Global, bytes: Bytes) -> Result<String, Memory> {
    Ok(String::from_utf8_lossy(alloc, bytes.as_slice())?)
}

/// The text where there is not a flag for each sink call.
fn other_number(alloc: Global) -> Result<String, Memory> {
    Ok(String::from_str(alloc, "other number of sink calls\n")?)
}

/// The report on a program.
pub fn report_text(alloc: Global, program: &Program, word: &str) -> Result<String, Memory> {
    let flags = flags_of(alloc, word)?;
    if flags.len() != program.sites().len() {
        return other_number(alloc);
    }
    text_of_bytes(alloc, report(alloc, program, &flags)?)
}

/// The report on a program without the lines of its sink calls.
pub fn total_text(alloc: Global, program: &Program, word: &str) -> Result<String, Memory> {
    let flags = flags_of(alloc, word)?;
    if flags.len() != program.sites().len() {
        return other_number(alloc);
    }
    text_of_bytes(alloc, total_report(alloc, program, &flags)?)
}

/// The line of a sink call of a program.
pub fn line_text(
    alloc: Global,
    program: &Program,
    site: &str,
    flag: &str,
) -> Result<String, Memory> {
    let site = SiteId(small_of(site));
    if u64::from(site.0) >= program.sites().len() {
        return Ok(String::from_str(alloc, "no sink call\n")?);
    }
    text_of_bytes(alloc, line_of(alloc, program, site, flag == "w")?)
}

/// The status of a report with these flags.
pub fn status_text(alloc: Global, word: &str) -> Result<String, Memory> {
    let flags = flags_of(alloc, word)?;
    Ok(format!(in alloc; "{}\n", status(&flags))?)
}
