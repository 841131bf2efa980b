//! The texts that a run writes: the report, the refusal and the usage.
ghost use Rattle.std.specs.Prelude.{◌≡◌, ◌<◌, ◌++◌, length, OnOk, IfOk};
ghost use Rattle.ja_run.specs.Report.{empty_report, head, is_sink, line, report_of, sink_pcs, site_line, site_lines, status_of, total_line, unbuilt_line, usage_lines, verdict, warned_count};
ghost use Rattle.std.specs.Fmt.{decimal};
ghost use Rattle.ja_run.specs.Status.{number_of};

use crate::status::Status;
use crate::text::{push_name, push_number, push_text};
use ja_base::{Memory, Name};
use ja_class::{FirstCode, FirstMethod, FirstOp};
use std::alloc::Global;

/// Appends a line of a word and a number.
fn push_count(alloc: Global, out: &mut Vec<u8>, word: &[u8], count: u64) -> Result<(), Memory>
    ensures { OnOk result (out.new.items ≡ out.old.items ++ line (word.now ++ decimal count)) }
{
    push_text(out, word)?;
    push_number(alloc, out, count)?;
    push_text(out, b"\n")
}

/// Appends the lines before those of the sink calls.
fn push_head(
    alloc: Global,
    out: &mut Vec<u8>,
    classes: u64,
    entries: u64,
    sinks: u64,
) -> Result<(), Memory>
    ensures { OnOk result (out.new.items ≡ out.old.items ++ head classes entries sinks) }
{
    push_text(out, b"julia 1\n")?;
    push_count(alloc, out, b"classes ", classes)?;
    push_count(alloc, out, b"entries ", entries)?;
    push_count(alloc, out, b"sinks ", sinks)
}

/// Appends the line of a sink call at an offset in `main` of a class.
#[tactic(auto, using(std::proofs::Common::append_assoc))]
fn push_site(
    alloc: Global,
    out: &mut Vec<u8>,
    class: &Name,
    warned: bool,
    pc: u32,
) -> Result<(), Memory>
    ensures { OnOk result (out.new.items ≡ out.old.items ++ site_line class.now warned pc) }
{
    push_text(out, verdict_word(warned))?;
    push_name(out, class.bytes())?;
    push_text(out, b".main([Ljava/lang/String;)V ")?;
    push_number(alloc, out, u64::from(pc))?;
    push_text(out, b" demo/Taint.sink(Ljava/lang/String;)V\n")?;
    Ok(())
}

/// The first word of a sink call's line, with the blank after it.
fn verdict_word(warned: bool) -> &'static [u8]
    ensures { result.now ≡ verdict warned }
{
    if warned {
        b"warned ".as_slice()
    } else {
        b"clean ".as_slice()
    }
}

/// Appends the lines of the sink calls at these offsets, with a flag for each.
#[tactic(auto, using(std::proofs::Common::append_assoc))]
fn push_sites(
    alloc: Global,
    out: &mut Vec<u8>,
    class: &Name,
    pcs: &[u32],
    warned: &[bool],
) -> Result<(), Memory>
    requires { length pcs.now ≡ length warned.now }
    ensures { OnOk result (out.new.items ≡ out.old.items ++ site_lines class.now pcs.now warned.now) }
{
    for (at, pc) in pcs.iter().enumerate() {
        push_site(alloc, out, class, warned[at], *pc)?;
    }
    Ok(())
}

/// How many flags are set.
fn count_warned(warned: &[bool]) -> usize
    ensures { result ≡ warned_count warned.now }
{
    warned.iter().filter(|flag| **flag).count()
}

/// Appends the last line: how many sink calls are warned, and how many are clean.
#[tactic(auto, using(std::proofs::Common::append_assoc))]
fn push_total(alloc: Global, out: &mut Vec<u8>, warned: &[bool]) -> Result<(), Memory>
    ensures { OnOk result (out.new.items ≡ out.old.items ++ total_line warned.now) }
{
    let count = count_warned(warned);
    push_text(out, b"total warned ")?;
    push_number(alloc, out, count as u64)?;
    push_text(out, b" clean ")?;
    push_number(alloc, out, (warned.len() - count) as u64)?;
    push_text(out, b"\n")?;
    Ok(())
}

/// Whether an operation is a sink call.
fn is_sink_call(op: FirstOp) -> bool
    ensures { result ≡ is_sink op }
{
    match op {
        FirstOp::Sink => true,
        FirstOp::Load(_)
        | FirstOp::Store(_)
        | FirstOp::Text
        | FirstOp::Pop
        | FirstOp::Source
        | FirstOp::Return => false,
    }
}

/// The offsets of the sink calls, in order.
fn pcs_of_sinks(alloc: Global, code: &FirstCode) -> Result<Vec<u32>, Memory>
    ensures { IfOk result (λ pcs. pcs.items ≡ sink_pcs code.now) }
{
    let pcs = code
        .as_slice()
        .iter()
        .filter(|i| is_sink_call(i.op))
        .map(|i| i.pc)
        .collect(alloc)?;
    Ok(pcs)
}

/// The report on a folder without files.
pub fn report_without_files(alloc: Global) -> Result<Vec<u8>, Memory>
    ensures { IfOk result (λ text. text.items ≡ empty_report) }
{
    let mut text = Vec::new(alloc);
    push_head(alloc, &mut text, 0, 0, 0)?;
    push_total(alloc, &mut text, &[])?;
    Ok(text)
}

/// The report on a folder whose one class has this method, with a flag for each sink call.
pub fn report_on_method(
    alloc: Global,
    method: &FirstMethod,
    warned: &[bool],
) -> Result<Vec<u8>, Memory>
    requires { length warned.now ≡ length (sink_pcs method.now.code) }
    ensures { IfOk result (λ text. text.items ≡ report_of method.now warned.now) }
{
    let pcs = pcs_of_sinks(alloc, &method.code)?;
    let mut text = Vec::new(alloc);
    push_head(alloc, &mut text, 1, 1, warned.len() as u64)?;
    push_sites(alloc, &mut text, &method.class, pcs.as_slice(), warned)?;
    push_total(alloc, &mut text, warned)?;
    Ok(text)
}

/// The status of a report: whether some sink call is warned.
pub fn report_status(warned: &[bool]) -> Status
    ensures { number_of result ≡ status_of warned.now }
{
    if count_warned(warned) == 0 {
        Status::Clean
    } else {
        Status::Warned
    }
}

/// The line of the refusal that names a file which is not in the first form.
pub fn unbuilt_text(alloc: Global, file: &Name) -> Result<Vec<u8>, Memory>
    ensures { IfOk result (λ text. text.items ≡ unbuilt_line file.now) }
{
    let mut text = Vec::new(alloc);
    push_text(&mut text, b"refused 1 Unbuilt ")?;
    push_name(&mut text, file.bytes())?;
    push_text(&mut text, b"\n")?;
    Ok(text)
}

/// The lines where the words are wrong.
pub fn usage_text(alloc: Global) -> Result<Vec<u8>, Memory>
    ensures { IfOk result (λ text. text.items ≡ usage_lines) }
{
    let mut text = Vec::new(alloc);
    push_text(
        &mut text,
        b"usage: julia_cli analyse DIR [--workers N] [--limit SLOTS] [--witness]\n",
    )?;
    push_text(
        &mut text,
        b"usage: julia_cli generate NUMBER CLASSES [--workers N]\n",
    )?;
    Ok(text)
}
