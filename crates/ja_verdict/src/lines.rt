//! The lines that are written where there is no report.
ghost use Rattle.std.specs.Prelude.{◌≡◌, IfOk};
ghost use Rattle.ja_verdict.specs.Lines.{full_text, usage_text};

use crate::print::{push_number, push_text};
use ja_base::{Bytes, Memory};
use std::alloc::Global;

/// The lines where the words of a call are wrong.
pub fn usage_lines(alloc: Global) -> Result<Bytes, Memory>
    ensures { IfOk result (λ text. text ≡ usage_text) }
{
    let mut out = Vec::new(alloc);
    push_text(
        &mut out,
        b"usage: julia_cli analyse DIR [--workers N] [--limit SLOTS] [--witness]\n",
    )?;
    push_text(
        &mut out,
        b"usage: julia_cli generate NUMBER CLASSES [--workers N]\n",
    )?;
    Ok(Bytes::from_vec(out))
}

/// The line where the table of nodes, which has as many slots as were allowed, is full.
pub fn full_line(alloc: Global, slots: u64) -> Result<Bytes, Memory>
    ensures { IfOk result (λ text. text ≡ full_text slots) }
{
    let mut out = Vec::new(alloc);
    push_text(&mut out, b"table full slots ")?;
    push_number(alloc, &mut out, slots)?;
    push_text(&mut out, b"\n")?;
    Ok(Bytes::from_vec(out))
}
