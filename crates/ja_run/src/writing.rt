//! Writing, which takes no memory.
ghost use Rattle.std.specs.Prelude.{OnOk, OnErr};
ghost use Rattle.std.specs.Io.KnownBytes.{Appends};
ghost use Rattle.ja_base.specs.Cause.{Rose};
ghost use Rattle.ja_run.specs.Writing.{IsCut};

use ja_io::{Out, OutFault};

/// Writes a text whole, in as many pieces as the sink takes. A fault leaves a proper prefix written.
pub fn write_whole<O: Out>(out: &mut O, text: &[u8]) -> Result<(), OutFault>
    ensures whole { OnOk result (Appends (O.written out.old) (O.written out.new) text.now) }
    ensures cut { OnErr result (IsCut (O.written out.old) (O.written out.new) text.now) }
    ensures fault { OnErr result (Rose (O.faults out.old) (O.faults out.new)) }
{
    let mut at = 0;
    while at < text.len() {
        let taken = out.write(&text[at..])?;
        at += taken as usize;
    }
    Ok(())
}
