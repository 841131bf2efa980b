ghost use Rattle.std.specs.Prelude.{IfOk};
ghost use Rattle.ja_class.specs.Runnable.{IsRunnable};
ghost use Rattle.ja_plain.specs.Verdict.{AreVerdicts};
ghost use Rattle.ja_plain.specs.Covers.{AreClean};

use crate::truths::Truths;
use ja_base::{Flags, Memory};
use ja_class::{FirstMethod, FirstOp};
use std::alloc::Global;

/// Solves the equations of taint for a method whose instructions find what they need.
///
/// The answer has one flag for each call of `demo/Taint.sink`, in the order of their offsets: whether text of
/// `demo/Taint.source` may reach it. Where a flag is false, no marked run passes that call a tainted value.
/// One pass over the instructions is exact, since the code has no branches.
pub fn solve_first(alloc: Global, m: &FirstMethod) -> Result<Flags, Memory>
    requires { IsRunnable m.now }
    ensures verdicts { IfOk result (λ flags. AreVerdicts m.now flags) }
    ensures clean { IfOk result (λ flags. AreClean m.now flags) }
{
    let mut frame = Truths::new(alloc, m.locals)?;
    let mut warned = Flags::new(alloc);
    for instr in m.code.as_slice() {
        if let FirstOp::Sink = instr.op {
            warned.push(frame.top())?;
        }
        frame.step(instr.op)?;
    }
    Ok(warned)
}
