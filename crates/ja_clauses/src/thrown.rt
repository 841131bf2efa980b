ghost use Rattle.std.specs.Prelude.{◌≡◌, ◌-◌, ◌||◌, ◌≤◌};
ghost use Rattle.ja_ir.specs.Operations.{FindsOperands};
ghost use Rattle.ja_work.specs.Ends as ends;
ghost use Rattle.ja_clauses.specs.Inner.{early};
ghost use Rattle.ja_clauses.specs.Tables.{tests_by};

use crate::before::Before;
use crate::counts::may_throw;
use crate::normal::dirt_after;
use crate::plain::{moved, never};
use crate::rows::by_flow;
use crate::slot::Slot;
use crate::stays::{changed, under};
use ja_ir::{Op, has_receiver};
use ja_work::{Clause, Spot, Way};

/// Whether a call may end before it goes anywhere: by a null receiver, or at a method without code.
fn may_end_early(before: &Before, op: &Op) -> bool
    ensures { result ≡ (ends.has_null_end op.now || ends.may_call op.now (tests_by before.now).abstract) }
{
    match op {
        Op::Call(call) => has_receiver(call.kind) || before.is_abstract,
        _ => false,
    }
}

/// Whether the operation has an exceptional end of this way.
pub fn may_end(before: &Before, op: &Op, way: Way) -> bool
    ensures { result ≡ ends.may_end (tests_by before.now) op.now way }
{
    match way {
        Way::Clean => may_throw(op) || may_end_early(before, op),
        Way::Thrown => match op {
            Op::Throw => true,
            _ => false,
        },
        Way::InLibrary => match op {
            Op::Call(_) => before.is_library,
            _ => false,
        },
    }
}

/// A local after an exceptional end in the library.
fn library_local(before: &Before, op: &Op, height: u32, local: u32) -> Clause
    requires { FindsOperands op.now height }
    ensures { result ≡ ends.library_local (tests_by before.now) op.now height local }
{
    match op {
        Op::Call(_) => changed(before, op, height, Slot::Local(local)),
        _ => moved(Spot::Local(local)),
    }
}

/// Whether what is thrown in the library is tainted.
fn library_exc(op: &Op, height: u32) -> Clause
    requires { FindsOperands op.now height }
    ensures { result ≡ ends.library_exc op.now height }
{
    match op {
        Op::Call(call) => by_flow(call, under(call, height)),
        _ => never(),
    }
}

/// What an exceptional end in the library says of a spot.
fn library_clause(before: &Before, op: &Op, height: u32, spot: Spot) -> Clause
    requires { FindsOperands op.now height }
    ensures { result ≡ ends.exceptional_clauses Way.InLibrary (tests_by before.now) op.now height spot }
{
    match spot {
        Spot::Local(local) => library_local(before, op, height, local),
        Spot::OnStack(_) => never(),
        Spot::Dirt => dirt_after(op, height),
        Spot::Exc => library_exc(op, height),
    }
}

/// What an exceptional end before anything is done says of a spot: what is thrown is `exc`.
fn early_clause(spot: Spot, exc: Clause) -> Clause
    ensures { result ≡ early exc spot }
{
    match spot {
        Spot::Local(_) | Spot::Dirt => moved(spot),
        Spot::OnStack(_) => never(),
        Spot::Exc => exc,
    }
}

/// What an exceptional end of this way says of a spot, with so many values on the stack before it.
pub fn exceptional_clause(way: Way, before: &Before, op: &Op, height: u32, spot: Spot) -> Clause
    requires { FindsOperands op.now height }
    ensures { result ≡ ends.exceptional_clauses way (tests_by before.now) op.now height spot }
{
    match way {
        Way::Clean => early_clause(spot, never()),
        Way::Thrown => early_clause(spot, moved(Spot::OnStack(height.saturating_sub(1)))),
        Way::InLibrary => library_clause(before, op, height, spot),
    }
}
