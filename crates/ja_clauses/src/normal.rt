ghost use Rattle.std.specs.Prelude.{◌≡◌, ◌-◌, ◌+◌, ◌<◌, ◌≤◌, true, false, nat_lt, slice_index};
ghost use Rattle.std.specs.List.{All};
ghost use Rattle.ja_ir.specs.Operations.{FindsOperands, height_after, pops};
ghost use Rattle.ja_work.specs.Clauses as clauses;
ghost use Rattle.ja_work.specs.Ends as ends;
ghost use Rattle.ja_clauses.specs.Tables.{tests_by};

use crate::before::Before;
use crate::plain::{anything, at_most, moved, never};
use crate::rows::{answer, dirt_by};
use crate::slot::Slot;
use crate::stays::{changed, under};
use ja_base::Numbers;
use ja_ir::{Op, pops, pushes};
use ja_work::{Clause, Spot};

/// A local after the operation.
fn local_after(before: &Before, op: &Op, height: u32, local: u32) -> Clause
    requires { FindsOperands op.now height }
    ensures { result ≡ ends.local_after (tests_by before.now) op.now height local }
{
    match op {
        Op::Store(_, stored) if local == *stored => moved(Spot::OnStack(height.saturating_sub(1))),
        Op::Store(..) => moved(Spot::Local(local)),
        _ => changed(before, op, height, Slot::Local(local)),
    }
}

/// Which of the values that a shuffle popped it pushes at a place.
fn shuffled(pushes: &Numbers, place: u32) -> u64
    ensures { result ≡ slice_index pushes.now place }
{
    pushes.as_slice().get(place as usize).copied().unwrap_or(0)
}

/// The value that a shuffle pushes at a place.
fn shuffled_value(popped: u32, pushes: &Numbers, height: u32, place: u32) -> Clause
    requires popped { popped ≤ height }
    requires pushed { All (λ k. k < popped) pushes.now }
    ensures { result ≡ clauses.moved (Spot.OnStack (height - popped + slice_index pushes.now place)) }
{
    moved(Spot::OnStack(height - popped + shuffled(pushes, place) as u32))
}

/// The disjunction of so many values on the top of the stack.
fn mixed(popped: u32, height: u32) -> Clause
    ensures { result ≡ record { exact = true; always = false; one = None; first = height - popped; count = popped } }
{
    Clause {
        exact: true,
        always: false,
        one: None,
        first: height.saturating_sub(popped),
        count: popped,
    }
}

/// The value that the operation pushes over so many others that it pushes.
fn pushed(op: &Op, height: u32, place: u32) -> Clause
    requires { FindsOperands op.now height }
    ensures { result ≡ ends.pushed op.now height place }
{
    match op {
        Op::Load(_, local) => moved(Spot::Local(*local)),
        Op::Shuffle { pops, pushes } => shuffled_value(*pops, pushes, height, place),
        Op::Cast(_) => moved(Spot::OnStack(height.saturating_sub(1))),
        Op::Mix { pops, .. } => mixed(*pops, height),
        Op::GetField(_) => at_most(Spot::OnStack(height.saturating_sub(1))),
        Op::ArrLoad(_) => at_most(Spot::OnStack(height.saturating_sub(2))),
        Op::GetStatic(_) => anything(),
        Op::Call(call) => answer(call, under(call, height)),
        _ => never(),
    }
}

/// A value on the stack after the operation: one that was left, one that was pushed, or none.
fn stacked_after(before: &Before, op: &Op, height: u32, place: u32) -> Clause
    requires { FindsOperands op.now height }
    ensures { result ≡ ends.stacked_after (nat_lt place (height - pops op.now)) (nat_lt place (height_after op.now height)) (tests_by before.now) op.now height place }
{
    let left = (height as u64).saturating_sub(pops(op)) as u32;
    if place < left {
        return changed(before, op, height, Slot::OnStack(place));
    }
    if ((place - left) as u64) < pushes(op) {
        return pushed(op, height, place - left);
    }
    never()
}

/// Whether something tainted was stored.
pub fn dirt_after(op: &Op, height: u32) -> Clause
    requires { FindsOperands op.now height }
    ensures { result ≡ ends.dirt_after op.now height }
{
    match op {
        Op::PutField(_) | Op::ArrStore(_) => Clause {
            exact: true,
            always: false,
            one: Some(Spot::Dirt),
            first: height.saturating_sub(1),
            count: 1,
        },
        Op::Call(call) => dirt_by(call, under(call, height)),
        _ => moved(Spot::Dirt),
    }
}

/// What the normal end of an operation says of a spot, at a call that of its library part, with so many
/// values on the stack before it.
pub fn normal_clause(before: &Before, op: &Op, height: u32, spot: Spot) -> Clause
    requires { FindsOperands op.now height }
    ensures { result ≡ ends.normal_clauses (tests_by before.now) op.now height spot }
{
    match spot {
        Spot::Local(local) => local_after(before, op, height, local),
        Spot::OnStack(place) => stacked_after(before, op, height, place),
        Spot::Dirt => dirt_after(op, height),
        Spot::Exc => moved(Spot::Exc),
    }
}

/// Whether the operation has a normal end, at a call one of its library part.
pub fn may_go_on(before: &Before, op: &Op) -> bool
    ensures { result ≡ ends.may_go_on (tests_by before.now) op.now }
{
    match op {
        Op::Return(_) | Op::Throw => false,
        Op::Call(_) => before.is_library,
        _ => true,
    }
}
