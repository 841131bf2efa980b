ghost use Rattle.std.specs.Prelude.{◌≡◌, ◌+◌, ◌-◌, ◌^◌, ◌<◌, ◌≤◌, true, false, if◌then◌else◌};
ghost use Rattle.ja_ir.specs.Operations.{arguments, pops};
ghost use Rattle.ja_facts.specs.Slots as slots;
ghost use Rattle.ja_facts.specs.Formulas.{any_below};
ghost use Rattle.ja_work.specs.Clauses as clauses;
ghost use Rattle.ja_work.specs.Ends as ends;
ghost use Rattle.ja_clauses.specs.Slots.{as_slot};
ghost use Rattle.ja_clauses.specs.Tables.{tests_by};

use crate::before::Before;
use crate::counts::argument_count;
use crate::plain::moved;
use crate::rows::taking;
use crate::slot::{Slot, spot_of};
use ja_ir::{CallOp, Op, RowEffect, has_receiver};
use ja_work::Clause;

/// Whether a slot shares with one of so many arguments, which lie over so many values.
fn shares_any(before: &Before, slot: Slot, under: u32, count: u32) -> bool
    requires { under + count < 2 ^ 32 }
    ensures { result ≡ any_below (λ k. (tests_by before.now).shares (as_slot slot) (slots.argument under k)) count }
{
    for k in 0..count {
        if before.shares(slot, Slot::OnStack(under + k)) {
            return true;
        }
    }
    false
}

/// Whether a slot shares with a source of a library call, whose arguments lie over so many values.
fn meets(before: &Before, call: &CallOp, under: u32, slot: Slot) -> bool
    requires { under + arguments call.now < 2 ^ 32 }
    ensures { result ≡ ends.meets_by call.now.row.effect (tests_by before.now) call.now under (as_slot slot) }
{
    match call.row.effect {
        RowEffect::Quiet => false,
        RowEffect::Absorb => has_receiver(call.kind) && before.shares(slot, Slot::OnStack(under)),
        RowEffect::Blend => shares_any(before, slot, under, argument_count(call)),
    }
}

/// A slot that stays over a write to the object that lies so many values below the top: it may become
/// true by the topmost value where it may reach that object.
fn written(before: &Before, height: u32, back: u32, slot: Slot) -> Clause
    ensures { result ≡ (if (tests_by before.now).reaches (as_slot slot) (slots.OnStack (height - back)) then (record { exact = false; always = false; one = Some (clauses.spot_of (as_slot slot)); first = height - 1; count = 1 }) else clauses.moved (clauses.spot_of (as_slot slot))) }
{
    if before.reaches(slot, Slot::OnStack(height.saturating_sub(back))) {
        Clause {
            exact: false,
            always: false,
            one: Some(spot_of(slot)),
            first: height.saturating_sub(1),
            count: 1,
        }
    } else {
        moved(spot_of(slot))
    }
}

/// A slot that stays over a library call: it may become true by its effect where it shares with what
/// that changes.
fn absorbed(before: &Before, call: &CallOp, under: u32, slot: Slot) -> Clause
    requires { under + arguments call.now < 2 ^ 32 }
    ensures { result ≡ (if ends.meets_by call.now.row.effect (tests_by before.now) call.now under (as_slot slot) then ends.taking false call.now under (clauses.spot_of (as_slot slot)) else clauses.moved (clauses.spot_of (as_slot slot))) }
{
    if meets(before, call, under, slot) {
        taking(false, call, under, spot_of(slot))
    } else {
        moved(spot_of(slot))
    }
}

/// The number of values under the arguments of a call.
pub fn under(call: &CallOp, height: u32) -> u32
    requires { arguments call.now ≤ height }
    ensures { result ≡ height - arguments call.now }
{
    height - argument_count(call)
}

/// A slot that an operation leaves where it is: it may become true by a write to an object that it may
/// reach, and by the effect of a library call on what it shares.
pub fn changed(before: &Before, op: &Op, height: u32, slot: Slot) -> Clause
    requires { pops op.now ≤ height }
    ensures { result ≡ ends.changed (tests_by before.now) op.now height (as_slot slot) }
{
    match op {
        Op::PutField(_) => written(before, height, 2, slot),
        Op::ArrStore(_) => written(before, height, 3, slot),
        Op::Call(call) => absorbed(before, call, under(call, height), slot),
        _ => moved(spot_of(slot)),
    }
}
