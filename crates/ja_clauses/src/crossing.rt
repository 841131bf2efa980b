ghost use Rattle.std.specs.Prelude.{◌≡◌, ◌^◌, ◌<◌, ◌&&◌, nat_lt, nat_eq};
ghost use Rattle.ja_ir.specs.Params as params;
ghost use Rattle.ja_work.specs.Ends as ends;
ghost use Rattle.ja_work.specs.Told as told;
ghost use Rattle.ja_clauses.specs.Slots.{as_slot, as_summary};
ghost use Rattle.ja_clauses.specs.Tables.{affected_by};

use crate::before::Before;
use crate::plain::{constant, moved, never};
use crate::slot::{Slot, spot_of};
use crate::summary::Summary;
use crate::through::Through;
use ja_base::MethodId;
use ja_facts::{Effects, Facts, param_count};
use ja_ir::{Method, Program};
use ja_work::{Clause, Spot};

/// Whether a method may change what a parameter reached.
fn changes_param(callee: &Method, effects: &Effects, n: MethodId, k: u32) -> bool
    ensures { result ≡ told.changes_param (Some callee.now) effects.now n.0 k }
{
    (k as u64) < param_count(callee) && effects.has(n, k)
}

/// Whether a method may change static fields, or what they reached.
fn changes_statics(callee: &Method, effects: &Effects, n: MethodId) -> bool
    requires { params.param_count callee.now < 2 ^ 32 }
    ensures { result ≡ told.changes_statics (Some callee.now) effects.now n.0 }
{
    effects.has(n, param_count(callee) as u32)
}

impl<'a> Through<'a> {
    ghost use Rattle.std.specs.Prelude.{◌≡◌, ◌+◌, ◌^◌, ◌<◌, ◌&&◌, length, slice_get};
    ghost use Rattle.ja_ir.specs.Lookup.{code_of};
    ghost use Rattle.ja_facts.specs.Slots as slots;
    ghost use Rattle.ja_facts.specs.Formulas.{any_below};
    ghost use Rattle.ja_work.specs.Told.{affected_of, changes_param};
    ghost use Rattle.ja_clauses.specs.Slots.{as_slot};
    ghost use Rattle.ja_clauses.specs.Tables.{AreShaped, IsThrough, tests_by, affected_by};

    /// The way through method `n` which instruction `i` of method `m` enters so.
    pub fn of(
        program: &'a Program,
        facts: &'a Facts,
        m: MethodId,
        i: u32,
        n: MethodId,
        count: u32,
        under: u32,
    ) -> Through<'a>
        requires shaped { AreShaped program.now facts.now }
        requires method { m.0 < length program.now.methods }
        requires index { i < length (code_of (slice_get program.now.methods m.0)) }
        requires callee { n.0 < length program.now.methods }
        requires fits { under + count < 2 ^ 32 }
        ensures through { IsThrough program.now facts.now m.0 i n.0 count under result }
        ensures affected { affected_by result ≡ affected_of program.now facts.now m.0 i n.0 count under }
    {
        Through {
            before: Before::of(program, facts, m, i),
            callee: program.methods().at(n.0 as u64),
            effects: &facts.effects,
            n,
            count,
            under,
        }
    }

    /// Whether the slot shares with the object of an argument which the method may change.
    fn affects_argument(&self, slot: Slot) -> bool
        ensures { result ≡ any_below (λ k. changes_param (Some self.now.callee.now) self.now.effects.now self.now.n.0 k && (tests_by self.now.before).shares (as_slot slot) (slots.argument self.now.under k)) self.now.count }
    {
        for k in 0..self.count {
            if changes_param(self.callee, self.effects, self.n, k)
                && self.before.shares(slot, Slot::OnStack(self.under + k))
            {
                return true;
            }
        }
        false
    }

    /// Whether the method may change the slot.
    pub fn affects(&self, slot: Slot) -> bool
        ensures { result ≡ affected_by self.now (as_slot slot) }
    {
        self.affects_argument(slot)
            || (changes_statics(self.callee, self.effects, self.n)
                && self.before.shares_statics(slot))
    }
}

/// A slot that stays where it is, after a method that may have stored something tainted.
fn affected_after(through: &Through, dirt: bool, slot: Slot) -> Clause
    ensures { result ≡ ends.affected_after (affected_by through.now) dirt (as_slot slot) }
{
    if through.affects(slot) {
        Clause {
            exact: false,
            always: dirt,
            one: Some(spot_of(slot)),
            first: 0,
            count: 0,
        }
    } else {
        moved(spot_of(slot))
    }
}

/// Whether something tainted was stored, after a method that may have done it.
fn dirt_with(dirt: bool) -> Clause
    ensures { result ≡ ends.dirt_with dirt }
{
    Clause {
        exact: true,
        always: dirt,
        one: Some(Spot::Dirt),
        first: 0,
        count: 0,
    }
}

/// A value on the stack after a method has returned: one that was left, its result, or none.
fn returned_stack(through: &Through, answers: bool, summary: Summary, place: u32) -> Clause
    ensures { result ≡ ends.returned_stack (nat_lt place through.now.under) (answers && nat_eq place through.now.under) (affected_by through.now) (as_summary summary) place }
{
    if place < through.under {
        return affected_after(through, summary.dirt, Slot::OnStack(place));
    }
    if answers && place == through.under {
        return constant(summary.result);
    }
    never()
}

/// What a way through a method that ended normally with this summary says of a spot.
pub fn return_clause(through: &Through, answers: bool, summary: Summary, spot: Spot) -> Clause
    ensures { result ≡ ends.return_clauses (affected_by through.now) through.now.under answers (as_summary summary) spot }
{
    match spot {
        Spot::Local(local) => affected_after(through, summary.dirt, Slot::Local(local)),
        Spot::OnStack(place) => returned_stack(through, answers, summary, place),
        Spot::Dirt => dirt_with(summary.dirt),
        Spot::Exc => moved(Spot::Exc),
    }
}

/// What a way through a method that ended by an exception with this summary says of a spot.
pub fn throw_clause(through: &Through, summary: Summary, spot: Spot) -> Clause
    ensures { result ≡ ends.throw_clauses (affected_by through.now) (as_summary summary) spot }
{
    match spot {
        Spot::Local(local) => affected_after(through, summary.dirt, Slot::Local(local)),
        Spot::OnStack(_) => never(),
        Spot::Dirt => dirt_with(summary.dirt),
        Spot::Exc => constant(summary.exc),
    }
}
