ghost use Rattle.std.specs.Prelude.{◌≡◌, ◌<◌, IfSome, length, slice_get};
ghost use Rattle.std.specs.List.{list_any};
ghost use Rattle.ja_work.specs.Told as told;

use crate::before::Before;
use crate::slot::{Slot, number_of};
use ja_base::MethodId;
use ja_facts::{Facts, Targets};
use ja_ir::{Methods, Program};
use ja_sets::PairSet;

/// Whether the pair of two numbers, where there are both, is in a set.
fn has_numbers(set: &PairSet, first: Option<u32>, second: Option<u32>) -> bool
    requires first { IfSome first (λ n. n < length set.now) }
    requires second { IfSome second (λ n. n < length set.now) }
    ensures { result ≡ told.has_numbers set.now first second }
{
    match (first, second) {
        (Some(first), Some(second)) => set.contains((first, second)),
        _ => false,
    }
}

/// Whether a method is there and has no code.
fn lacks_code(methods: &Methods, method: u64) -> bool
    ensures { result ≡ told.lacks_code (slice_get methods.now method) }
{
    match methods.as_slice().get(method as usize) {
        Some(method) => method.code.is_empty(),
        None => false,
    }
}

/// Whether some target lacks code.
fn is_abstract(methods: &Methods, targets: &Targets) -> bool
    ensures { result ≡ list_any (λ n. told.lacks_code (slice_get methods.now n)) targets.now.methods }
{
    targets
        .methods
        .as_slice()
        .iter()
        .any(|target| lacks_code(methods, *target))
}

impl<'a> Before<'a> {
    ghost use Rattle.std.specs.Prelude.{◌≡◌, ◌<◌, Some, length, slice_get};
    ghost use Rattle.ja_ir.specs.Lookup.{code_of};
    ghost use Rattle.ja_work.specs.Told.{tests_of, has_statics};
    ghost use Rattle.ja_clauses.specs.Slots.{as_slot};
    ghost use Rattle.ja_clauses.specs.Tables.{AreShaped, IsBefore, tests_by};

    /// What the tables have before instruction `i` of a method.
    pub fn of(program: &'a Program, facts: &'a Facts, m: MethodId, i: u32) -> Before<'a>
        requires shaped { AreShaped program.now facts.now }
        requires method { m.0 < length program.now.methods }
        requires index { i < length (code_of (slice_get program.now.methods m.0)) }
        ensures before { IsBefore program.now facts.now m.0 i result }
        ensures tests { tests_by result ≡ tests_of program.now facts.now m.0 i }
    {
        let methods = program.methods();
        let targets = facts.graph.targets(m, i);
        Before {
            method: methods.at(m.0 as u64),
            pairs: facts.pairs.at(m, i),
            reach: facts.reach.at(m, i),
            is_abstract: is_abstract(methods, targets),
            is_library: targets.library,
        }
    }

    /// Whether the first slot may reach the object in the second.
    pub fn reaches(&self, first: Slot, second: Slot) -> bool
        ensures { result ≡ (tests_by self.now).reaches (as_slot first) (as_slot second) }
    {
        let (first, second) = (
            number_of(self.method, first),
            number_of(self.method, second),
        );
        has_numbers(self.reach, first, second)
    }

    /// Whether both slots may share.
    pub fn shares(&self, first: Slot, second: Slot) -> bool
        ensures { result ≡ (tests_by self.now).shares (as_slot first) (as_slot second) }
    {
        let (first, second) = (
            number_of(self.method, first),
            number_of(self.method, second),
        );
        has_numbers(self.pairs, first, second)
    }

    /// Whether the slot and the static fields may share.
    pub fn shares_statics(&self, slot: Slot) -> bool
        ensures { result ≡ has_statics (Some self.now.method.now) self.now.pairs.now (as_slot slot) }
    {
        let statics = self.method.locals + self.method.stack + 2;
        has_numbers(self.pairs, number_of(self.method, slot), Some(statics))
    }
}
