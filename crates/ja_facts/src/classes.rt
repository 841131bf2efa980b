ghost use Rattle.std.specs.Prelude.{◌≡◌, ◌<◌, [], length, slice_get, slice_index_or, IfOk};
ghost use Rattle.std.specs.Borrow.{sem};
ghost use Rattle.ja_facts.specs.ClassTables.{slot_set, thrown_set, param_set, result_set, out_set, field_set, bag_set, empty_classes};
ghost use Rattle.ja_facts.specs.Shared.{named_table, option_rows};

use crate::build::{param_sets, set_row, slot_names, thrown_names, token_count};
use crate::flat::FlatRows;
use crate::rows::{Rows, lend_listed_in, listed_in, option_named};
use ja_base::{FieldId, Memory, MethodId};
use ja_ir::{Program, Token};
use ja_sets::TokenSet;
use std::alloc::Global;
use std::marker::Model;

/// Which kinds of objects may be where: for each slot before an instruction, for what an instruction
/// throws, and for parameters, results, fields and bags, the set of tokens.
///
/// Before an instruction that the kinds do not reach there are no sets of slots, and above the stack
/// there are none either; they are read as the empty set.
///
/// The sets of slots and of what is thrown stand in a pool, in which equal sets can be one: each is
/// named by its place there.
#[derive(Drop)]
pub struct ClassSets {
    slots: Rows<FlatRows>,
    // For each instruction 0, or one more than the name of a set: each reached one that may throw has one.
    thrown: Rows<Rows<u32>>,
    pool: Rows<TokenSet>,
    params: Rows<Rows<TokenSet>>,
    results: Rows<TokenSet>,
    outs: Rows<TokenSet>,
    fields: Rows<TokenSet>,
    bags: Rows<TokenSet>,
    none: TokenSet,
}

impl Model for ClassSets {
    ghost use Rattle.ja_facts.specs.ClassTables.{ClassTable};
    ghost use Rattle.ja_facts.specs.Shared.{named_table, option_rows};

    ghost Value = { ClassTable };

    ghost view = { λ sets. record { slots = named_table sets.pool sets.none sets.slots; thrown = option_rows sets.pool sets.none sets.thrown; params = sets.params; results = sets.results; outs = sets.outs; fields = sets.fields; bags = sets.bags; none = sets.none } };
}

impl ClassSets {
    ghost use Rattle.ja_facts.specs.ClassLending.{LendsParam, LendsResult, LendsOut, LendsField, LendsBag};

    /// The sets of a program, all of them empty.
    pub fn new(alloc: Global, p: &Program) -> Result<ClassSets, Memory>
        ensures { IfOk result (λ sets. sets ≡ empty_classes p.now) }
    {
        let n = token_count(p);
        let slots = slot_names(alloc, p)?;
        let thrown = thrown_names(alloc, p)?;
        let pool = Rows::new(alloc);
        let params = param_sets(alloc, p, n)?;
        let results = set_row(alloc, p.methods().len(), n)?;
        let outs = set_row(alloc, p.methods().len(), n)?;
        let fields = set_row(alloc, p.fields().len(), n)?;
        let bags = set_row(alloc, n as u64, n)?;
        let none = TokenSet::new(alloc, n)?;
        Ok(ClassSets {
            slots,
            thrown,
            pool,
            params,
            results,
            outs,
            fields,
            bags,
            none,
        })
    }

    /// The set of slot `z` before instruction `i` of a method. The slots are the locals and then the
    /// values on the stack, from the bottom.
    pub fn slot(&self, m: MethodId, i: u32, z: u32) -> &TokenSet
        ensures { result.now ≡ slot_set self.now m.0 i z }
    {
        match name_in(&self.slots, m.0, i, z) {
            Some(name) => self.pool.at_or(name as u64, &self.none),
            None => &self.none,
        }
    }

    /// The set of what instruction `i` of a method throws.
    pub fn thrown(&self, m: MethodId, i: u32) -> &TokenSet
        ensures { result.now ≡ thrown_set self.now m.0 i }
    {
        option_named(&self.pool, *listed_in(&self.thrown, m.0, i, &0), &self.none)
    }

    /// The set of parameter `k` of a method, where a receiver is parameter 0.
    pub fn param(&self, m: MethodId, k: u32) -> &TokenSet
        ensures { result.now ≡ param_set self.now m.0 k }
    {
        listed_in(&self.params, m.0, k, &self.none)
    }

    /// The set of the results of a method.
    pub fn result(&self, m: MethodId) -> &TokenSet
        ensures { result.now ≡ result_set self.now m.0 }
    {
        self.results.at_or(m.0 as u64, &self.none)
    }

    /// The set of what a method throws out to its callers.
    pub fn out(&self, m: MethodId) -> &TokenSet
        ensures { result.now ≡ out_set self.now m.0 }
    {
        self.outs.at_or(m.0 as u64, &self.none)
    }

    /// The set of a field.
    pub fn field(&self, f: FieldId) -> &TokenSet
        ensures { result.now ≡ field_set self.now f.0 }
    {
        self.fields.at_or(f.0 as u64, &self.none)
    }

    /// The set of what is in the bags of the objects of a token.
    pub fn bag(&self, t: Token) -> &TokenSet
        ensures { result.now ≡ bag_set self.now t.0 }
    {
        self.bags.at_or(t.0 as u64, &self.none)
    }

    /// Takes the sets of slots and of what is thrown from a pool, in which they are named by their
    /// places: `slots` has the names of the slots before each instruction of each method, and `thrown`
    /// for each instruction one more than the name, or 0 where it throws nothing. A name without a set
    /// in the pool stands for the empty set.
    pub fn share(&mut self, slots: Rows<FlatRows>, thrown: Rows<Rows<u32>>, pool: Rows<TokenSet>)
        ensures { self.new ≡ record self.old { slots = named_table pool self.old.none slots; thrown = option_rows pool self.old.none thrown } }
    {
        self.slots = slots;
        self.thrown = thrown;
        self.pool = pool;
    }

    /// The set of a parameter, for writing.
    pub fn param_mut(&mut self, m: MethodId, k: u32) -> &mut TokenSet
        requires { k < length (slice_index_or self.old.params m.0 []) }
        ensures* writes_back { sem 𝓛 (LendsParam self.entry m.0 k result) }
        ensures value { result.now ≡ param_set self.old m.0 k }
    {
        lend_listed_in(&mut self.params, m.0, k)
    }

    /// The set of the results of a method, for writing.
    pub fn result_mut(&mut self, m: MethodId) -> &mut TokenSet
        requires { m.0 < length self.old.results }
        ensures* writes_back { sem 𝓛 (LendsResult self.entry m.0 result) }
        ensures value { result.now ≡ result_set self.old m.0 }
    {
        self.results.at_mut(m.0 as u64)
    }

    /// The set of what a method throws, for writing.
    pub fn out_mut(&mut self, m: MethodId) -> &mut TokenSet
        requires { m.0 < length self.old.outs }
        ensures* writes_back { sem 𝓛 (LendsOut self.entry m.0 result) }
        ensures value { result.now ≡ out_set self.old m.0 }
    {
        self.outs.at_mut(m.0 as u64)
    }

    /// The set of a field, for writing.
    pub fn field_mut(&mut self, f: FieldId) -> &mut TokenSet
        requires { f.0 < length self.old.fields }
        ensures* writes_back { sem 𝓛 (LendsField self.entry f.0 result) }
        ensures value { result.now ≡ field_set self.old f.0 }
    {
        self.fields.at_mut(f.0 as u64)
    }

    /// The set of the bags of a token, for writing.
    pub fn bag_mut(&mut self, t: Token) -> &mut TokenSet
        requires { t.0 < length self.old.bags }
        ensures* writes_back { sem 𝓛 (LendsBag self.entry t.0 result) }
        ensures value { result.now ≡ bag_set self.old t.0 }
    {
        self.bags.at_mut(t.0 as u64)
    }
}

// The name of a slot before an instruction of a method, if there is one.
fn name_in(slots: &Rows<FlatRows>, m: u32, i: u32, z: u32) -> Option<u32>
    ensures { result ≡ slice_get (slice_index_or (slice_index_or slots.now m []) i []) z }
{
    if (m as u64) < slots.len() {
        slots.at(m as u64).at(i as u64, z as u64)
    } else {
        None
    }
}
