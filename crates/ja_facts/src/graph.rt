ghost use Rattle.std.specs.Prelude.{◌≡◌, ◌<◌, ◌↔◌, [], false, true, length, map, replicate, slice_index_or, IfOk, IsTrue};
ghost use Rattle.ja_ir.specs.declared.method.Method.{Method};
ghost use Rattle.ja_facts.specs.FactTables.{is_reached, targets_at, takers_at, calls_of, no_targets, empty_graph};
ghost use Rattle.ja_facts.specs.Listing.{with_listed_in};
ghost use Rattle.ja_facts.specs.Shared.{option_rows, zero_calls_of};

use crate::build::{flag_row, token_count};
use crate::rows::{Rows, lend_listed_in, listed_in, option_named};
use crate::targets::Targets;
use ja_base::{Memory, MethodId};
use ja_ir::{Method, Op, Program};
use ja_sets::TokenSet;
use std::alloc::Global;
use std::marker::Model;

/// Which instructions may run, where calls may go, and which objects may take the arguments of calls
/// of the library.
///
/// Only calls have targets and takers; those of another instruction are read as none. They stand in
/// pools, in which equal ones can be one.
#[derive(Drop)]
pub struct CallGraph {
    reached: Rows<Rows<bool>>,
    // For each instruction 0, or one more than the place in the pool: each call has one.
    targets: Rows<Rows<u32>>,
    target_pool: Rows<Targets>,
    takers: Rows<Rows<u32>>,
    taker_pool: Rows<TokenSet>,
    nowhere: Targets,
    none: TokenSet,
}

impl Model for CallGraph {
    ghost use Rattle.std.specs.Prelude.{◌≡◌};
    ghost use Rattle.ja_facts.specs.FactTables.{GraphTable, no_targets};
    ghost use Rattle.ja_facts.specs.Shared.{option_rows};

    ghost Value = { GraphTable };

    ghost view = { λ graph. record { reached = graph.reached; targets = option_rows graph.target_pool graph.nowhere graph.targets; takers = option_rows graph.taker_pool graph.none graph.takers; none = graph.none } };

    ghost invariant = { λ graph. graph.nowhere ≡ no_targets };
}

impl CallGraph {
    /// The graph of a program in which nothing is reached and no call goes anywhere.
    pub fn new(alloc: Global, p: &Program) -> Result<CallGraph, Memory>
        ensures { IfOk result (λ graph. graph ≡ empty_graph p.now) }
    {
        let n = token_count(p);
        let reached = reached_flags(alloc, p)?;
        let targets = call_names(alloc, p)?;
        let takers = call_names(alloc, p)?;
        let none = TokenSet::new(alloc, n)?;
        Ok(CallGraph {
            reached,
            targets,
            target_pool: Rows::new(alloc),
            takers,
            taker_pool: Rows::new(alloc),
            nowhere: Targets::new(alloc),
            none,
        })
    }

    /// Whether instruction `i` of a method may run.
    pub fn reached(&self, m: MethodId, i: u32) -> bool
        ensures { result ≡ is_reached self.now m.0 i }
    {
        *listed_in(&self.reached, m.0, i, &false)
    }

    /// Says that instruction `i` of a method may run, and tells whether that is new.
    pub fn add(&mut self, m: MethodId, i: u32) -> bool
        requires { i < length (slice_index_or self.old.reached m.0 []) }
        ensures added { self.new ≡ record self.old { reached = with_listed_in self.old.reached m.0 i true } }
        ensures changed { IsTrue result ↔ (is_reached self.old m.0 i ≡ false) }
    {
        let was = self.reached(m, i);
        *lend_listed_in(&mut self.reached, m.0, i) = true;
        !was
    }

    /// Where the call in instruction `i` of a method may go.
    pub fn targets(&self, m: MethodId, i: u32) -> &Targets
        ensures { result.now ≡ targets_at self.now m.0 i }
    {
        let number = *listed_in(&self.targets, m.0, i, &0);
        option_named(&self.target_pool, number, &self.nowhere)
    }

    /// Takes where calls may go from a pool: for each instruction of each method one more than the
    /// place of its targets there, or 0 where it goes nowhere. A place that the pool does not have
    /// stands for no target.
    pub fn share_targets(&mut self, numbers: Rows<Rows<u32>>, pool: Rows<Targets>)
        ensures { self.new ≡ record self.old { targets = option_rows pool no_targets numbers } }
    {
        self.targets = numbers;
        self.target_pool = pool;
    }

    /// The tokens of the objects that may take the arguments of the call in instruction `i` of a
    /// method into their bags.
    pub fn takers(&self, m: MethodId, i: u32) -> &TokenSet
        ensures { result.now ≡ takers_at self.now m.0 i }
    {
        let number = *listed_in(&self.takers, m.0, i, &0);
        option_named(&self.taker_pool, number, &self.none)
    }

    /// Takes the takers of calls from a pool: for each instruction of each method one more than the
    /// place of its takers there, or 0 where there is none. A place that the pool does not have stands
    /// for the empty set.
    pub fn share_takers(&mut self, numbers: Rows<Rows<u32>>, pool: Rows<TokenSet>)
        ensures { self.new ≡ record self.old { takers = option_rows pool self.old.none numbers } }
    {
        self.takers = numbers;
        self.taker_pool = pool;
    }
}

// 1 for a call, 0 for another operation.
fn calls_of(op: &Op) -> u32
    ensures { result ≡ calls_of op.now }
{
    match op {
        Op::Call(_) => 1,
        _ => 0,
    }
}

// A flag for each instruction, none of them set.
fn reached_flags(alloc: Global, p: &Program) -> Result<Rows<Rows<bool>>, Memory>
    ensures { IfOk result (λ rows. rows ≡ map (λ (method : Method). replicate (length method.code) false) p.now.methods) }
{
    let mut rows = Rows::new(alloc);
    for method in p.methods().as_slice() {
        rows.push(flag_row(alloc, method.code.len())?)?;
    }
    Ok(rows)
}

// Name 0, as a number that may be no name, for each call of a method.
fn method_calls(alloc: Global, method: &Method) -> Result<Rows<u32>, Memory>
    ensures { IfOk result (λ row. row ≡ zero_calls_of method.now) }
{
    let mut row = Rows::new(alloc);
    for instr in method.code.as_slice() {
        row.push(calls_of(&instr.op))?;
    }
    Ok(row)
}

// Name 0, as a number that may be no name, for each call.
fn call_names(alloc: Global, p: &Program) -> Result<Rows<Rows<u32>>, Memory>
    ensures { IfOk result (λ rows. rows ≡ map zero_calls_of p.now.methods) }
{
    let mut rows = Rows::new(alloc);
    for method in p.methods().as_slice() {
        rows.push(method_calls(alloc, method)?)?;
    }
    Ok(rows)
}
