//! Each table of facts as its `new` makes it, and what it answers after writes.
//!
//! The program has one class, so five tokens, one field, and five methods: one of a constant, a call, a
//! return and a throw, three of a return, and one without code.
ghost use Rattle.std.specs.Prelude.{◌≡◌, ◌<◌, [], ◌∷◌, false, replicate, length, IfOk};
ghost use Rattle.ja_facts.specs.FactTables.{empty_effects, empty_graph};
ghost use Rattle.ja_ir.specs.Sample.{sample};

use crate::sample::{CONSTRUCTOR, MAIN, MEMBER, WITHOUT_CODE};
use ja_base::{FieldId, Memory, MethodId};
use ja_facts::{CallGraph, Effects, Holds, Pairs, Reach, Rows, Targets, var_of};
use ja_ir::{Program, Token};
use ja_sets::{PairSet, TokenSet};
use std::alloc::Global;

/// No method of the program.
const NOWHERE: MethodId = MethodId(5);

/// A row of three numbers.
fn row_of_three(alloc: Global) -> Result<Rows<u32>, Memory>
    ensures { IfOk result (λ row. row ≡ 5 ∷ 6 ∷ 7 ∷ []) }
{
    let mut row = Rows::new(alloc);
    row.push(5)?;
    row.push(6)?;
    row.push(7)?;
    Ok(row)
}

/// Adds what a row of numbers holds, before and after writes.
pub fn add_rows(out: &mut String, alloc: Global) -> Result<(), Memory> {
    let none: Rows<u32> = Rows::new(alloc);
    write!(out, "rows {}", none.len())?;
    let mut row = row_of_three(alloc)?;
    *row.at_mut(1) = 9;
    add_row(out, &row)
}

/// Adds what a row of three numbers holds.
fn add_row(out: &mut String, row: &Rows<u32>) -> Result<(), Memory>
    requires { length row.now ≡ 3 }
{
    write!(
        out,
        " {}: {} {} {}",
        row.len(),
        row.at(0),
        row.at(1),
        row.at(2)
    )?;
    for place in [0, 1, 2, 3, u64::MAX] {
        write!(out, ", {}", row.at_or(place, &4))?;
    }
    Ok(writeln!(out)?)
}

/// Adds the numbers of some variables: of a slot and a copy of it.
pub fn add_variables(out: &mut String) -> Result<(), Memory> {
    let numbers = [var_of(0, 0), var_of(0, 3), var_of(1, 0), var_of(513, 3)];
    Ok(writeln!(out, "variables {numbers:?}")?)
}

/// What a graph says of an instruction: whether it is reached, the number of its targets, whether the
/// library is one, and the least taker.
type Said = (bool, u64, bool, Option<u32>);

/// What the graph says of an instruction.
fn said(graph: &CallGraph, m: MethodId, i: u32) -> Said {
    let targets = graph.targets(m, i);
    let taker = graph.takers(m, i).next_from(0);
    (
        graph.reached(m, i),
        targets.methods.len(),
        targets.library,
        taker,
    )
}

/// Says that two instructions may run, the first of them twice, and answers whether each was new.
fn reach_two(graph: &mut CallGraph) -> [bool; 3]
    requires { graph.old ≡ empty_graph sample }
{
    [graph.add(MAIN, 1), graph.add(MAIN, 1), graph.add(MEMBER, 0)]
}

/// What the call graph says of an instruction at first, and what it answers to instructions that may run.
fn reached(alloc: Global, program: &Program) -> Result<(Said, [bool; 3]), Memory>
    requires { program.now ≡ sample }
{
    let mut graph = CallGraph::new(alloc, program)?;
    let before = said(&graph, MAIN, 1);
    let added = reach_two(&mut graph);
    Ok((before, added))
}

/// Adds what the call graph says at first, and what it answers to instructions that may run.
pub fn add_reached(out: &mut String, alloc: Global, program: &Program) -> Result<(), Memory>
    requires { program.now ≡ sample }
{
    let (before, [first, again, other]) = reached(alloc, program)?;
    writeln!(out, "graph {before:?}")?;
    Ok(writeln!(out, "graph added {first} {again} {other}")?)
}

/// Adds what the call graph says of some instructions, after writes.
pub fn add_calls(out: &mut String, alloc: Global, program: &Program) -> Result<(), Memory>
    requires { program.now ≡ sample }
{
    let mut graph = CallGraph::new(alloc, program)?;
    add_called(out, alloc, &mut graph)
}

/// Adds what an empty graph says of some instructions, after writes.
fn add_called(out: &mut String, alloc: Global, graph: &mut CallGraph) -> Result<(), Memory>
    requires { graph.old ≡ empty_graph sample }
{
    let _added = reach_two(graph);
    share_calls(alloc, graph)?;
    add_said(out, graph)
}

/// Names a target and a taker for instruction 1 of the main method.
fn share_calls(alloc: Global, graph: &mut CallGraph) -> Result<(), Memory> {
    share_target(alloc, graph)?;
    share_taker(alloc, graph)
}

/// Names where the call in instruction 1 of the main method goes.
fn share_target(alloc: Global, graph: &mut CallGraph) -> Result<(), Memory> {
    let pool = target_pool(alloc)?;
    let numbers = two_names(alloc, 0, 1)?;
    graph.share_targets(numbers, pool);
    Ok(())
}

/// Names what the call in instruction 1 of the main method puts its arguments into.
fn share_taker(alloc: Global, graph: &mut CallGraph) -> Result<(), Memory> {
    let pool = taker_pool(alloc)?;
    let numbers = two_names(alloc, 0, 1)?;
    graph.share_takers(numbers, pool);
    Ok(())
}

/// A pool of one: a method and the library.
fn target_pool(alloc: Global) -> Result<Rows<Targets>, Memory> {
    let targets = both_targets(alloc)?;
    let mut pool = Rows::new(alloc);
    pool.push(targets)?;
    Ok(pool)
}

/// Targets: a method and the library.
fn both_targets(alloc: Global) -> Result<Targets, Memory> {
    let mut targets = Targets::new(alloc);
    targets.methods.push(2)?;
    targets.library = true;
    Ok(targets)
}

/// A pool of one set, of one token.
fn taker_pool(alloc: Global) -> Result<Rows<TokenSet>, Memory> {
    let set = set_of(alloc, 5, 4)?;
    let mut pool = Rows::new(alloc);
    pool.push(set)?;
    Ok(pool)
}

/// The set of one number below a bound above 4.
pub fn set_of(alloc: Global, n: u32, member: u32) -> Result<TokenSet, Memory>
    requires { member < n }
{
    let mut set = TokenSet::new(alloc, n)?;
    set.add(member);
    Ok(set)
}

/// Rows of which the first, the one row, has two names.
fn two_names(alloc: Global, first: u32, second: u32) -> Result<Rows<Rows<u32>>, Memory>
    ensures { IfOk result (λ rows. rows ≡ (first ∷ second ∷ []) ∷ []) }
{
    let row = row_of_two(alloc, first, second)?;
    let mut rows = Rows::new(alloc);
    rows.push(row)?;
    Ok(rows)
}

/// A row of two names.
fn row_of_two(alloc: Global, first: u32, second: u32) -> Result<Rows<u32>, Memory>
    ensures { IfOk result (λ row. row ≡ first ∷ second ∷ []) }
{
    let mut row = Rows::new(alloc);
    row.push(first)?;
    row.push(second)?;
    Ok(row)
}

/// Adds what the graph says of some instructions.
fn add_said(out: &mut String, graph: &CallGraph) -> Result<(), Memory> {
    let places = [
        (MAIN, 0),
        (MAIN, 1),
        (MAIN, 2),
        (MAIN, 4),
        (CONSTRUCTOR, 0),
        (MEMBER, 0),
        (WITHOUT_CODE, 0),
        (NOWHERE, 0),
    ];
    for (m, i) in places {
        writeln!(out, "graph at {} {i}: {:?}", m.0, said(graph, m, i))?;
    }
    Ok(())
}

/// Adds two effects, one of them twice: whether there was the first before, and whether each was new.
fn add_two_effects(effects: &mut Effects) -> [bool; 4]
    requires { effects.old ≡ empty_effects sample }
{
    [
        effects.has(MEMBER, 1),
        effects.add(MEMBER, 1),
        effects.add(MEMBER, 1),
        effects.add(MAIN, 0),
    ]
}

/// Adds which effects there are after writes.
pub fn add_effects(out: &mut String, alloc: Global, program: &Program) -> Result<(), Memory>
    requires { program.now ≡ sample }
{
    let mut effects = Effects::new(alloc, program)?;
    let [before, first, again, other] = add_two_effects(&mut effects);
    writeln!(out, "effects {before}, added {first} {again} {other}")?;
    add_had(out, &effects)
}

/// Adds which of some effects there are.
fn add_had(out: &mut String, effects: &Effects) -> Result<(), Memory> {
    let places = [
        (MAIN, 0),
        (MAIN, 1),
        (CONSTRUCTOR, 1),
        (MEMBER, 0),
        (MEMBER, 1),
        (MEMBER, 2),
        (NOWHERE, 0),
    ];
    for (m, k) in places {
        writeln!(out, "effect {k} of {}: {}", m.0, effects.has(m, k))?;
    }
    Ok(())
}

/// Whether there is a heap pair at first, before an instruction of the program.
fn has_pair(alloc: Global, program: &Program) -> Result<bool, Memory>
    requires { program.now ≡ sample }
{
    let pairs = Pairs::new(alloc, program)?;
    Ok(pairs.at(MEMBER, 0).contains((5, 5)))
}

/// Whether there is a reachable pair at first, before an instruction of the program.
fn has_reached(alloc: Global, program: &Program) -> Result<bool, Memory>
    requires { program.now ≡ sample }
{
    let reach = Reach::new(alloc, program)?;
    Ok(reach.at(MAIN, 1).contains((3, 2)))
}

/// Adds which heap pairs there are at first, before an instruction of the program.
pub fn add_first_pairs(out: &mut String, alloc: Global, program: &Program) -> Result<(), Memory>
    requires { program.now ≡ sample }
{
    let held = has_pair(alloc, program)?;
    let reached = has_reached(alloc, program)?;
    Ok(writeln!(out, "pairs at first {held}, reach {reached}")?)
}

/// The pool of one set of pairs.
fn pool_of(alloc: Global, set: PairSet) -> Result<Rows<PairSet>, Memory>
    ensures { IfOk result (λ pool. pool ≡ set ∷ []) }
{
    let mut pool = Rows::new(alloc);
    pool.push(set)?;
    Ok(pool)
}

/// The heap pairs before two instructions, of which the second is named this set.
fn pairs_named(alloc: Global, set: PairSet) -> Result<Pairs, Memory>
    ensures { IfOk result (λ pairs. pairs ≡ (replicate 6 (replicate 6 false) ∷ set ∷ []) ∷ []) }
{
    let pool = pool_of(alloc, set)?;
    let names = two_names(alloc, 7, 0)?;
    let none = PairSet::new(alloc, 6)?;
    Ok(Pairs::shared(names, pool, none))
}

/// Whether a pair is new, and which heap pairs there are before two instructions, of which the second is named it.
fn pairs_of_two(alloc: Global) -> Result<[bool; 4], Memory> {
    let mut set = PairSet::new(alloc, 6)?;
    let added = set.add((4, 0));
    let pairs = pairs_named(alloc, set)?;
    let held = pairs.at(MAIN, 1).contains((4, 0));
    let turned = pairs.at(MAIN, 1).contains((0, 4));
    let before = pairs.at(MAIN, 0).contains((4, 0));
    Ok([added, held, turned, before])
}

/// Adds which heap pairs there are before two instructions, of which the second is named a pair.
pub fn add_pairs(out: &mut String, alloc: Global) -> Result<(), Memory> {
    let [added, held, turned, before] = pairs_of_two(alloc)?;
    Ok(writeln!(out, "pairs added {added}: {held} {turned} {before}")?)
}

/// The reachable pairs before two instructions, of which the first is named this set.
fn reach_named(alloc: Global, set: PairSet) -> Result<Reach, Memory>
    ensures { IfOk result (λ pairs. pairs ≡ (set ∷ replicate 6 (replicate 6 false) ∷ []) ∷ []) }
{
    let pool = pool_of(alloc, set)?;
    let names = two_names(alloc, 0, 1)?;
    let none = PairSet::new(alloc, 6)?;
    Ok(Reach::shared(names, pool, none))
}

/// Whether a pair is new, and which reachable pairs there are before two instructions, of which the first is named it.
fn reach_of_two(alloc: Global) -> Result<[bool; 4], Memory> {
    let mut set = PairSet::new(alloc, 6)?;
    let added = set.add((3, 2));
    let reach = reach_named(alloc, set)?;
    let held = reach.at(MAIN, 0).contains((3, 2));
    let turned = reach.at(MAIN, 0).contains((2, 3));
    let after = reach.at(MAIN, 1).contains((3, 2));
    Ok([added, held, turned, after])
}

/// Adds which reachable pairs there are before two instructions, of which the first is named a pair.
pub fn add_reach(out: &mut String, alloc: Global) -> Result<(), Memory> {
    let [added, held, turned, after] = reach_of_two(alloc)?;
    Ok(writeln!(out, "reach added {added}: {held} {turned} {after}")?)
}

/// The least cell that the objects of two tokens hold: of the first at first and after a write, of the other
/// between.
fn held(alloc: Global, program: &Program) -> Result<[Option<u32>; 3], Memory>
    requires { program.now ≡ sample }
{
    let mut holds = Holds::new(alloc, program)?;
    let before = holds.of_token(Token(4)).next_from(0);
    holds.of_token_mut(Token(4)).add(5);
    let other = holds.of_token(Token(3)).next_from(0);
    let after = holds.of_token(Token(4)).next_from(0);
    Ok([before, other, after])
}

/// Adds what the objects of a token hold at first, and after a write.
pub fn add_held(out: &mut String, alloc: Global, program: &Program) -> Result<(), Memory>
    requires { program.now ≡ sample }
{
    let [before, other, after] = held(alloc, program)?;
    Ok(writeln!(out, "token holds {before:?} {other:?} {after:?}")?)
}

/// The least cell that a field holds, at first and after a write.
fn field_held(alloc: Global, program: &Program) -> Result<[Option<u32>; 2], Memory>
    requires { program.now ≡ sample }
{
    let mut holds = Holds::new(alloc, program)?;
    let before = holds.of_field(FieldId(0)).next_from(0);
    holds.of_field_mut(FieldId(0)).add(0);
    let after = holds.of_field(FieldId(0)).next_from(0);
    Ok([before, after])
}

/// Adds what a field holds at first, and after a write.
pub fn add_field_held(out: &mut String, alloc: Global, program: &Program) -> Result<(), Memory>
    requires { program.now ≡ sample }
{
    let [before, after] = field_held(alloc, program)?;
    Ok(writeln!(out, "field holds {before:?} {after:?}")?)
}
