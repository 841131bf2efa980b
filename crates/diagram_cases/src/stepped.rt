//! What rules make of relations of three slots, between the entry and the present.
ghost use Rattle.std.specs.Prelude.{◌≡◌, ◌<◌, OnOk};
ghost use Rattle.std.specs.List.{All};
ghost use Rattle.ja_node_core.specs.Node.{Knows};
ghost use Rattle.ja_bdd.specs.Workers.{IsWorkerOf, seen};

use crate::pool::{Pool, Step};
use crate::rules::RuleName;
use ja_base::Memory;
use ja_bdd::Copies;
use ja_join::Memo;
use ja_node_core::AnyAim;
use ja_node_table::NodeTable;
use std::alloc::Global;

/// The copy at the entry, and that at present.
const ENTRY: Copies = Copies {
    at_entry: true,
    at_present: false,
    at_next: false,
    at_callee: false,
};

const PRESENT: Copies = Copies {
    at_entry: false,
    at_present: true,
    at_next: false,
    at_callee: false,
};

/// The relation that two variables have one value.
fn same(pool: &mut Pool, table: &NodeTable<AnyAim>, one: u32, other: u32) -> Result<usize, Memory>
    requires { IsWorkerOf table.now pool.old.worker × All (λ n. Knows (seen pool.old.worker) n.number) pool.old.nodes.items }
    ensures { OnOk result (IsWorkerOf table.now pool.new.worker × All (λ n. Knows (seen pool.new.worker) n.number) pool.new.nodes.items) }
{
    let x = pool.step(table, Step::Literal(one, true), 0, 0)?;
    let y = pool.step(table, Step::Literal(other, true), 0, 0)?;
    let not_x = pool.step(table, Step::Literal(one, false), 0, 0)?;
    let not_y = pool.step(table, Step::Literal(other, false), 0, 0)?;
    let both = pool.step(table, Step::And, x, y)?;
    let neither = pool.step(table, Step::And, not_x, not_y)?;
    pool.step(table, Step::Or, both, neither)
}

/// The relation that three variables have the values of three others.
fn kept(
    pool: &mut Pool,
    table: &NodeTable<AnyAim>,
    ones: [u32; 3],
    others: [u32; 3],
) -> Result<usize, Memory>
    requires { IsWorkerOf table.now pool.old.worker × All (λ n. Knows (seen pool.old.worker) n.number) pool.old.nodes.items }
    ensures { OnOk result (IsWorkerOf table.now pool.new.worker × All (λ n. Knows (seen pool.new.worker) n.number) pool.new.nodes.items) }
{
    let first = same(pool, table, ones[0], others[0])?;
    let second = same(pool, table, ones[1], others[1])?;
    let third = same(pool, table, ones[2], others[2])?;
    let two = pool.step(table, Step::And, first, second)?;
    pool.step(table, Step::And, two, third)
}

/// The relation of a present and the next, in which slot 2 becomes true where slot 0 or slot 1 is.
fn mixed(pool: &mut Pool, table: &NodeTable<AnyAim>) -> Result<usize, Memory>
    requires { IsWorkerOf table.now pool.old.worker × All (λ n. Knows (seen pool.old.worker) n.number) pool.old.nodes.items }
    ensures { OnOk result (IsWorkerOf table.now pool.new.worker × All (λ n. Knows (seen pool.new.worker) n.number) pool.new.nodes.items) }
{
    let first = pool.step(table, Step::Literal(1, true), 0, 0)?;
    let second = pool.step(table, Step::Literal(5, true), 0, 0)?;
    let some = pool.step(table, Step::Or, first, second)?;
    let becomes = pool.step(table, Step::Literal(10, true), 0, 0)?;
    let tainted = pool.step(table, Step::And, becomes, some)?;
    let not_first = pool.step(table, Step::Literal(1, false), 0, 0)?;
    let not_second = pool.step(table, Step::Literal(5, false), 0, 0)?;
    let none = pool.step(table, Step::And, not_first, not_second)?;
    let stays_out = pool.step(table, Step::Literal(10, false), 0, 0)?;
    let clean = pool.step(table, Step::And, stays_out, none)?;
    let third = pool.step(table, Step::Or, tainted, clean)?;
    let others = kept(pool, table, [2, 6, 6], [1, 5, 5])?;
    pool.step(table, Step::And, others, third)
}

/// The values of three slots, whose bits are apart by one, as bits of variables of one copy.
fn spread(values: usize) -> usize {
    values & 1 | (values & 2) << 3 | (values & 4) << 6
}

/// Adds the values of three slots.
fn add_values(out: &mut String, values: usize) -> Result<(), Memory> {
    Ok(write!(out, "{}{}{}", values & 1, values >> 1 & 1, values >> 2 & 1)?)
}

/// Adds which presents a relation has for an entry.
fn add_presents(
    out: &mut String,
    pool: &mut Pool,
    table: &NodeTable<AnyAim>,
    r: usize,
    entry: usize,
) -> Result<(), Memory>
    requires { IsWorkerOf table.now pool.old.worker × All (λ n. Knows (seen pool.old.worker) n.number) pool.old.nodes.items }
    ensures { OnOk result (IsWorkerOf table.now pool.new.worker × All (λ n. Knows (seen pool.new.worker) n.number) pool.new.nodes.items) }
{
    for present in 0..8 {
        let holds = pool.value(table, r, spread(entry) | spread(present) << 1)?;
        if holds {
            out.push(' ')?;
            add_values(out, entry)?;
            out.push('>')?;
            add_values(out, present)?;
        }
    }
    Ok(())
}

/// Adds a relation.
fn add_relation(
    out: &mut String,
    pool: &mut Pool,
    table: &NodeTable<AnyAim>,
    name: &str,
    r: usize,
) -> Result<(), Memory>
    requires { IsWorkerOf table.now pool.old.worker × All (λ n. Knows (seen pool.old.worker) n.number) pool.old.nodes.items }
    ensures { OnOk result (IsWorkerOf table.now pool.new.worker × All (λ n. Knows (seen pool.new.worker) n.number) pool.new.nodes.items) }
{
    write!(out, "{name}:")?;
    for entry in 0..8 {
        add_presents(out, pool, table, r, entry)?;
    }
    Ok(out.push('\n')?)
}

/// Adds what the rule of a name makes of a relation, and answers its place.
fn add_by(
    out: &mut String,
    alloc: Global,
    pool: &mut Pool,
    table: &NodeTable<AnyAim>,
    memo: &mut Memo,
    rule: RuleName,
    r: usize,
) -> Result<usize, Memory>
    requires { IsWorkerOf table.now pool.old.worker × All (λ n. Knows (seen pool.old.worker) n.number) pool.old.nodes.items }
    ensures { OnOk result (IsWorkerOf table.now pool.new.worker × All (λ n. Knows (seen pool.new.worker) n.number) pool.new.nodes.items) }
{
    let made = stepped_by(alloc, pool, table, memo, rule, r)?;
    add_relation(out, pool, table, rule.text(), made)?;
    Ok(made)
}

/// Makes what the rule of a name makes of a relation, and answers its place.
fn stepped_by(
    alloc: Global,
    pool: &mut Pool,
    table: &NodeTable<AnyAim>,
    memo: &mut Memo,
    rule: RuleName,
    r: usize,
) -> Result<usize, Memory>
    requires { IsWorkerOf table.now pool.old.worker × All (λ n. Knows (seen pool.old.worker) n.number) pool.old.nodes.items }
    ensures { OnOk result (IsWorkerOf table.now pool.new.worker × All (λ n. Knows (seen pool.new.worker) n.number) pool.new.nodes.items) }
{
    let rule = rule.rule(alloc)?;
    pool.stepped(table, memo, &rule, r)
}

/// Adds what each rule makes of the relation that keeps all slots.
pub fn add_rules(
    out: &mut String,
    alloc: Global,
    pool: &mut Pool,
    table: &NodeTable<AnyAim>,
    memo: &mut Memo,
) -> Result<(), Memory>
    requires { IsWorkerOf table.now pool.old.worker × All (λ n. Knows (seen pool.old.worker) n.number) pool.old.nodes.items }
{
    let start = kept(pool, table, [1, 5, 9], [0, 4, 8])?;
    add_by(out, alloc, pool, table, memo, RuleName::Copy, start)?;
    add_by(out, alloc, pool, table, memo, RuleName::Mix, start)?;
    add_by(out, alloc, pool, table, memo, RuleName::MixBefore, start)?;
    add_by(out, alloc, pool, table, memo, RuleName::Guess, start)?;
    add_by(out, alloc, pool, table, memo, RuleName::Narrow, start)?;
    add_by(out, alloc, pool, table, memo, RuleName::Nothing, start)?;
    Ok(())
}

/// Adds what three rules make one after the other.
pub fn add_chain(
    out: &mut String,
    alloc: Global,
    pool: &mut Pool,
    table: &NodeTable<AnyAim>,
    memo: &mut Memo,
) -> Result<(), Memory>
    requires { IsWorkerOf table.now pool.old.worker × All (λ n. Knows (seen pool.old.worker) n.number) pool.old.nodes.items }
{
    let start = kept(pool, table, [1, 5, 9], [0, 4, 8])?;
    let first = stepped_by(alloc, pool, table, memo, RuleName::Guess, start)?;
    let second = stepped_by(alloc, pool, table, memo, RuleName::Copy, first)?;
    let third = stepped_by(alloc, pool, table, memo, RuleName::Mix, second)?;
    add_relation(out, pool, table, "guess, copy and mix", third)
}

/// Whether a step is what a composition with the relation of its rule is.
fn copies(
    alloc: Global,
    pool: &mut Pool,
    table: &NodeTable<AnyAim>,
    memo: &mut Memo,
) -> Result<bool, Memory>
    requires { IsWorkerOf table.now pool.old.worker × All (λ n. Knows (seen pool.old.worker) n.number) pool.old.nodes.items }
    ensures { OnOk result (IsWorkerOf table.now pool.new.worker × All (λ n. Knows (seen pool.new.worker) n.number) pool.new.nodes.items) }
{
    let start = kept(pool, table, [1, 5, 9], [0, 4, 8])?;
    let copied = kept(pool, table, [2, 6, 10], [1, 1, 9])?;
    let composed = pool.step(table, Step::After, start, copied)?;
    let stepped = stepped_by(alloc, pool, table, memo, RuleName::Copy, start)?;
    Ok(pool.number(composed) == pool.number(stepped))
}

/// Adds what a rule makes of the relation in which slot 1 is true and slot 2 was false at the entry, and answers
/// whether it is what a composition with the relation of the rule is.
fn add_some(
    out: &mut String,
    alloc: Global,
    pool: &mut Pool,
    table: &NodeTable<AnyAim>,
    memo: &mut Memo,
) -> Result<bool, Memory>
    requires { IsWorkerOf table.now pool.old.worker × All (λ n. Knows (seen pool.old.worker) n.number) pool.old.nodes.items }
{
    let present = pool.step(table, Step::Literal(5, true), 0, 0)?;
    let entry = pool.step(table, Step::Literal(8, false), 0, 0)?;
    let some = pool.step(table, Step::And, present, entry)?;
    let mixed = mixed(pool, table)?;
    let composed = pool.step(table, Step::After, some, mixed)?;
    let stepped = stepped_by(alloc, pool, table, memo, RuleName::Mix, some)?;
    add_relation(out, pool, table, "mix some", stepped)?;
    Ok(pool.number(composed) == pool.number(stepped))
}

/// Adds whether steps are what compositions with the relations of their rules are.
pub fn add_composed(
    out: &mut String,
    alloc: Global,
    pool: &mut Pool,
    table: &NodeTable<AnyAim>,
    memo: &mut Memo,
) -> Result<(), Memory>
    requires { IsWorkerOf table.now pool.old.worker × All (λ n. Knows (seen pool.old.worker) n.number) pool.old.nodes.items }
{
    let copies = copies(alloc, pool, table, memo)?;
    let mixes = add_some(out, alloc, pool, table, memo)?;
    Ok(writeln!(out, "steps are compositions: copy {copies} mix {mixes}")?)
}

/// Adds what is left of the entry where a copied slot is true, and of the present where one is guessed.
pub fn add_projected(
    out: &mut String,
    alloc: Global,
    pool: &mut Pool,
    table: &NodeTable<AnyAim>,
    memo: &mut Memo,
) -> Result<(), Memory>
    requires { IsWorkerOf table.now pool.old.worker × All (λ n. Knows (seen pool.old.worker) n.number) pool.old.nodes.items }
{
    let start = kept(pool, table, [1, 5, 9], [0, 4, 8])?;
    let copied = stepped_by(alloc, pool, table, memo, RuleName::Copy, start)?;
    let present = pool.step(table, Step::Literal(5, true), 0, 0)?;
    let tainted = pool.step(table, Step::And, copied, present)?;
    let left = pool.step(table, Step::Project(ENTRY), tainted, 0)?;
    let source = pool.step(table, Step::Literal(0, true), 0, 0)?;
    let from_source = pool.number(left) == pool.number(source);
    let guessed = stepped_by(alloc, pool, table, memo, RuleName::Guess, start)?;
    let left = pool.step(table, Step::Project(PRESENT), guessed, 0)?;
    let anything = pool.number(left) == Some(1);
    Ok(writeln!(
        out,
        "a copied slot is true where its source was {from_source}, any present is guessed {anything}"
    )?)
}

/// Adds what a call makes whose callee answers its argument, and where its answer may be true.
pub fn add_call(
    out: &mut String,
    alloc: Global,
    pool: &mut Pool,
    table: &NodeTable<AnyAim>,
    memo: &mut Memo,
) -> Result<(), Memory>
    requires { IsWorkerOf table.now pool.old.worker × All (λ n. Knows (seen pool.old.worker) n.number) pool.old.nodes.items }
{
    let start = kept(pool, table, [1, 5, 9], [0, 4, 8])?;
    let answers = same(pool, table, 0, 1)?;
    let rule = RuleName::Call.rule(alloc)?;
    let made = pool.stepped_with(table, memo, &rule, start, answers)?;
    add_relation(out, pool, table, RuleName::Call.text(), made)?;
    let given = pool.step(table, Step::Literal(0, true), 0, 0)?;
    let some = pool.holds(table, memo, made, given, 9)?;
    let clean = pool.step(table, Step::Literal(4, false), 0, 0)?;
    let none = pool.holds(table, memo, made, clean, 9)?;
    Ok(writeln!(
        out,
        "an answer may be true {some}, of a false argument {none}"
    )?)
}
