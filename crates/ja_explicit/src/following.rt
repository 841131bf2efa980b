ghost use Rattle.std.specs.Prelude.{◌≡◌, ◌++◌, ◌≤◌, ◌<◌, ◌^◌, [], ◌∷◌, true, Some, length, map, slice_get, OnOk};
ghost use Rattle.ja_ir.specs.Operations.{FindsOperands};
ghost use Rattle.ja_clauses.specs.Tables.{tests_by};
ghost use Rattle.ja_tokens.specs.Shapes.{place_meant};
ghost use Rattle.ja_explicit.specs.Given.{AreGiven, AreNarrow};
ghost use Rattle.ja_explicit.specs.Tables.{items_of};
ghost use Rattle.ja_explicit.specs.InnerSteps as steps;
ghost use Rattle.ja_explicit.specs.InnerRules.{standing, StandsAt};

use crate::calling::{add_calls, add_initializes};
use crate::item::Item;
use crate::landing::places_of;
use crate::reading::add_goes_on;
use crate::rule::Here;
use crate::standing::Standing;
use crate::storing::{add_returns, add_takes, add_writes};
use crate::table::Table;
use crate::throwing::add_throws;
use ja_base::{Memory, MethodId, Seq};
use ja_clauses::Before;
use ja_facts::Facts;
use ja_ir::{Instr, Method, Program};
use ja_tokens::ThrownTo;
use std::alloc::Global;

// Adds what follows where an operation is come to.
fn add_runs_by(
    alloc: Global,
    out: &mut Seq<Item>,
    p: &Program,
    facts: &Facts,
    table: &Table,
    standing_at: &Standing,
    i: u32,
    here: &Here,
    places: &[ThrownTo],
    next: &[u64],
) -> Result<(), Memory>
    requires given { AreGiven p.now facts.now }
    requires narrow { AreNarrow p.now }
    requires stands { StandsAt p.now standing_at.now i }
    requires finds { FindsOperands here.now.op.now here.now.height }
    ensures { OnOk result (out.new ≡ out.old ++ steps.runs_by p.now facts.now (items_of table.now) (standing standing_at.now) i (tests_by here.now.before) (map place_meant places.now) here.now.op.now here.now.height next.now) }
{
    let (op, height) = (here.op, here.height);
    add_goes_on(alloc, out, p, facts, table, standing_at, here, next)?;
    add_throws(alloc, out, standing_at, here, places)?;
    add_initializes(alloc, out, p, facts, table, standing_at, i, height, op)?;
    add_calls(
        alloc,
        out,
        p,
        facts,
        table,
        standing_at,
        i,
        next,
        places,
        op,
        height,
    )?;
    add_returns(out, standing_at, op, height)?;
    add_writes(out, p, standing_at, op, height)?;
    add_takes(out, p, facts, standing_at, i, op, height)?;
    Ok(())
}

// Adds what follows where a reached instruction is come to.
fn add_runs(
    alloc: Global,
    out: &mut Seq<Item>,
    p: &Program,
    facts: &Facts,
    table: &Table,
    standing_at: &Standing,
    i: u32,
    instr: &Instr,
) -> Result<(), Memory>
    requires given { AreGiven p.now facts.now }
    requires narrow { AreNarrow p.now }
    requires stands { StandsAt p.now standing_at.now i }
    requires finds { FindsOperands instr.now.op instr.now.height }
    ensures { OnOk result (out.new ≡ out.old ++ steps.runs p.now facts.now (items_of table.now) (standing standing_at.now) i instr.now) }
{
    let here = Here {
        before: Before::of(p, facts, MethodId(standing_at.m), i),
        op: &instr.op,
        height: instr.height,
    };
    let places = places_of(alloc, p, facts, standing_at.m, i, standing_at.method)?;
    add_runs_by(
        alloc,
        out,
        p,
        facts,
        table,
        standing_at,
        i,
        &here,
        places.as_slice(),
        instr.next.as_slice(),
    )?;
    Ok(())
}

// Adds what follows where an instruction of a method is come to.
fn add_runs_in(
    alloc: Global,
    out: &mut Seq<Item>,
    p: &Program,
    facts: &Facts,
    table: &Table,
    standing_at: &Standing,
    index: u64,
) -> Result<(), Memory>
    requires given { AreGiven p.now facts.now }
    requires narrow { AreNarrow p.now }
    requires found { slice_get p.now.methods standing_at.now.m ≡ Some standing_at.now.method.now }
    ensures { OnOk result (out.new ≡ out.old ++ steps.runs_reached p.now facts.now (items_of table.now) (standing standing_at.now) index (slice_get standing_at.now.method.now.code index)) }
{
    let _whole = p.methods();
    let code = &standing_at.method.code;
    if index >= code.len() {
        return Ok(());
    }
    let instr = code.at(index);
    if !instr.reached {
        return Ok(());
    }
    add_runs(
        alloc,
        out,
        p,
        facts,
        table,
        standing_at,
        index as u32,
        instr,
    )
}

// Adds what follows where an instruction of a program is come to.
fn add_runs_at(
    alloc: Global,
    out: &mut Seq<Item>,
    p: &Program,
    facts: &Facts,
    table: &Table,
    m: u64,
    index: u64,
    entry: u32,
    now: u32,
) -> Result<(), Memory>
    requires given { AreGiven p.now facts.now }
    requires narrow { AreNarrow p.now }
    ensures { OnOk result (out.new ≡ out.old ++ steps.runs_in p.now facts.now (items_of table.now) m index entry now (slice_get p.now.methods m)) }
{
    if m >= p.methods().len() {
        return Ok(());
    }
    let standing_at = Standing {
        method: p.methods().at(m),
        m: m as u32,
        entry,
        word: now,
    };
    add_runs_in(alloc, out, p, facts, table, &standing_at, index)
}

/// Adds what follows of a fact, beside those of a table.
pub fn add_follows(
    alloc: Global,
    out: &mut Seq<Item>,
    p: &Program,
    facts: &Facts,
    table: &Table,
    item: Item,
) -> Result<(), Memory>
    requires given { AreGiven p.now facts.now }
    requires narrow { AreNarrow p.now }
    ensures { OnOk result (out.new ≡ out.old ++ steps.follows p.now facts.now (items_of table.now) item) }
{
    match item {
        Item::Context { method, entry } => out.push(Item::At {
            method,
            index: 0,
            entry,
            now: entry,
        }),
        Item::At {
            method,
            index,
            entry,
            now,
        } => add_runs_at(alloc, out, p, facts, table, method, index, entry, now),
        Item::Normal { .. } | Item::Threw { .. } | Item::Stored { .. } => Ok(()),
    }
}
