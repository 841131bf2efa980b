ghost use Rattle.std.specs.Prelude.{◌≡◌, ◌++◌, ◌≤◌, ◌-◌, [], ◌∷◌, Option, Some, None, false, length, slice_index_or, OnOk, if◌then◌else◌};
ghost use Rattle.ja_ir.specs.Operations as operations;
ghost use Rattle.ja_facts.specs.Slots.{OnStack};
ghost use Rattle.ja_facts.specs.Formulas as formulas;
ghost use Rattle.ja_facts.specs.FactTables.{takers_at};
ghost use Rattle.ja_explicit.specs.InnerSteps as steps;
ghost use Rattle.ja_explicit.specs.InnerRules.{standing};

use crate::item::Item;
use crate::standing::Standing;
use crate::stored::{is_in, token_count};
use crate::words::{dirt_is_true, some_stacked, stacked_is_true};
use ja_base::{Kind, Memory, MethodId, Seq};
use ja_facts::Facts;
use ja_ir::{CallOp, Op, Program, RowFlow, arguments};
use ja_sets::TokenSet;
use ja_tokens::{parr_token, rarr_token};

// Whether the topmost of so many values on the stack is true.
fn top_is_true(standing_at: &Standing, height: u32) -> bool
    ensures { result ≡ (steps.present (standing standing_at.now)).slot (OnStack (height - 1)) }
{
    let place = height.saturating_sub(1) as u64;
    stacked_is_true(standing_at.method, standing_at.word, place)
}

/// Adds what follows of a return.
pub fn add_returns(
    out: &mut Seq<Item>,
    standing_at: &Standing,
    op: &Op,
    height: u32,
) -> Result<(), Memory>
    ensures { OnOk result (out.new ≡ out.old ++ steps.returns (standing standing_at.now) op.now height) }
{
    let result = match op {
        Op::Return(Some(_)) => top_is_true(standing_at, height),
        Op::Return(None) => false,
        _ => return Ok(()),
    };
    out.push(Item::Normal {
        method: standing_at.m as u64,
        entry: standing_at.entry,
        result,
        dirt: dirt_is_true(standing_at.method, standing_at.word),
    })
}

// The number of the bags of a token.
fn bag(p: &Program, token: u32) -> u64
    ensures { result ≡ steps.bag p.now token }
{
    p.fields().len() + token as u64
}

// The number of the cell into which an operation stores.
fn stored_cell(p: &Program, op: &Op) -> Option<u64>
    ensures { result ≡ steps.stored_cell p.now op.now }
{
    match op {
        Op::PutField(field) | Op::PutStatic(field) => Some(field.0 as u64),
        Op::ArrStore(Kind::R) => Some(bag(p, rarr_token(p))),
        Op::ArrStore(Kind::P1 | Kind::P2) => Some(bag(p, parr_token(p))),
        _ => None,
    }
}

/// Adds what follows of a write.
pub fn add_writes(
    out: &mut Seq<Item>,
    p: &Program,
    standing_at: &Standing,
    op: &Op,
    height: u32,
) -> Result<(), Memory>
    ensures { OnOk result (out.new ≡ out.old ++ steps.writes p.now (standing standing_at.now) op.now height) }
{
    match stored_cell(p, op) {
        Some(cell) if top_is_true(standing_at, height) => out.push(Item::Stored { cell }),
        _ => Ok(()),
    }
}

// What a library call puts into the objects that it changes.
fn puts_in(standing_at: &Standing, call: &CallOp, height: u32) -> bool
    requires { operations.arguments call.now ≤ height }
    ensures { result ≡ formulas.put_in (steps.present (standing standing_at.now)) call.now (height - operations.arguments call.now) }
{
    let count = arguments(call) as u32;
    let any = some_stacked(standing_at.method, standing_at.word, height - count, count);
    match call.row.flow {
        RowFlow::Always => true,
        RowFlow::Never | RowFlow::Args => any,
    }
}

// Adds that something tainted is in the bags of a token, if that is in a set.
fn add_taker(out: &mut Seq<Item>, p: &Program, takers: &TokenSet, token: u32) -> Result<(), Memory>
    ensures { OnOk result (out.new ≡ out.old ++ steps.takes_by p.now takers.now token) }
{
    if is_in(takers, token) {
        out.push(Item::Stored {
            cell: bag(p, token),
        })
    } else {
        Ok(())
    }
}

// The same for each token of the set.
fn add_takers(out: &mut Seq<Item>, p: &Program, takers: &TokenSet) -> Result<(), Memory>
    ensures { OnOk result (out.new ≡ out.old ++ steps.takes_all p.now takers.now) }
{
    let count = token_count(p);
    for token in 0..count {
        add_taker(out, p, takers, token)?;
    }
    Ok(())
}

/// Adds what the takers of a library call take.
pub fn add_takes(
    out: &mut Seq<Item>,
    p: &Program,
    facts: &Facts,
    standing_at: &Standing,
    i: u32,
    op: &Op,
    height: u32,
) -> Result<(), Memory>
    requires { operations.pops op.now ≤ height }
    ensures { OnOk result (out.new ≡ out.old ++ steps.takes p.now facts.now (standing standing_at.now) i op.now height) }
{
    match op {
        Op::Call(call) if puts_in(standing_at, call, height) => {
            add_takers(out, p, facts.graph.takers(MethodId(standing_at.m), i))
        }
        _ => Ok(()),
    }
}
