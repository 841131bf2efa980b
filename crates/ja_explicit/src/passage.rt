ghost use Rattle.std.specs.Prelude.{◌≡◌, ◌++◌, ◌==◌, ◌&&◌, ◌≤◌, ◌<◌, ◌^◌, ◌+◌, ◌-◌, [], ◌∷◌, false, Some, Option, length, map, slice_get, OnOk, if◌then◌else◌};
ghost use Rattle.ja_tokens.specs.Shapes.{place_meant};
ghost use Rattle.ja_clauses.specs.Tables.{affected_by};
ghost use Rattle.ja_explicit.specs.Tables.{items_of};
ghost use Rattle.ja_explicit.specs.InnerSteps as steps;
ghost use Rattle.ja_explicit.specs.InnerRules.{standing, passage};

use crate::item::Item;
use crate::landing::{add_at_all, add_lands_all};
use crate::rule::Rule;
use crate::standing::Standing;
use crate::stepping::next_words;
use crate::table::Table;
use ja_base::{Memory, Seq};
use ja_clauses::{Summary, Through};
use ja_tokens::ThrownTo;
use std::alloc::Global;

/// A way through method `n` with a word of parameters: whether it answers, at which instructions control
/// comes back, and where exceptions go.
#[derive(Clone, Copy)]
pub struct Passage<'a> {
    pub n: u64,
    pub given: u32,
    pub through: Through<'a>,
    pub answers: bool,
    pub next: &'a [u64],
    pub places: &'a [ThrownTo],
}

// Adds what follows where the method returns.
fn add_returns(
    alloc: Global,
    out: &mut Seq<Item>,
    standing_at: &Standing,
    way: &Passage,
    summary: Summary,
) -> Result<(), Memory>
    ensures { OnOk result (out.new ≡ out.old ++ steps.returns_with (standing standing_at.now) (passage way.now) summary) }
{
    let method = standing_at.method;
    let rule = Rule::Returns(way.through, way.answers, summary);
    let words = next_words(alloc, method, &rule, method, standing_at.word)?;
    add_at_all(out, standing_at, way.next, words.as_slice())
}

// Adds what follows where the method throws.
fn add_throws(
    alloc: Global,
    out: &mut Seq<Item>,
    standing_at: &Standing,
    way: &Passage,
    summary: Summary,
) -> Result<(), Memory>
    ensures { OnOk result (out.new ≡ out.old ++ steps.throws_with (standing standing_at.now) (passage way.now) summary) }
{
    let method = standing_at.method;
    let rule = Rule::Throws(way.through, summary);
    let words = next_words(alloc, method, &rule, method, standing_at.word)?;
    add_lands_all(alloc, out, standing_at, way.places, words.as_slice())
}

// Whether the numbers are those of a way.
fn is_of(way: &Passage, n: u64, given: u32) -> bool
    ensures { result ≡ ((n == way.now.n) && (given == way.now.given)) }
{
    n == way.n && given == way.given
}

// Adds what follows where a fact tells an end of the method.
fn add_ends_with(
    alloc: Global,
    out: &mut Seq<Item>,
    standing_at: &Standing,
    way: &Passage,
    item: Item,
) -> Result<(), Memory>
    ensures { OnOk result (out.new ≡ out.old ++ steps.ends_with (standing standing_at.now) (passage way.now) item) }
{
    match item {
        Item::Normal {
            method,
            entry,
            result,
            dirt,
        } if is_of(way, method, entry) => {
            let summary = Summary {
                result,
                dirt,
                exc: false,
            };
            add_returns(alloc, out, standing_at, way, summary)
        }
        Item::Threw {
            method,
            entry,
            dirt,
            exc,
        } if is_of(way, method, entry) => {
            let summary = Summary {
                result: false,
                dirt,
                exc,
            };
            add_throws(alloc, out, standing_at, way, summary)
        }
        _ => Ok(()),
    }
}

// Adds the same for all facts of a table.
fn add_ends_with_each(
    alloc: Global,
    out: &mut Seq<Item>,
    table: &Table,
    standing_at: &Standing,
    way: &Passage,
) -> Result<(), Memory>
    ensures { OnOk result (out.new ≡ out.old ++ steps.ends_with_each (standing standing_at.now) (passage way.now) (items_of table.now)) }
{
    let count = table.len();
    for k in 0..count {
        match table.at(k) {
            Some(item) => add_ends_with(alloc, out, standing_at, way, item)?,
            None => return Ok(()),
        }
    }
    Ok(())
}

/// Adds what follows of a way through a method.
pub fn add_goes_through(
    alloc: Global,
    out: &mut Seq<Item>,
    table: &Table,
    standing_at: &Standing,
    way: &Passage,
) -> Result<(), Memory>
    ensures { OnOk result (out.new ≡ out.old ++ steps.goes_through (items_of table.now) (standing standing_at.now) (passage way.now)) }
{
    out.push(Item::Context {
        method: way.n,
        entry: way.given,
    })?;
    add_ends_with_each(alloc, out, table, standing_at, way)
}
