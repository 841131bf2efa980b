ghost use Rattle.std.specs.Prelude.{◌≡◌, ◌++◌, ◌≤◌, ◌<◌, [], length, map, IfOk, OnOk, slice_index_or};
ghost use Rattle.ja_ir.specs.Handlers.{dest_among};
ghost use Rattle.ja_facts.specs.ClassTables.{thrown_set};
ghost use Rattle.ja_tokens.specs.Shapes.{place_meant};
ghost use Rattle.ja_explicit.specs.InnerSteps as steps;
ghost use Rattle.ja_explicit.specs.InnerRules.{standing};

use crate::item::Item;
use crate::rule::Rule;
use crate::standing::Standing;
use crate::stepping::next_words;
use crate::stored::{is_in, token_count};
use crate::words::{dirt_is_true, exc_is_true};
use ja_base::{Memory, MethodId, Seq};
use ja_facts::Facts;
use ja_ir::{Method, Program};
use ja_sets::TokenSet;
use ja_tokens::{ThrownTo, thrown_to};
use std::alloc::Global;

// Adds that instructions are come to with a word.
fn add_at_each(
    out: &mut Seq<Item>,
    standing: &Standing,
    word: u32,
    next: &[u64],
) -> Result<(), Memory>
    ensures { OnOk result (out.new ≡ out.old ++ steps.at_each standing.now.m standing.now.entry word next.now) }
{
    for index in next {
        out.push(Item::At {
            method: standing.m as u64,
            index: *index,
            entry: standing.entry,
            now: word,
        })?;
    }
    Ok(())
}

/// Adds that instructions are come to with each of some words.
pub fn add_at_all(
    out: &mut Seq<Item>,
    standing: &Standing,
    next: &[u64],
    words: &[u32],
) -> Result<(), Memory>
    ensures { OnOk result (out.new ≡ out.old ++ steps.at_all standing.now.m standing.now.entry next.now words.now) }
{
    for word in words {
        add_at_each(out, standing, *word, next)?;
    }
    Ok(())
}

// Adds that a handler is come to with what an exception left.
fn add_caught(
    alloc: Global,
    out: &mut Seq<Item>,
    standing_at: &Standing,
    word: u32,
    index: u32,
) -> Result<(), Memory>
    ensures { OnOk result (out.new ≡ out.old ++ steps.lands_at (standing standing_at.now) word (place_meant (ThrownTo.Handler index))) }
{
    let method = standing_at.method;
    let words = next_words(alloc, method, &Rule::Caught, method, word)?;
    add_at_all(out, standing_at, &[index as u64], words.as_slice())
}

// Adds that an exception goes to a place.
fn add_lands_at(
    alloc: Global,
    out: &mut Seq<Item>,
    standing_at: &Standing,
    word: u32,
    place: ThrownTo,
) -> Result<(), Memory>
    ensures { OnOk result (out.new ≡ out.old ++ steps.lands_at (standing standing_at.now) word (place_meant place)) }
{
    match place {
        ThrownTo::Handler(index) => add_caught(alloc, out, standing_at, word, index),
        ThrownTo::Caller => out.push(Item::Threw {
            method: standing_at.m as u64,
            entry: standing_at.entry,
            dirt: dirt_is_true(standing_at.method, word),
            exc: exc_is_true(standing_at.method, word),
        }),
    }
}

// Adds that an exception goes to each of some places.
fn add_lands_each(
    alloc: Global,
    out: &mut Seq<Item>,
    standing_at: &Standing,
    word: u32,
    places: &[ThrownTo],
) -> Result<(), Memory>
    ensures { OnOk result (out.new ≡ out.old ++ steps.lands_each (standing standing_at.now) word (map place_meant places.now)) }
{
    for place in places {
        add_lands_at(alloc, out, standing_at, word, *place)?;
    }
    Ok(())
}

/// Adds that an exception that left one of some words goes to each of some places.
pub fn add_lands_all(
    alloc: Global,
    out: &mut Seq<Item>,
    standing_at: &Standing,
    places: &[ThrownTo],
    words: &[u32],
) -> Result<(), Memory>
    ensures { OnOk result (out.new ≡ out.old ++ steps.lands_all (standing standing_at.now) (map place_meant places.now) words.now) }
{
    for word in words {
        add_lands_each(alloc, out, standing_at, *word, places)?;
    }
    Ok(())
}

// Adds places to a list.
fn add_places(places: &mut Seq<ThrownTo>, more: &[ThrownTo]) -> Result<(), Memory>
    ensures { OnOk result (map place_meant places.new ≡ map place_meant places.old ++ map place_meant more.now) }
{
    for place in more {
        places.push(*place)?;
    }
    Ok(())
}

// Adds where an exception of a token goes that is in a set.
fn add_places_of_token(
    alloc: Global,
    places: &mut Seq<ThrownTo>,
    p: &Program,
    thrown: &TokenSet,
    method: &Method,
    i: u32,
    token: u32,
) -> Result<(), Memory>
    ensures { OnOk result (map place_meant places.new ≡ map place_meant places.old ++ steps.places_of_token p.now thrown.now method.now i token) }
{
    if !is_in(thrown, token) {
        return Ok(());
    }
    let more = thrown_to(alloc, p, method.handlers.as_slice(), i, token)?;
    add_places(places, more.as_slice())
}

/// Where what an instruction throws goes.
pub fn places_of(
    alloc: Global,
    p: &Program,
    facts: &Facts,
    m: u32,
    i: u32,
    method: &Method,
) -> Result<Seq<ThrownTo>, Memory>
    ensures { IfOk result (λ places. map place_meant places ≡ steps.places_of p.now facts.now m i method.now) }
{
    let thrown = facts.sets.thrown(MethodId(m), i);
    let mut places = Seq::new(alloc);
    let count = token_count(p);
    for token in 0..count {
        add_places_of_token(alloc, &mut places, p, thrown, method, i, token)?;
    }
    Ok(places)
}
