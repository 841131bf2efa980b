ghost use Rattle.std.specs.Prelude.{◌≡◌, ◌+◌, ◌<◌, length, slice_set, IfOk, OnOk};
ghost use Rattle.ja_facts.specs.ClassTables.{token_count};
ghost use Rattle.ja_facts.specs.FactTables.{empty_held};
ghost use Rattle.ja_holds.specs.Inner.{AreDeclared};
ghost use Rattle.ja_holds.specs.Searches.{AreDone};

use crate::classes::Classes;
use crate::counts::token_count;
use crate::search::{Found, Search, search_from};
use crate::sets::empty_sets;
use ja_base::Memory;
use ja_facts::{ClassSets, Holds};
use ja_ir::{Program, Token};
use std::alloc::Global;

// Nothing is found of tokens yet.
fn nothing_found(alloc: Global, p: &Program, c: &ClassSets) -> Result<Found, Memory>
    ensures done { IfOk result (λ found. AreDone p.now c.now found.spans found.holds.tokens (token_count p.now)) }
    ensures fields { IfOk result (λ found. found.holds.fields ≡ (empty_held p.now).fields) }
{
    let n = token_count(p);
    let spans = empty_sets(alloc, n as u64, n)?;
    let holds = Holds::new(alloc, p)?;
    Ok(Found { spans, holds })
}

// Finds what objects of a token hold, where all greater ones are done.
fn find_token(
    alloc: Global,
    p: &Program,
    c: &ClassSets,
    classes: &Classes,
    token: u32,
    found: &mut Found,
) -> Result<(), Memory>
    requires declared { AreDeclared p.now c.now classes.now }
    requires inside { token < token_count p.now }
    requires done { AreDone p.now c.now found.old.spans found.old.holds.tokens (token + 1) }
    ensures done { OnOk result (AreDone p.now c.now found.new.spans found.new.holds.tokens token) }
    ensures fields { found.new.holds.fields ≡ found.old.holds.fields }
{
    match search_from(alloc, p, c, classes, found, token) {
        Ok(search) => {
            put(token, search, found);
            Ok(())
        }
        Err(error) => Err(error),
    }
}

// Keeps what a search found.
fn put(token: u32, search: Search, found: &mut Found)
    requires span { token < length found.old.spans }
    requires held { token < length found.old.holds.tokens }
    ensures spans { found.new.spans ≡ slice_set found.old.spans token search.span }
    ensures tokens { found.new.holds.tokens ≡ slice_set found.old.holds.tokens token search.held }
    ensures fields { found.new.holds.fields ≡ found.old.holds.fields }
{
    let Search {
        start: _,
        span,
        handled: _,
        held,
    } = search;
    *found.spans.at_mut(token as u64) = span;
    *found.holds.of_token_mut(Token(token)) = held;
}

/// Where objects of each token lead, and what they hold. The greater ones come first: those of the
/// library, which lead to most others.
pub fn find_tokens(
    alloc: Global,
    p: &Program,
    c: &ClassSets,
    classes: &Classes,
) -> Result<Found, Memory>
    requires { AreDeclared p.now c.now classes.now }
    ensures done { IfOk result (λ found. AreDone p.now c.now found.spans found.holds.tokens 0) }
    ensures fields { IfOk result (λ found. found.holds.fields ≡ (empty_held p.now).fields) }
{
    let n = token_count(p);
    let mut found = nothing_found(alloc, p, c)?;
    for k in 0..n {
        find_token(alloc, p, c, classes, n - 1 - k, &mut found)?;
    }
    Ok(found)
}
