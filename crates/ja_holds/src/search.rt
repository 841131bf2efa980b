ghost use Rattle.std.specs.Prelude.{◌≡◌, ◌⊎◌, ◌↔◌, ℕ, ◌+◌, ◌≤◌, ◌<◌, true, false, length, IfOk};
ghost use Rattle.ja_sets.specs.Sets.{Has, Lacks};
ghost use Rattle.ja_facts.specs.ClassTables.{token_count};
ghost use Rattle.ja_facts.specs.FactTables.{cell_count};
ghost use Rattle.ja_holds.specs.Inner.{AreDeclared, Follows, HasCells, HasTokens, Owns, lacking};
ghost use Rattle.ja_holds.specs.Searches.{IsSearch, AreDone, Finds};

use crate::classes::{Classes, add_by_class};
use crate::counts::{absorbs, cell_count, token_count};
use crate::sets::add_members;
use ja_base::Memory;
use ja_facts::{ClassSets, Holds, Rows};
use ja_ir::{Program, Token};
use ja_sets::TokenSet;
use std::alloc::Global;

/// What is found of tokens: where objects of each lead, and what they hold.
#[derive(Drop)]
pub struct Found {
    pub spans: Rows<TokenSet>,
    pub holds: Holds,
}

/// A search from a token.
#[derive(Drop)]
pub struct Search {
    /// The token. All greater ones are done.
    pub start: u32,
    /// The tokens that it leads to, as far as is found.
    pub span: TokenSet,
    /// Those of them from which has been gone on.
    pub handled: TokenSet,
    /// The cells that are held, as far as is found.
    pub held: TokenSet,
}

// Adds where an object of a token leads at once.
fn follow(p: &Program, c: &ClassSets, tokens: &Rows<TokenSet>, token: u32, span: &mut TokenSet)
    requires declared { HasTokens p.now c.now (length p.now.fields) tokens.now }
    requires size { length span.old ≡ token_count p.now }
    ensures size { length span.new ≡ token_count p.now }
    ensures has { (v : ℕ) → Has span.new v ↔ (Has span.old v ⊎ (Follows p.now c.now token v × (v < token_count p.now))) }
{
    let n = token_count(p);
    add_by_class(p, token, n, tokens, span);
    if absorbs(p, token) {
        add_members(span, n, c.bag(Token(token)));
    }
}

// Adds the cells of an object of a token itself.
fn own(p: &Program, cells: &Rows<TokenSet>, token: u32, held: &mut TokenSet)
    requires declared { HasCells p.now (length p.now.fields) cells.now }
    requires size { length held.old ≡ cell_count p.now }
    ensures size { length held.new ≡ cell_count p.now }
    ensures has { (x : ℕ) → Has held.new x ↔ (Has held.old x ⊎ Owns p.now token x) }
{
    add_by_class(p, token, cell_count(p), cells, held);
    if absorbs(p, token) {
        held.add(p.fields().len() as u32 + token);
    }
}

// Goes on from a token that is not done.
fn visit(p: &Program, c: &ClassSets, classes: &Classes, token: u32, search: &mut Search)
    requires declared { AreDeclared p.now c.now classes.now }
    requires search { IsSearch p.now c.now search.old }
    requires found { Has search.old.span token }
    requires new { Lacks search.old.handled token }
    ensures search { IsSearch p.now c.now search.new }
    ensures start { search.new.start ≡ search.old.start }
    ensures falls { lacking search.new.handled < lacking search.old.handled }
{
    follow(p, c, &classes.tokens, token, &mut search.span);
    own(p, &classes.cells, token, &mut search.held);
    search.handled.add(token);
}

// Takes over what is found of a token that is done.
fn recall(p: &Program, c: &ClassSets, found: &Found, token: u32, search: &mut Search)
    requires done { AreDone p.now c.now found.now.spans found.now.holds.tokens (search.old.start + 1) }
    requires search { IsSearch p.now c.now search.old }
    requires later { search.old.start < token }
    requires found { Has search.old.span token }
    requires new { Lacks search.old.handled token }
    ensures search { IsSearch p.now c.now search.new }
    ensures start { search.new.start ≡ search.old.start }
    ensures falls { lacking search.new.handled < lacking search.old.handled }
{
    let span = found.spans.at(token as u64);
    search.span.join(span);
    search.handled.join(span);
    search.held.join(found.holds.of_token(Token(token)));
}

// Goes on from a token that is found and has not been handled, and says whether it is one.
fn turn(
    p: &Program,
    c: &ClassSets,
    classes: &Classes,
    found: &Found,
    token: u32,
    search: &mut Search,
) -> bool
    requires declared { AreDeclared p.now c.now classes.now }
    requires done { AreDone p.now c.now found.now.spans found.now.holds.tokens (search.old.start + 1) }
    requires search { IsSearch p.now c.now search.old }
    requires inside { token < token_count p.now }
    ensures search { IsSearch p.now c.now search.new }
    ensures start { search.new.start ≡ search.old.start }
    ensures idle { result ≡ false → search.new ≡ search.old }
    ensures handled { result ≡ false → Has search.old.span token → Has search.old.handled token }
    ensures falls { result ≡ true → lacking search.new.handled < lacking search.old.handled }
{
    if !search.span.contains(token) || search.handled.contains(token) {
        return false;
    }
    if search.start < token {
        recall(p, c, found, token, search);
    } else {
        visit(p, c, classes, token, search);
    }
    true
}

// Goes on from each token that is found and has not been handled, and says whether there was one. The
// greater ones come first: they are done, and most of what they lead to is done with them.
fn round(p: &Program, c: &ClassSets, classes: &Classes, found: &Found, search: &mut Search) -> bool
    requires declared { AreDeclared p.now c.now classes.now }
    requires done { AreDone p.now c.now found.now.spans found.now.holds.tokens (search.old.start + 1) }
    requires search { IsSearch p.now c.now search.old }
    ensures search { IsSearch p.now c.now search.new }
    ensures start { search.new.start ≡ search.old.start }
    ensures closed { result ≡ false → (u : ℕ) → Has search.new.span u → Has search.new.handled u }
    ensures falls { result ≡ true → lacking search.new.handled < lacking search.old.handled }
{
    let n = token_count(p);
    let mut changed = false;
    for k in 0..n {
        changed |= turn(p, c, classes, found, n - 1 - k, search);
    }
    changed
}

// A search that has found its start.
fn begin(alloc: Global, p: &Program, c: &ClassSets, start: u32) -> Result<Search, Memory>
    requires { start < token_count p.now }
    ensures search { IfOk result (IsSearch p.now c.now) }
    ensures start { IfOk result (λ search. search.start ≡ start) }
{
    let n = token_count(p);
    let mut span = TokenSet::new(alloc, n)?;
    span.add(start);
    let handled = TokenSet::new(alloc, n)?;
    let held = TokenSet::new(alloc, cell_count(p))?;
    Ok(Search {
        start,
        span,
        handled,
        held,
    })
}

/// Where objects of a token lead, and what they hold.
pub fn search_from(
    alloc: Global,
    p: &Program,
    c: &ClassSets,
    classes: &Classes,
    found: &Found,
    start: u32,
) -> Result<Search, Memory>
    requires declared { AreDeclared p.now c.now classes.now }
    requires done { AreDone p.now c.now found.now.spans found.now.holds.tokens (start + 1) }
    requires inside { start < token_count p.now }
    ensures { IfOk result (Finds p.now c.now start) }
{
    let mut search = begin(alloc, p, c, start)?;
    'rounds: while round(p, c, classes, found, &mut search) {}
    Ok(search)
}
