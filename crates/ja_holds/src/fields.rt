ghost use Rattle.std.specs.Prelude.{◌≡◌, ◌↔◌, ℕ, ◌+◌, ◌≤◌, ◌<◌, length, IfOk, OnOk};
ghost use Rattle.ja_sets.specs.Sets.{Has};
ghost use Rattle.ja_facts.specs.ClassTables.{token_count, field_set};
ghost use Rattle.ja_facts.specs.FactTables.{empty_held, cell_count};
ghost use Rattle.ja_holds.specs.Inner.{IsReachedFrom};
ghost use Rattle.ja_holds.specs.Covers.{IsCover};
ghost use Rattle.ja_holds.specs.Searches.{AreDone, AreFields};

use crate::counts::{cell_count, token_count};
use crate::search::Found;
use crate::sets::next_below;
use ja_base::{FieldId, Memory};
use ja_facts::{ClassSets, Holds};
use ja_ir::{Program, Token};
use ja_sets::TokenSet;
use std::alloc::Global;

/// Which cells members of a set reach, as far as these were gone through.
#[derive(Drop)]
pub struct Cover {
    /// The tokens all of whose cells are held.
    pub covered: TokenSet,
    pub held: TokenSet,
}

// Adds what objects of a member of a set hold, unless it is covered: then a member that leads to it is.
fn cover_one(
    p: &Program,
    c: &ClassSets,
    found: &Found,
    set: &TokenSet,
    token: u32,
    cover: &mut Cover,
)
    requires done { AreDone p.now c.now found.now.spans found.now.holds.tokens 0 }
    requires inside { token < token_count p.now }
    requires member { Has set.now token }
    requires cover { IsCover p.now c.now set.now token cover.old }
    ensures { IsCover p.now c.now set.now (token + 1) cover.new }
{
    if !cover.covered.contains(token) {
        cover.covered.join(found.spans.at(token as u64));
        cover.held.join(found.holds.of_token(Token(token)));
    }
}

// Nothing is covered yet.
fn nothing_covered(
    alloc: Global,
    p: &Program,
    c: &ClassSets,
    set: &TokenSet,
) -> Result<Cover, Memory>
    ensures { IfOk result (IsCover p.now c.now set.now 0) }
{
    let covered = TokenSet::new(alloc, token_count(p))?;
    let held = TokenSet::new(alloc, cell_count(p))?;
    Ok(Cover { covered, held })
}

// Covers all members of a set.
fn cover_all(
    alloc: Global,
    p: &Program,
    c: &ClassSets,
    found: &Found,
    set: &TokenSet,
) -> Result<Cover, Memory>
    requires { AreDone p.now c.now found.now.spans found.now.holds.tokens 0 }
    ensures { IfOk result (IsCover p.now c.now set.now (token_count p.now)) }
{
    let n = token_count(p);
    let mut all = nothing_covered(alloc, p, c, set)?;
    let mut from = 0;
    for _i in 0..n {
        match next_below(set, from, n) {
            Some(token) => {
                cover_one(p, c, found, set, token, &mut all);
                from = token + 1;
            }
            None => break,
        }
    }
    Ok(all)
}

// The cells that what a field refers to may reach.
fn of_field(
    alloc: Global,
    p: &Program,
    c: &ClassSets,
    found: &Found,
    f: u32,
) -> Result<TokenSet, Memory>
    requires { AreDone p.now c.now found.now.spans found.now.holds.tokens 0 }
    ensures size { IfOk result (λ set. length set ≡ cell_count p.now) }
    ensures each { IfOk result (λ set. (x : ℕ) → Has set x ↔ IsReachedFrom p.now c.now (field_set c.now f) x) }
{
    let Cover { covered: _, held } = cover_all(alloc, p, c, found, c.field(FieldId(f)))?;
    Ok(held)
}

// Finds what a field refers to may reach, where all fields before it are done.
fn find_field(
    alloc: Global,
    p: &Program,
    c: &ClassSets,
    f: u32,
    found: &mut Found,
) -> Result<(), Memory>
    requires done { AreDone p.now c.now found.old.spans found.old.holds.tokens 0 }
    requires inside { f < length p.now.fields }
    requires fields { AreFields p.now c.now f found.old.holds.fields }
    ensures spans { found.new.spans ≡ found.old.spans }
    ensures tokens { found.new.holds.tokens ≡ found.old.holds.tokens }
    ensures fields { OnOk result (AreFields p.now c.now (f + 1) found.new.holds.fields) }
{
    match of_field(alloc, p, c, found, f) {
        Ok(set) => {
            *found.holds.of_field_mut(FieldId(f)) = set;
            Ok(())
        }
        Err(error) => Err(error),
    }
}

/// What is held by tokens, with what is held by fields.
pub fn with_fields(
    alloc: Global,
    p: &Program,
    c: &ClassSets,
    mut found: Found,
) -> Result<Holds, Memory>
    requires done { AreDone p.now c.now found.spans found.holds.tokens 0 }
    requires fields { found.holds.fields ≡ (empty_held p.now).fields }
    ensures tokens { IfOk result (λ holds. holds.tokens ≡ found.holds.tokens) }
    ensures fields { IfOk result (λ holds. AreFields p.now c.now (length p.now.fields) holds.fields) }
{
    for f in 0..p.fields().len() {
        find_field(alloc, p, c, f as u32, &mut found)?;
    }
    let Found { spans: _, holds } = found;
    Ok(holds)
}
