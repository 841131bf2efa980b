ghost use Rattle.std.specs.Prelude.{◌≡◌, ◌⊎◌, ◌↔◌, ℕ, ◌+◌, ◌≤◌, ◌<◌, All, length, IfOk};
ghost use Rattle.ja_sets.specs.Sets.{Has};
ghost use Rattle.ja_facts.specs.ClassTables.{token_count};
ghost use Rattle.ja_facts.specs.FactTables.{cell_count};
ghost use Rattle.ja_holds.specs.Inner.{HasCells, HasTokens, AreDeclared, ByClass, InSets};
ghost use Rattle.ja_holds.specs.Sized.{AreSets};

use crate::counts::{cell_count, token_count};
use crate::sets::{add_at, add_members_at, empty_sets};
use ja_base::{ClassId, FieldId, Memory};
use ja_facts::{ClassSets, Rows};
use ja_ir::{Program, is_static};
use ja_sets::TokenSet;
use std::alloc::Global;

/// For each class the fields of objects that it declares itself.
#[derive(Drop)]
pub struct Classes {
    /// Their cells.
    pub cells: Rows<TokenSet>,
    /// The tokens of what they refer to.
    pub tokens: Rows<TokenSet>,
}

/// For each class the fields of objects that it declares itself, and what they refer to.
pub fn classes_of(alloc: Global, p: &Program, c: &ClassSets) -> Result<Classes, Memory>
    ensures { IfOk result (AreDeclared p.now c.now) }
{
    let cells = declared_cells(alloc, p)?;
    let tokens = declared_tokens(alloc, p, c)?;
    Ok(Classes { cells, tokens })
}

// For each class the fields of objects that it declares itself.
fn declared_cells(alloc: Global, p: &Program) -> Result<Rows<TokenSet>, Memory>
    ensures { IfOk result (HasCells p.now (length p.now.fields)) }
{
    let mut rows = empty_sets(alloc, p.classes().len(), cell_count(p))?;
    for f in 0..p.fields().len() {
        note_cell(p, f as u32, &mut rows);
    }
    Ok(rows)
}

// Notes a field at the class that declares it, if it is one of objects.
fn note_cell(p: &Program, f: u32, rows: &mut Rows<TokenSet>)
    requires inside { f < length p.now.fields }
    requires rows { HasCells p.now f rows.old }
    ensures { HasCells p.now (f + 1) rows.new }
{
    let field = p.fields().at(f as u64);
    if !is_static(field.flags) {
        add_at(rows, field.class.0, f);
    }
}

// For each class the tokens of what the fields of objects refer to that it declares itself.
fn declared_tokens(alloc: Global, p: &Program, c: &ClassSets) -> Result<Rows<TokenSet>, Memory>
    ensures { IfOk result (HasTokens p.now c.now (length p.now.fields)) }
{
    let mut rows = empty_sets(alloc, p.classes().len(), token_count(p))?;
    for f in 0..p.fields().len() {
        note_tokens(p, c, f as u32, &mut rows);
    }
    Ok(rows)
}

// Notes what a field refers to at the class that declares it, if it is one of objects.
fn note_tokens(p: &Program, c: &ClassSets, f: u32, rows: &mut Rows<TokenSet>)
    requires inside { f < length p.now.fields }
    requires rows { HasTokens p.now c.now f rows.old }
    ensures { HasTokens p.now c.now (f + 1) rows.new }
{
    let field = p.fields().at(f as u64);
    if is_static(field.flags) {
        return;
    }
    let set = c.field(FieldId(f));
    add_members_at(rows, p.classes().len(), field.class.0, token_count(p), set);
}

// Adds what is noted at these classes to a set of numbers below `n`.
fn add_sets(classes: &[ClassId], n: u32, rows: &Rows<TokenSet>, to: &mut TokenSet)
    requires inside { All (λ class. class.0 < length rows.now) classes.now }
    requires sets { AreSets (length rows.now) n rows.now }
    requires size { length to.old ≡ n }
    ensures size { length to.new ≡ n }
    ensures has { (x : ℕ) → Has to.new x ↔ (Has to.old x ⊎ InSets rows.now classes.now (length classes.now) x) }
{
    for class in classes {
        to.join(rows.at(class.0 as u64));
    }
}

/// Adds what is noted at the classes at or above a token to a set of numbers below `n`: nothing where
/// the token is no program class.
pub fn add_by_class(p: &Program, token: u32, n: u32, rows: &Rows<TokenSet>, to: &mut TokenSet)
    requires sets { AreSets (length p.now.classes) n rows.now }
    requires size { length to.old ≡ n }
    ensures size { length to.new ≡ n }
    ensures has { (x : ℕ) → Has to.new x ↔ (Has to.old x ⊎ ByClass p.now rows.now token x) }
{
    if (token as u64) < p.classes().len() {
        add_sets(p.classes().at(token as u64).supers.as_slice(), n, rows, to);
    }
}
