ghost use Rattle.std.specs.Prelude.{◌≡◌, ◌&&◌, ◌||◌, ◌<◌, false, [], length, slice_index_or};
ghost use Rattle.ja_facts.specs.ClassTables.{token_count};
ghost use Rattle.ja_facts.specs.FactTables.{cell_count};
ghost use Rattle.ja_facts.specs.Formulas.{any_below};
ghost use Rattle.ja_explicit.specs.Tables.{items_of};
ghost use Rattle.ja_explicit.specs.InnerSteps as steps;
ghost use Rattle.ja_explicit.specs.InnerStarts as starts;
ghost use Rattle.ja_explicit.specs.InnerRules.{HasFields};

use crate::item::Item;
use crate::table::Table;
use ja_base::{FieldId, MethodId};
use ja_facts::Facts;
use ja_ir::{Program, Token};
use ja_sets::TokenSet;

/// The number of tokens.
pub fn token_count(p: &Program) -> u32
    ensures { result ≡ token_count p.now }
{
    p.classes().len() as u32 + 4
}

/// The number of fields and bags.
pub fn cell_count(p: &Program) -> u32
    ensures { result ≡ cell_count p.now }
{
    p.fields().len() as u32 + token_count(p)
}

/// Whether a number is in a set.
pub fn is_in(set: &TokenSet, x: u32) -> bool
    ensures { result ≡ slice_index_or set.now x false }
{
    match set.next_from(x) {
        Some(y) => y == x,
        None => false,
    }
}

/// Whether something tainted may have been stored into the cell of a number.
pub fn stores(table: &Table, cell: u64) -> bool
    ensures { result ≡ steps.stores (items_of table.now) cell }
{
    table.has(Item::Stored { cell })
}

// Whether something tainted may have been stored into a cell of a set.
fn some_stores(table: &Table, set: &TokenSet, count: u32) -> bool
    ensures { result ≡ any_below (λ c. slice_index_or set.now c false && steps.stores (items_of table.now) c) count }
{
    for c in 0..count {
        if is_in(set, c) && stores(table, c as u64) {
            return true;
        }
    }
    false
}

// Whether what a field refers to may reach a cell into which something tainted was stored.
fn field_stores(p: &Program, facts: &Facts, table: &Table, field: FieldId) -> bool
    requires { HasFields p.now facts.now }
    ensures { result ≡ any_below (λ c. slice_index_or (slice_index_or facts.now.holds.fields field.0 []) c false && steps.stores (items_of table.now) c) (cell_count p.now) }
{
    if field.0 as u64 >= p.fields().len() {
        return false;
    }
    some_stores(table, facts.holds.of_field(field), cell_count(p))
}

/// Whether a field may hold something tainted, by what was stored.
pub fn answers(p: &Program, facts: &Facts, table: &Table, field: FieldId) -> bool
    requires { HasFields p.now facts.now }
    ensures { result ≡ steps.answers p.now facts.now (items_of table.now) field.0 }
{
    stores(table, field.0 as u64) || field_stores(p, facts, table, field)
}

// Whether an object of a token may reach a cell into which something tainted was stored.
fn token_stores(p: &Program, facts: &Facts, table: &Table, token: u32) -> bool
    requires { token < length facts.now.holds.tokens }
    ensures { result ≡ starts.token_stores p.now facts.now (items_of table.now) token }
{
    some_stores(table, facts.holds.of_token(Token(token)), cell_count(p))
}

/// Whether some object of a parameter may.
pub fn param_stores(p: &Program, facts: &Facts, table: &Table, m: MethodId, k: u32) -> bool
    requires { length facts.now.holds.tokens ≡ token_count p.now }
    ensures { result ≡ starts.param_stores p.now facts.now (items_of table.now) m.0 k }
{
    let set = facts.sets.param(m, k);
    let count = token_count(p);
    for t in 0..count {
        if is_in(set, t) && token_stores(p, facts, table, t) {
            return true;
        }
    }
    false
}
