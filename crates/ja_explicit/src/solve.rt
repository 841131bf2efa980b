ghost use Rattle.std.specs.Prelude.{◌≡◌, ◌⊎◌, ◌↔◌, ◌<◌, ◌≤◌, [], false, Some, Contains, length, map, slice_get, IfOk, IfSome, IfNone, OnOk};
ghost use Rattle.ja_explicit.specs.declared.item.Item.{Item};
ghost use Rattle.ja_explicit.specs.Given.{AreGiven, AreNarrow};
ghost use Rattle.ja_explicit.specs.Tables.{items_of};
ghost use Rattle.ja_explicit.specs.InnerRounds.{IsSound, AreAllIn, IsClosed};
ghost use Rattle.ja_explicit.specs.InnerSteps.{follows};
ghost use Rattle.ja_explicit.specs.InnerStarts.{enters_each};

use crate::environment::add_starts;
use crate::following::add_follows;
use crate::item::Item;
use crate::table::Table;
use ja_base::{Memory, Seq};
use ja_facts::Facts;
use ja_ir::Program;
use std::alloc::Global;

// Adds facts to a table, and says whether one is new.
fn add_all(table: &mut Table, items: &[Item]) -> Result<bool, Memory>
    ensures members { OnOk result ((x : Item) → Contains (items_of table.new) x ↔ (Contains (items_of table.old) x ⊎ Contains items.now x)) }
    ensures idle { IfOk result (λ new. new ≡ false → items_of table.new ≡ items_of table.old) }
{
    let mut new = false;
    for item in items {
        new |= table.add(*item)?;
    }
    Ok(new)
}

// Adds what follows of a fact of a table, and says whether something is new.
fn settle(
    alloc: Global,
    p: &Program,
    facts: &Facts,
    table: &mut Table,
    item: Item,
) -> Result<bool, Memory>
    requires given { AreGiven p.now facts.now }
    requires narrow { AreNarrow p.now }
    requires there { Contains (items_of table.old) item }
    requires sound { IsSound p.now facts.now (items_of table.old) }
    ensures sound { OnOk result (IsSound p.now facts.now (items_of table.new)) }
    ensures idle { IfOk result (λ new. new ≡ false → items_of table.new ≡ items_of table.old) }
    ensures all { IfOk result (λ new. new ≡ false → AreAllIn (items_of table.old) (follows p.now facts.now (items_of table.old) item)) }
{
    let _whole = p.methods();
    let mut out = Seq::new(alloc);
    add_follows(alloc, &mut out, p, facts, table, item)?;
    let new = add_all(table, out.as_slice())?;
    Ok(new)
}

// Adds what the environment may call, and says whether something is new.
fn start(alloc: Global, p: &Program, facts: &Facts, table: &mut Table) -> Result<bool, Memory>
    requires given { AreGiven p.now facts.now }
    requires narrow { AreNarrow p.now }
    requires sound { IsSound p.now facts.now (items_of table.old) }
    ensures sound { OnOk result (IsSound p.now facts.now (items_of table.new)) }
    ensures idle { IfOk result (λ new. new ≡ false → items_of table.new ≡ items_of table.old) }
    ensures all { IfOk result (λ new. new ≡ false → AreAllIn (items_of table.old) (enters_each p.now facts.now (items_of table.old) p.now.entries)) }
{
    let _whole = p.methods();
    let mut out = Seq::new(alloc);
    add_starts(alloc, &mut out, p, facts, table)?;
    let new = add_all(table, out.as_slice())?;
    Ok(new)
}

// Adds what follows of each fact of a table, those that come among them, and says whether something is
// new.
fn round(alloc: Global, p: &Program, facts: &Facts, table: &mut Table) -> Result<bool, Memory>
    requires given { AreGiven p.now facts.now }
    requires narrow { AreNarrow p.now }
    requires sound { IsSound p.now facts.now (items_of table.old) }
    ensures sound { OnOk result (IsSound p.now facts.now (items_of table.new)) }
    ensures closed { IfOk result (λ new. new ≡ false → IsClosed p.now facts.now (items_of table.new)) }
{
    let mut new = start(alloc, p, facts, table)?;
    for k in 0..u64::MAX {
        match table.at(k) {
            Some(item) => new |= settle(alloc, p, facts, table, item)?,
            None => return Ok(new),
        }
    }
    Err(Memory)
}

/// The facts of the least solution. No memory holds as many as there are rounds.
pub fn least(alloc: Global, p: &Program, facts: &Facts) -> Result<Table, Memory>
    requires given { AreGiven p.now facts.now }
    requires narrow { AreNarrow p.now }
    ensures sound { IfOk result (λ table. IsSound p.now facts.now (items_of table)) }
    ensures closed { IfOk result (λ table. IsClosed p.now facts.now (items_of table)) }
{
    let mut table = Table::new(alloc);
    for _round in 0..u64::MAX {
        if !round(alloc, p, facts, &mut table)? {
            return Ok(table);
        }
    }
    Err(Memory)
}
