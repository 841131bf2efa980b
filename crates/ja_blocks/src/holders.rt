ghost use Rattle.std.specs.Prelude.{◌≡◌, ◌↔◌, ◌<◌, ◌^◌, IfOk, OnOk, IsTrue, length};
ghost use Rattle.ja_sets.specs.Sets.{Has};
ghost use Rattle.ja_facts.specs.FactTables.{cell_count};
ghost use Rattle.ja_blocks.specs.Index.{IsIndex, IsNoted};
ghost use Rattle.ja_blocks.specs.Readers.{MayHold};

use crate::note::note;
use crate::readers::empty_lists;
use ja_base::{FieldId, Memory, Numbers};
use ja_facts::Holds;
use ja_ir::Program;
use ja_sets::TokenSet;
use std::alloc::Global;

/// Whether a number is in a set.
fn has(set: &TokenSet, x: u32) -> bool
    ensures { IsTrue result ↔ Has set.now x }
{
    match set.next_from(x) {
        Some(next) => next == x,
        None => false,
    }
}

/// Adds a field to the lists of the members of a set.
fn note_members(lists: &mut Vec<Numbers>, set: &TokenSet, field: u64) -> Result<(), Memory>
    requires few { length lists.old.items < 2 ^ 32 }
    ensures { OnOk result (IsNoted lists.old.items lists.new.items (λ k x. Has set.now k × (x ≡ field))) }
{
    for cell in 0..lists.len() as u32 {
        if has(set, cell) {
            note(lists, u64::from(cell), field)?;
        }
    }
    Ok(())
}

/// For each field or bag the fields that may hold what was stored there.
pub fn holders_of(alloc: Global, p: &Program, holds: &Holds) -> Result<Vec<Numbers>, Memory>
    requires { length holds.now.fields ≡ length p.now.fields }
    ensures { IfOk result (λ lists. IsIndex (cell_count p.now) lists.items (MayHold holds.now (length p.now.fields))) }
{
    let fields = p.fields().len() as u32;
    let cells = p.fields().len() + p.classes().len() + 4;
    let mut lists = empty_lists(alloc, cells as usize)?;
    for field in 0..fields {
        note(&mut lists, u64::from(field), u64::from(field))?;
        note_members(&mut lists, holds.of_field(FieldId(field)), u64::from(field))?;
    }
    Ok(lists)
}
