//! The places of a table's rows by the classes that they list.
ghost use Rattle.std.specs.Prelude.{◌≡◌, ◌++◌, List, ℕ, IfOk, OnOk};
ghost use Rattle.ja_base.specs.Index.{numbers_at};
ghost use Rattle.ja_lib.specs.InnerIndex.{place_for_each, IsIndexOf};

use crate::TableRow;
use ja_base::{Memory, Name, NumbersByName};
use std::alloc::Global;

/// For each class that rows list, the places of these rows in table order.
pub(crate) fn places_by_class(alloc: Global, rows: &[TableRow]) -> Result<NumbersByName, Memory>
    ensures { IfOk result (IsIndexOf rows.now) }
{
    let mut index = NumbersByName::new(alloc);
    for (place, row) in rows.iter().enumerate() {
        note_row(&mut index, alloc, row.classes.as_slice(), place as u64)?;
    }
    Ok(index)
}

fn note_row(
    index: &mut NumbersByName,
    alloc: Global,
    classes: &[Name],
    place: u64,
) -> Result<(), Memory>
    ensures { OnOk result ((class : List ℕ) → numbers_at index.new class ≡ numbers_at index.old class ++ place_for_each place classes.now class) }
{
    for listed in classes {
        index.note(alloc, listed, place)?;
    }
    Ok(())
}
