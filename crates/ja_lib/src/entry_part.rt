//! The tables of entries.
ghost use Rattle.std.specs.Prelude.{◌≡◌, ◌≤◌, length};
ghost use Rattle.toml.specs.View.{table_view};
ghost use Rattle.ja_lib.specs.File.{SpellsEntry};
ghost use Rattle.ja_lib.specs.InnerReading.{Finds};

use crate::EntryRow;
use crate::category::marks_at;
use crate::keys::{are_keys_among, value_at};
use crate::part::PartFault;
use crate::spelled::Spelled;
use crate::values::{any_text, desc, filled_text, positions_at, truth_at};
use ja_base::Name;
use std::alloc::Global;

impl Spelled for EntryRow {
    ghost spells = { SpellsEntry };

    fn read(
        alloc: Global,
        categories: &[Name],
        members: &toml::Table,
    ) -> Result<EntryRow, PartFault> {
        let keys = ["class", "method", "desc", "static", "marked", "marks"];
        if !are_keys_among(members, &keys) {
            return Err(PartFault::Wrong);
        }
        let class = any_text(alloc, value_at(members, "class"))?;
        let method = filled_text(alloc, value_at(members, "method"))?;
        let desc = desc(alloc, value_at(members, "desc"))?;
        let is_static = truth_at(value_at(members, "static")).ok_or(PartFault::Wrong)?;
        let marked = positions_at(alloc, value_at(members, "marked"))?;
        let marks = marks_at(alloc, categories, value_at(members, "marks"))?;
        if !is_static && class.bytes() == b"*".as_slice() {
            return Err(PartFault::Wrong);
        }
        Ok(EntryRow {
            class,
            is_static,
            method,
            desc,
            marked,
            marks,
        })
    }
}
