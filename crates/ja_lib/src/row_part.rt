//! The tables of rows.
ghost use Rattle.std.specs.Prelude.{◌≡◌, ◌≤◌, length};
ghost use Rattle.toml.specs.View.{table_view};
ghost use Rattle.ja_lib.specs.File.{SpellsMeaning, SpellsRow};
ghost use Rattle.ja_lib.specs.InnerReading.{Finds};
ghost use Rattle.ja_base.specs.Limit.{max_categories};

use crate::TableRow;
use crate::category::{category_at, marks_at};
use crate::keys::{are_keys_among, value_at};
use crate::part::PartFault;
use crate::spelled::Spelled;
use crate::values::{
    effect_at, filled_text, filled_texts, flow_at, may_be_desc, positions_at, result_at,
};
use ja_base::Name;
use ja_ir::LibRow;
use std::alloc::Global;

fn meaning(alloc: Global, categories: &[Name], members: &toml::Table) -> Result<LibRow, PartFault>
    requires { length categories.now ≤ max_categories }
    ensures { Finds (SpellsMeaning categories.now (table_view members.now)) result }
{
    let flow = flow_at(value_at(members, "flow")).ok_or(PartFault::Wrong)?;
    let effect = effect_at(value_at(members, "effect")).ok_or(PartFault::Wrong)?;
    let answer = result_at(value_at(members, "result")).ok_or(PartFault::Wrong)?;
    let sinks = positions_at(alloc, value_at(members, "sink"))?;
    let marks = marks_at(alloc, categories, value_at(members, "marks"))?;
    let category = category_at(categories, value_at(members, "category")).ok_or(PartFault::Wrong)?;
    Ok(LibRow {
        flow,
        effect,
        result: answer,
        sinks,
        marks,
        category,
    })
}

impl Spelled for TableRow {
    ghost spells = { SpellsRow };

    fn read(
        alloc: Global,
        categories: &[Name],
        members: &toml::Table,
    ) -> Result<TableRow, PartFault> {
        let keys = [
            "class", "method", "desc", "flow", "effect", "result", "sink", "marks", "category",
        ];
        if !are_keys_among(members, &keys) {
            return Err(PartFault::Wrong);
        }
        let classes = filled_texts(alloc, value_at(members, "class"))?;
        let method = filled_text(alloc, value_at(members, "method"))?;
        let desc = may_be_desc(alloc, value_at(members, "desc"))?;
        let meaning = meaning(alloc, categories, members)?;
        Ok(TableRow {
            classes,
            method,
            desc,
            meaning,
        })
    }
}
