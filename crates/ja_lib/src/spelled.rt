//! Arrays of tables, each of which spells a thing.
ghost use Rattle.toml.specs.View.{table_view};
ghost use Rattle.toml.specs.Data.{Members};
ghost use Rattle.std.specs.Prelude.{◌≤◌, ℕ, List, length};
ghost use Rattle.ja_lib.specs.InnerReading.{Finds, FindsAll, AreTables};
ghost use Rattle.ja_base.specs.Limit.{max_categories};

use crate::part::PartFault;
use ja_base::{Memory, Name, Seq};
use std::alloc::Global;
use toml::Value;

/// A thing that a table of the file spells.
pub(crate) trait Spelled {
    ghost spells: { List (List ℕ) → Members → Self → Type 0 };

    /// What the table spells, where these are the categories of marks.
    fn read(alloc: Global, categories: &[Name], members: &toml::Table) -> Result<Self, PartFault>
        requires { length categories.now ≤ max_categories }
        ensures { Finds (spells categories.now (table_view members.now)) result };
}

/// Why an array of tables is not read.
#[derive(Debug, Drop, Clone, Copy)]
pub(crate) enum PlacedFault {
    /// The table at this place, counted from 0, is the first that breaks the rules.
    Wrong { place: u64 },
    /// Want of memory.
    Memory,
}

impl From<Memory> for PlacedFault {
    ghost use Rattle.std.specs.Prelude.{◌≡◌};
    ghost use Rattle.ja_lib.specs.declared.spelled.PlacedFault.TheVariants as placed;

    ghost from_gives = { λ _ e. e ≡ placed.Memory };

    fn from(_error: Memory) -> PlacedFault {
        PlacedFault::Memory
    }
}

/// What the tables spell, in order.
pub(crate) fn read_all<T: Spelled + Drop>(
    alloc: Global,
    categories: &[Name],
    values: &[Value],
) -> Result<Seq<T>, PlacedFault>
    requires { length categories.now ≤ max_categories }
    ensures { (tables : List Members) → AreTables values.now tables → FindsAll (T.spells categories.now) tables result }
{
    let mut things = Seq::new(alloc);
    for (place, value) in values.iter().enumerate() {
        let Some(members) = value.as_table() else {
            return Err(PlacedFault::Wrong {
                place: place as u64,
            });
        };
        match T::read(alloc, categories, members) {
            Ok(thing) => things.push(thing)?,
            Err(PartFault::Wrong) => return Err(PlacedFault::Wrong {
                place: place as u64,
            }),
            Err(PartFault::Memory) => return Err(PlacedFault::Memory),
        }
    }
    Ok(things)
}
