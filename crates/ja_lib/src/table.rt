ghost use Rattle.std.specs.Prelude.{◌≡◌, ◌&&◌, slice_get, option_copied, IfOk};
ghost use Rattle.ja_lib.specs.Content.{all_marks};
ghost use Rattle.ja_lib.specs.Rows.{is_for_method, is_for_desc, row_for};
ghost use Rattle.ja_lib.specs.InnerIndex.{first_at};

use crate::category::all_marks;
use crate::index::places_by_class;
use crate::{EntryRows, TableRow, TableRows};
use ja_base::{Flags, Memory, Name, Names, NumbersByName};
use ja_ir::LibRow;
use std::alloc::Global;
use std::marker::Model;

/// What the calls of library methods do, and which methods the environment may call.
#[derive(Drop)]
pub struct Table {
    categories: Names,
    rows: TableRows,
    entries: EntryRows,
    index: NumbersByName,
}

impl Model for Table {
    ghost use Rattle.ja_lib.specs.Content.{Content};

    ghost Value = { Content };

    ghost use Rattle.ja_lib.specs.InnerIndex.{IsIndexOf};
    ghost use Rattle.ja_lib.specs.Content.{IsCategorized};

    ghost view = { λ table. record { categories = table.categories; rows = table.rows; entries = table.entries } };

    ghost invariant = { λ table. IsIndexOf table.rows table.index × IsCategorized (record { categories = table.categories; rows = table.rows; entries = table.entries }) };
}

impl Table {
    ghost use Rattle.ja_lib.specs.Content.{IsCategorized};

    /// The table of these categories of marks, rows and entries.
    pub(crate) fn new(
        alloc: Global,
        categories: Names,
        rows: TableRows,
        entries: EntryRows,
    ) -> Result<Table, Memory>
        requires { IsCategorized (record { categories = categories; rows = rows; entries = entries }) }
        ensures { IfOk result (λ table. table ≡ record { categories = categories; rows = rows; entries = entries }) }
    {
        let index = places_by_class(alloc, rows.as_slice())?;
        Ok(Table {
            categories,
            rows,
            entries,
            index,
        })
    }

    /// What the first row that fits a call of this method says, and `None` where no row fits. It takes
    /// no memory, and looks only at the rows that list the class.
    pub fn row_of(&self, class: &Name, method: &Name, desc: &Name) -> Option<&LibRow>
        ensures { option_copied result ≡ row_for self.now.rows class.now method.now desc.now }
    {
        first_row(&self.rows, self.index.at(class), method, desc)
    }

    /// The names of the categories of marks, in the table's order; none where there is one category, which has
    /// no name. It takes no memory.
    pub fn categories(&self) -> &Names
        ensures same { result.now ≡ self.now.categories }
        ensures about { IsCategorized self.now }
    {
        &self.categories
    }

    /// A flag for each category of marks, all of them set.
    pub fn all_marks(&self, alloc: Global) -> Result<Flags, Memory>
        ensures { IfOk result (λ marks. marks ≡ all_marks self.now.categories) }
    {
        all_marks(alloc, self.categories.as_slice())
    }

    /// The entry rows, in the table's order. It takes no memory.
    pub fn entries(&self) -> &EntryRows
        ensures { result.now ≡ self.now.entries }
    {
        &self.entries
    }
}

/// The row at a place, if it is there.
fn row_at(rows: &TableRows, place: u64) -> Option<&TableRow>
    ensures { option_copied result ≡ slice_get rows.now place }
{
    if place < rows.len() {
        Some(rows.at(place))
    } else {
        None
    }
}

/// What the first of the rows at these places that is for this method says.
fn first_row<'a>(
    rows: &'a TableRows,
    places: &[u64],
    method: &Name,
    desc: &Name,
) -> Option<&'a LibRow>
    ensures { option_copied result ≡ first_at rows.now method.now desc.now places.now }
{
    for place in places {
        if let Some(row) = row_at(rows, *place) {
            if row.is_for(method, desc) {
                return Some(&row.meaning);
            }
        }
    }
    None
}

impl TableRow {
    fn is_for(&self, method: &Name, desc: &Name) -> bool
        ensures { result ≡ (is_for_method method.now self.now && is_for_desc desc.now self.now) }
    {
        self.is_for_method(method) && self.is_for_desc(desc)
    }

    fn is_for_method(&self, method: &Name) -> bool
        ensures { result ≡ is_for_method method.now self.now }
    {
        self.method.bytes() == b"*".as_slice() || self.method == *method
    }

    fn is_for_desc(&self, desc: &Name) -> bool
        ensures { result ≡ is_for_desc desc.now self.now }
    {
        match &self.desc {
            None => true,
            Some(given) => given == desc,
        }
    }
}
