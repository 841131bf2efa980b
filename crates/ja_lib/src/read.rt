//! Reading a table file.
ghost use Rattle.std.specs.Prelude.{◌≡◌, ◌≤◌, IfOk, IfErr, MatchOption, List, Some, None, is_some, length};
ghost use Rattle.toml.specs.Data.{Members, get_member};
ghost use Rattle.toml.specs.View.{table_view, items_view};
ghost use Rattle.ja_lib.specs.File.{IsDocument, IsTableFile, IsFaultOf, SpellsContent, IsFaultIn, tables_in, tables_at, SpellAll, SpellsRow, SpellsEntry};
ghost use Rattle.ja_lib.specs.InnerReading.{AreTables, IsRowFault, IsEntryFault};
ghost use Rattle.ja_base.specs.Limit.{max_categories};

use crate::category::categories_of;
use crate::keys::{are_keys_among, value_at};
use crate::spelled::{PlacedFault, read_all};
use crate::{EntryRows, Table, TableFault, TableRows};
use ja_base::Name;
use std::alloc::Global;
use toml::Value;

/// The table that the bytes of a table file say: the categories of marks, the rows and the entries, each
/// in the file's order.
///
/// A table file is UTF-8 and a text in TOML. Its keys are `row` and `entry`, each an array of tables, and
/// `category`, an array of names; each may be missing. The fault is the first one: of the text, of the
/// keys, of the categories, of the rows in order, then of the entries in order.
pub fn read_table(alloc: Global, bytes: &[u8]) -> Result<Table, TableFault>
    ensures table { IfOk result (IsTableFile bytes.now) }
    ensures fault { IfErr result (IsFaultOf bytes.now) }
{
    let document = document_of(alloc, bytes)?;
    content_of(alloc, &document)
}

fn document_of(alloc: Global, bytes: &[u8]) -> Result<toml::Table, TableFault>
    ensures document { IfOk result (λ document. IsDocument bytes.now (table_view document)) }
    ensures fault { IfErr result (IsFaultOf bytes.now) }
{
    match toml::table_from_slice(alloc, bytes) {
        Ok(document) => Ok(document),
        Err(error) => {
            if error.is_memory() {
                Err(TableFault::Memory)
            } else {
                Err(TableFault::Text)
            }
        }
    }
}

fn content_of(alloc: Global, document: &toml::Table) -> Result<Table, TableFault>
    ensures table { IfOk result (SpellsContent (table_view document.now)) }
    ensures fault { IfErr result (IsFaultIn (table_view document.now)) }
{
    if !are_keys_among(document, &["row", "entry", "category"]) {
        return Err(TableFault::UnknownKey);
    }
    let Some(rows) = tables_at(document, "row") else {
        return Err(TableFault::UnknownKey);
    };
    let Some(entries) = tables_at(document, "entry") else {
        return Err(TableFault::UnknownKey);
    };
    let categories = categories_of(alloc, value_at(document, "category"))?;
    let rows = rows_of(alloc, categories.as_slice(), rows)?;
    let entries = entries_of(alloc, categories.as_slice(), entries)?;
    Ok(Table::new(alloc, categories, rows, entries)?)
}

/// The array of tables at a key, which is empty where the key is missing.
fn tables_at<'a>(document: &'a toml::Table, key: &str) -> Option<&'a [Value]>
    ensures { MatchOption result (tables_at (get_member key.now (table_view document.now)) ≡ None)
        (λ values. (tables : List Members) × AreTables values.now tables × (tables_at (get_member key.now (table_view document.now)) ≡ Some tables)) }
{
    match value_at(document, key) {
        None => Some(&[]),
        Some(value) => match value.as_array() {
            Some(array) => {
                if are_tables(array) {
                    Some(array.as_slice())
                } else {
                    None
                }
            }
            None => None,
        },
    }
}

fn are_tables(array: &[Value]) -> bool
    ensures { result ≡ is_some (tables_in (items_view array.now)) }
{
    for value in array {
        if !value.is_table() {
            return false;
        }
    }
    true
}

fn rows_of(alloc: Global, categories: &[Name], values: &[Value]) -> Result<TableRows, TableFault>
    requires { length categories.now ≤ max_categories }
    ensures rows { IfOk result (λ rows. (tables : List Members) → AreTables values.now tables → SpellAll (SpellsRow categories.now) tables rows) }
    ensures fault { IfErr result (λ fault. (tables : List Members) → AreTables values.now tables → IsRowFault categories.now tables fault) }
{
    match read_all(alloc, categories, values) {
        Ok(rows) => Ok(rows),
        Err(PlacedFault::Wrong { place }) => Err(TableFault::BadRow { row: place }),
        Err(PlacedFault::Memory) => Err(TableFault::Memory),
    }
}

fn entries_of(alloc: Global, categories: &[Name], values: &[Value]) -> Result<EntryRows, TableFault>
    requires { length categories.now ≤ max_categories }
    ensures entries { IfOk result (λ entries. (tables : List Members) → AreTables values.now tables → SpellAll (SpellsEntry categories.now) tables entries) }
    ensures fault { IfErr result (λ fault. (tables : List Members) → AreTables values.now tables → IsEntryFault categories.now tables fault) }
{
    match read_all(alloc, categories, values) {
        Ok(entries) => Ok(entries),
        Err(PlacedFault::Wrong { place }) => Err(TableFault::BadEntry { entry: place }),
        Err(PlacedFault::Memory) => Err(TableFault::Memory),
    }
}
