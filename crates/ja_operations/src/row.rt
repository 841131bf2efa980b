ghost use Rattle.std.specs.Prelude.{◌≡◌, ◌++◌, [], ◌∷◌, option_copied, IfOk, Some, None};
ghost use Rattle.ja_supertypes.specs.Supertypes.{object_name};
ghost use Rattle.ja_operations.specs.Rows.{default_row, first_row, IsFirstRow, IsRow};

use crate::MemberRef;
use ja_base::{Flags, Memory, Name, Numbers};
use ja_hier::Hier;
use ja_ir::{LibRow, RowEffect, RowFlow, RowResult};
use ja_lib::Table;
use std::alloc::Global;

/// What is said of a call of which no row of the table speaks.
fn default_row(alloc: Global, table: &Table) -> Result<LibRow, Memory>
    ensures { IfOk result (λ row. row ≡ default_row table.now.categories) }
{
    let marks = table.all_marks(alloc)?;
    Ok(LibRow {
        flow: RowFlow::Args,
        effect: RowEffect::Blend,
        result: RowResult::Any,
        sinks: Numbers::new(alloc),
        marks,
        category: 0,
    })
}

/// A row with the same content.
fn copy_row(alloc: Global, row: &LibRow) -> Result<LibRow, Memory>
    ensures { IfOk result (λ copy. copy ≡ row.now) }
{
    let sinks = Numbers::copy_of(alloc, row.sinks.as_slice())?;
    let marks = Flags::copy_of(alloc, row.marks.as_slice())?;
    Ok(LibRow {
        flow: row.flow,
        effect: row.effect,
        result: row.result,
        sinks,
        marks,
        category: row.category,
    })
}

/// What the first of the names that has a row for the method says.
fn first_row<'a>(table: &'a Table, names: &[Name], member: &MemberRef) -> Option<&'a LibRow>
    ensures { option_copied result ≡ first_row table.now.rows names.now member.now.name member.now.desc }
{
    for name in names {
        if let Some(row) = table.row_of(name, &member.name, &member.desc) {
            return Some(row);
        }
    }
    None
}

/// What the first of the names says, and where none says anything, the last name.
#[tactic(auto, using(crate::proofs::FirstRows::first_row_append))]
fn first_or<'a>(
    table: &'a Table,
    names: &[Name],
    last: &Name,
    member: &MemberRef,
) -> Option<&'a LibRow>
    ensures { option_copied result ≡ first_row table.now.rows (names.now ++ last.now ∷ []) member.now.name member.now.desc }
{
    match first_row(table, names, member) {
        Some(row) => Some(row),
        None => table.row_of(last, &member.name, &member.desc),
    }
}

/// The first row of the names that are tried for a method.
fn tried_row<'a>(
    hier: &Hier,
    table: &'a Table,
    object: &Name,
    member: &MemberRef,
) -> Option<&'a LibRow>
    requires { object.now ≡ object_name }
    ensures { IsFirstRow hier.now table.now.rows member.now (option_copied result) }
{
    match hier.class_named(&member.class) {
        Some(class) => first_or(table, hier.library_types(class).as_slice(), object, member),
        None => match table.row_of(&member.class, &member.name, &member.desc) {
            Some(row) => Some(row),
            None => table.row_of(object, &member.name, &member.desc),
        },
    }
}

/// The row of a call of a method.
pub(crate) fn row_of(
    alloc: Global,
    hier: &Hier,
    table: &Table,
    member: &MemberRef,
) -> Result<LibRow, Memory>
    ensures { IfOk result (IsRow hier.now table.now member.now) }
{
    let object = Name::of(alloc, b"java/lang/Object")?;
    match tried_row(hier, table, &object, member) {
        Some(row) => copy_row(alloc, row),
        None => default_row(alloc, table),
    }
}
