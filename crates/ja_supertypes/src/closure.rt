ghost use Rattle.std.specs.Prelude.{◌≡◌, ℕ, ◌<◌, ◌≤◌, ◌^◌, [], length, slice_index_or, IfOk, OnOk};
ghost use Rattle.ja_supertypes.specs.InnerRows.{ShowsDirect, ShowsAll, stepped};
ghost use Rattle.ja_base.specs.Limit.{max_numbered};

use ja_base::Memory;
use ja_ir::ClassHead;
use ja_sets::TokenSet;
use std::alloc::Global;

/// From the direct supertypes of each class to all its proper supertypes: one class after the other is
/// taken as the middle of a way up.
pub fn close(alloc: Global, heads: &[ClassHead], rows: &mut [TokenSet]) -> Result<(), Memory>
    requires few { length heads.now ≤ max_numbered }
    requires direct { ShowsDirect heads.now rows.old }
    ensures { OnOk result (ShowsAll heads.now rows.new) }
{
    for middle in 0..heads.len() {
        let through = copy_row(alloc, &rows[middle], heads.len() as u32)?;
        join_through(rows, middle as u32, &through);
    }
    Ok(())
}

/// Adds to each class that has the middle class above it what is above the middle class.
fn join_through(rows: &mut [TokenSet], middle: u32, through: &TokenSet)
    requires middle_inside { middle < length through.now }
    requires widths { (i : ℕ) → i < length rows.old → length (slice_index_or rows.old i []) ≡ length through.now }
    ensures { (i : ℕ) → i < length rows.old → slice_index_or rows.new i [] ≡ stepped middle through.now (slice_index_or rows.old i []) }
{
    for i in 0..rows.len() {
        if rows[i].contains(middle) {
            rows[i].join(through);
        }
    }
}

/// The same set.
fn copy_row(alloc: Global, row: &TokenSet, len: u32) -> Result<TokenSet, Memory>
    requires { length row.now ≡ len }
    ensures { IfOk result (λ copy. copy ≡ row.now) }
{
    let mut copy = TokenSet::new(alloc, len)?;
    copy.join(row);
    Ok(copy)
}
