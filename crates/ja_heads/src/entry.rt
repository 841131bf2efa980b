ghost use Rattle.std.specs.Prelude.{◌≡◌, ◌+◌, ◌<◌, ◌≤◌, ◌^◌, Some, IfOk, OnOk, length, slice_get, sum_by, take};
ghost use Rattle.ja_hier.specs.declared.starts.Member.TheVariants.{Method};
ghost use Rattle.ja_hier.specs.Members.{count_of};
ghost use Rattle.ja_heads.specs.Entries as specs;
ghost use Rattle.ja_heads.specs.Entries.{AreEntries, ClassAdds, RowAdds, RowsAdd};
ghost use Rattle.ja_base.specs.Limit.{max_numbered};

use crate::entering::entering;
use ja_base::{ClassId, Memory, MethodId, Seq};
use ja_hier::Hier;
use ja_ir::{ClassHead, Entries, Entry, is_abstract, is_interface};
use ja_lib::{EntryRow, Table};
use std::alloc::Global;

/// The methods that the environment may call: for each class that has objects of its own and each entry
/// row of the table, in order, the method that the row makes an entry of the class, if there is one.
pub fn entries(alloc: Global, hier: &Hier, table: &Table) -> Result<Entries, Memory>
    requires classes { length hier.now ≤ max_numbered }
    requires methods { sum_by (count_of Method) hier.now ≤ max_numbered }
    ensures { IfOk result (AreEntries hier.now table.now) }
{
    let mut entries = Seq::new(alloc);
    let mut first: u32 = 0;
    let heads = hier.heads().as_slice();
    for (c, head) in heads.iter().enumerate() {
        add_class(
            alloc,
            &mut entries,
            hier,
            ClassId(c as u32),
            head,
            first,
            table.entries().as_slice(),
        )?;
        first += head.methods.len() as u32;
    }
    Ok(entries)
}

/// Adds the entries of a class, whose methods are numbered from `first` on.
fn add_class(
    alloc: Global,
    entries: &mut Entries,
    hier: &Hier,
    class: ClassId,
    head: &ClassHead,
    first: u32,
    rows: &[EntryRow],
) -> Result<(), Memory>
    requires found { slice_get hier.now class.0 ≡ Some head.now }
    requires first { first ≡ sum_by (count_of Method) (take class.0 hier.now) }
    requires few { first + length head.now.methods ≤ max_numbered }
    ensures { OnOk result (ClassAdds hier.now rows.now class.0 entries.old entries.new) }
{
    if !is_concrete(head) {
        return Ok(());
    }
    add_rows(alloc, entries, hier, class, head, first, rows)?;
    Ok(())
}

/// Whether a class has objects of its own.
fn is_concrete(head: &ClassHead) -> bool
    ensures { result ≡ specs.is_concrete head.now }
{
    !is_interface(head.flags) && !is_abstract(head.flags)
}

/// Adds the entries that the rows make of a class.
fn add_rows(
    alloc: Global,
    entries: &mut Entries,
    hier: &Hier,
    class: ClassId,
    head: &ClassHead,
    first: u32,
    rows: &[EntryRow],
) -> Result<(), Memory>
    requires found { slice_get hier.now class.0 ≡ Some head.now }
    requires first { first ≡ sum_by (count_of Method) (take class.0 hier.now) }
    requires few { first + length head.now.methods ≤ max_numbered }
    ensures { OnOk result (RowsAdd hier.now rows.now class.0 head.now entries.old (length rows.now) entries.new) }
{
    for row in rows {
        add_row(alloc, entries, hier, class, head, first, row)?;
    }
    Ok(())
}

/// Adds the entry that a row makes of a class, if it makes one.
fn add_row(
    alloc: Global,
    entries: &mut Entries,
    hier: &Hier,
    class: ClassId,
    head: &ClassHead,
    first: u32,
    row: &EntryRow,
) -> Result<(), Memory>
    requires found { slice_get hier.now class.0 ≡ Some head.now }
    requires first { first ≡ sum_by (count_of Method) (take class.0 hier.now) }
    requires few { first + length head.now.methods ≤ max_numbered }
    ensures { OnOk result (RowAdds hier.now class.0 head.now row.now entries.old entries.new) }
{
    let Some(method) = entering(hier, class, head, first, row) else {
        return Ok(());
    };
    let entry = entry(alloc, class, method, row)?;
    entries.push(entry)?;
    Ok(())
}

/// A method of a class as an entry, with the positions and the categories that the row marks.
fn entry(alloc: Global, class: ClassId, method: MethodId, row: &EntryRow) -> Result<Entry, Memory>
    ensures { IfOk result (λ entry. entry ≡ specs.entry_at class.0 method.0 row.now) }
{
    let marked = Seq::copy_of(alloc, row.marked.as_slice())?;
    let marks = Seq::copy_of(alloc, row.marks.as_slice())?;
    Ok(Entry {
        class,
        method,
        marked,
        marks,
    })
}
