ghost use Rattle.std.specs.Prelude.{◌≡◌, [], ◌∷◌, ◌++◌, ◌<◌, Some, length, slice_get, slice_index_or, OnOk, OnErr};
ghost use Rattle.std.specs.Borrow.{sem};
ghost use Rattle.ja_facts.specs.Lending.{LendsItem};
ghost use Rattle.ja_facts.specs.ListLending.{LendsListedIn};
ghost use Rattle.ja_facts.specs.Shared.{option_named};

use ja_base::Memory;
use std::alloc::Global;
use std::marker::Model;

/// A growable list whose items can be lent for writing, which contracts see as the list of its items.
#[derive(Drop)]
pub struct Rows<T> {
    items: Vec<T>,
}

impl<T> Model for Rows<T> {
    ghost use Rattle.std.specs.Prelude.{List};
    ghost use Rattle.std.specs.Coded.{coded_list};

    ghost Value = { List T };

    ghost coded = { coded_list T.code };

    ghost view = { λ rows. rows.items.items };
}

impl<T> Rows<T> {
    /// The list without items. It keeps the allocator and takes no memory.
    pub fn new(alloc: Global) -> Rows<T>
        ensures { result ≡ [] }
    {
        Rows {
            items: Vec::new(alloc),
        }
    }

    /// The number of items.
    pub fn len(&self) -> u64
        ensures { result ≡ length self.now }
    {
        self.items.len() as u64
    }

    /// The item at a place, which is below the length.
    pub fn at(&self, i: u64) -> &T
        requires { i < length self.now }
        ensures { slice_get self.now i ≡ Some result.now }
    {
        &self.items[i as usize]
    }

    /// The item at a place, or another one where there is none.
    pub fn at_or<'a>(&'a self, i: u64, none: &'a T) -> &'a T
        ensures { result.now ≡ slice_index_or self.now i none.now }
    {
        if i < self.items.len() as u64 {
            &self.items[i as usize]
        } else {
            none
        }
    }

    /// The item at a place, which is below the length, for writing.
    pub fn at_mut(&mut self, i: u64) -> &mut T
        requires { i < length self.old }
        ensures* writes_back { sem 𝓛 (LendsItem T.row self.entry i result) }
        ensures value { slice_get self.old i ≡ Some result.now }
    {
        &mut self.items[i as usize]
    }
}

impl<T: Drop> Rows<T> {
    /// Adds an item at the end. After `Memory` the list is unchanged.
    pub fn push(&mut self, item: T) -> Result<(), Memory>
        ensures ok { OnOk result (self.new ≡ self.old ++ item ∷ []) }
        ensures err { OnErr result (self.new ≡ self.old) }
    {
        match self.items.push(item) {
            Ok(()) => Ok(()),
            Err(_) => Err(Memory),
        }
    }
}

/// The item with number `k` of a row, and another one where the row has none.
pub fn listed_in<'a, T>(rows: &'a Rows<Rows<T>>, row: u32, k: u32, none: &'a T) -> &'a T
    ensures { result.now ≡ slice_index_or (slice_index_or rows.now row []) k none.now }
{
    if (row as u64) < rows.len() {
        rows.at(row as u64).at_or(k as u64, none)
    } else {
        none
    }
}

/// The item that a number says which may be no name: another one where the number is 0 or the pool
/// has no such item, and else the item whose name is one less.
pub fn option_named<'a, T>(pool: &'a Rows<T>, number: u32, none: &'a T) -> &'a T
    ensures { result.now ≡ slice_index_or (option_named pool.now none.now number) 0 none.now }
{
    if number == 0 {
        none
    } else {
        pool.at_or((number - 1) as u64, none)
    }
}

/// The item with number `k` of a row, for writing.
pub fn lend_listed_in<T>(rows: &mut Rows<Rows<T>>, row: u32, k: u32) -> &mut T
    requires { k < length (slice_index_or rows.old row []) }
    ensures* writes_back { sem 𝓛 (LendsListedIn T.row rows.entry row k result) }
    ensures value { slice_get (slice_index_or rows.old row []) k ≡ Some result.now }
{
    let items = rows.at_mut(row as u64);
    items.at_mut(k as u64)
}
