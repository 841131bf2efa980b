ghost use Rattle.std.specs.Prelude.{◌≡◌, ◌++◌, ◌∷◌, [], true, OnOk, IfOk, length, slice_get, if◌then◌else◌};
ghost use Rattle.ja_explicit.specs.Tables.{items_of};
ghost use Rattle.ja_explicit.specs.InnerSteps as steps;

use crate::item::Item;
use indexmap::IndexSet;
use ja_base::Memory;
use std::alloc::Global;

/// The facts that were found, each once, in the order in which they came.
#[derive(Drop)]
pub struct Table {
    items: IndexSet<Item>,
}

impl Table {
    /// No fact. It takes no memory.
    pub fn new(alloc: Global) -> Table
        ensures { items_of result ≡ [] }
    {
        Table {
            items: IndexSet::new(alloc),
        }
    }

    /// The number of facts.
    pub fn len(&self) -> u64
        ensures { result ≡ length (items_of self.now) }
    {
        self.items.len() as u64
    }

    /// Fact number `k`, if there are so many.
    pub fn at(&self, k: u64) -> Option<Item>
        ensures { result ≡ slice_get (items_of self.now) k }
    {
        self.items.get_index(k as usize).copied()
    }

    /// Whether a fact was found.
    pub fn has(&self, item: Item) -> bool
        ensures { result ≡ steps.has (items_of self.now) item }
    {
        self.items.contains(&item)
    }

    /// Adds a fact where it is not there, and says whether it is new.
    pub fn add(&mut self, item: Item) -> Result<bool, Memory>
        ensures new { IfOk result (λ new. items_of self.new ≡ (if new then items_of self.old ++ item ∷ [] else items_of self.old)) }
        ensures has { OnOk result (steps.has (items_of self.new) item ≡ true) }
    {
        let (_place, new) = self.items.insert_full(item)?;
        Ok(new)
    }
}
