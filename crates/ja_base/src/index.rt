ghost use Rattle.std.specs.Prelude.{◌≡◌, ◌++◌, [], List, ℕ, OnOk};
ghost use Rattle.ja_base.specs.Index.{numbers_at, number_if};

use crate::{Memory, Name, Numbers, Seq};
use std::alloc::Global;
use std::collections::BTreeMap;

/// For each name a list of numbers, such as the places of what has the name.
///
/// A look-up takes the comparisons of a search among the names, however long the lists are.
#[derive(Drop)]
pub struct NumbersByName {
    lists: BTreeMap<Name, Numbers>,
}

impl NumbersByName {
    /// The index that has no number for any name. It keeps the allocator and takes no memory.
    pub fn new(alloc: Global) -> NumbersByName
        ensures { (name : List ℕ) → numbers_at result name ≡ [] }
    {
        NumbersByName {
            lists: BTreeMap::new(alloc),
        }
    }

    /// Adds a number to a name, behind those that the name has. After `Memory` the numbers of the name may
    /// be gone.
    pub fn note(&mut self, alloc: Global, noted: &Name, number: u64) -> Result<(), Memory>
        ensures { OnOk result ((name : List ℕ) → numbers_at self.new name ≡ numbers_at self.old name ++ number_if number noted.now name) }
    {
        let key = noted.copy(alloc)?;
        let mut numbers = self.lists.remove(noted).unwrap_or(Seq::new(alloc));
        numbers.push(number)?;
        match self.lists.insert(key, numbers) {
            Ok(_) => Ok(()),
            Err(_) => Err(Memory),
        }
    }

    /// The numbers of a name, in the order in which they were noted. It takes no memory.
    pub fn at(&self, name: &Name) -> &[u64]
        ensures { result.now ≡ numbers_at self.now name.now }
    {
        match self.lists.get(name) {
            Some(numbers) => numbers.as_slice(),
            None => &[],
        }
    }
}
