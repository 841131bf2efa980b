ghost use Rattle.std.specs.Prelude.{◌≡◌, ◌<◌, ◌^◌, ℕ, Some, length, slice_get, IfOk, IfSome, OnOk};
ghost use Rattle.ja_network.specs.declared.network.Network.{Network};
ghost use Rattle.ja_network.specs.Facts.{IsNetwork};
ghost use Rattle.ja_class_tables.specs.InnerPool.{AreSets, Grows, IsNamed, IsPool};

use ja_base::Memory;
use ja_facts::Rows;
use ja_network::{Cell, Network};
use ja_sets::TokenSet;
use std::alloc::Global;
use std::collections::HashMap;

/// Sets that are named by their places. Equal sets have one name.
#[derive(Drop)]
pub struct Pool {
    sets: Rows<TokenSet>,
    // The names of the sets of cells.
    by_cell: HashMap<Cell, u32>,
    // The name of one of the sets with a key.
    by_key: HashMap<u64, u32>,
}

/// Sets whose members are the same have the same key, and others mostly have others.
fn key_of(set: &TokenSet) -> u64 {
    let mut key: u64 = 0;
    let mut from = 0;
    for _i in 0..u32::MAX {
        match set.next_from(from) {
            Some(token) => {
                key = (key.rotate_left(5) ^ token as u64).wrapping_mul(0x517c_c1b7_2722_0a95);
                if token == u32::MAX {
                    break;
                }
                from = token + 1;
            }
            None => break,
        }
    }
    key
}

impl Pool {
    /// The pool without sets. It takes no memory.
    pub fn new(alloc: Global) -> Pool
        ensures { (net : Network) → IsPool net result }
    {
        Pool {
            sets: Rows::new(alloc),
            by_cell: HashMap::new(alloc),
            by_key: HashMap::new(alloc),
        }
    }

    // The name of a set that is equal to this one, if it is found under the key.
    fn found(&self, net: &Network, key: u64, set: &TokenSet) -> Option<u32>
        requires sets { AreSets net.now self.now.sets }
        requires size { length set.now ≡ net.now.tokens }
        ensures { IfSome result (λ name. slice_get self.now.sets name ≡ Some set.now) }
    {
        let name = *self.by_key.get(&key)?;
        if (name as u64) < self.sets.len() && self.sets.at(name as u64).equal(set) {
            Some(name)
        } else {
            None
        }
    }

    // Adds a set, and says its name.
    fn add(&mut self, net: &Network, set: TokenSet) -> Result<u32, Memory>
        requires sets { AreSets net.now self.old.sets }
        requires size { length set ≡ net.now.tokens }
        ensures sets { OnOk result (AreSets net.now self.new.sets) }
        ensures grows { OnOk result (Grows self.old.sets self.new.sets) }
        ensures named { IfOk result (λ name. slice_get self.new.sets name ≡ Some set) }
        ensures cells { OnOk result (self.new.by_cell ≡ self.old.by_cell) }
    {
        let name = self.sets.len();
        if name >= u32::MAX as u64 {
            return Err(Memory);
        }
        self.sets.push(set)?;
        Ok(name as u32)
    }

    // The name of a set.
    fn name_set(&mut self, net: &Network, set: TokenSet) -> Result<u32, Memory>
        requires sets { AreSets net.now self.old.sets }
        requires size { length set ≡ net.now.tokens }
        ensures sets { OnOk result (AreSets net.now self.new.sets) }
        ensures grows { OnOk result (Grows self.old.sets self.new.sets) }
        ensures named { IfOk result (λ name. slice_get self.new.sets name ≡ Some set) }
        ensures cells { OnOk result (self.new.by_cell ≡ self.old.by_cell) }
    {
        let key = key_of(&set);
        if let Some(name) = self.found(net, key, &set) {
            return Ok(name);
        }
        let name = self.add(net, set)?;
        self.by_key.insert(key, name)?;
        Ok(name)
    }

    /// The name of the set of a cell that is asked for once.
    pub fn name_once(&mut self, alloc: Global, net: &Network, cell: Cell) -> Result<u32, Memory>
        requires network { IsNetwork net.now }
        requires pool { IsPool net.now self.old }
        ensures pool { OnOk result (IsPool net.now self.new) }
        ensures grows { OnOk result (Grows self.old.sets self.new.sets) }
        ensures named { IfOk result (IsNamed net.now self.new.sets cell) }
    {
        let set = net.tokens_of(alloc, cell)?;
        self.name_set(net, set)
    }

    /// The name of the set of a cell.
    pub fn name(&mut self, alloc: Global, net: &Network, cell: Cell) -> Result<u32, Memory>
        requires network { IsNetwork net.now }
        requires pool { IsPool net.now self.old }
        ensures pool { OnOk result (IsPool net.now self.new) }
        ensures grows { OnOk result (Grows self.old.sets self.new.sets) }
        ensures named { IfOk result (IsNamed net.now self.new.sets cell) }
    {
        if let Some(name) = self.by_cell.get(&cell) {
            return Ok(*name);
        }
        let name = self.name_once(alloc, net, cell)?;
        self.by_cell.insert(cell, name)?;
        Ok(name)
    }

    /// The sets by their names.
    pub fn into_sets(self) -> Rows<TokenSet>
        ensures { result ≡ self.sets }
    {
        let Pool { sets, .. } = self;
        sets
    }
}
