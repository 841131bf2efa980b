ghost use Rattle.std.specs.Prelude.{◌≤◌, ◌<◌, ◌^◌};

use ja_base::Memory;
use ja_node_core::first_place;
use ja_node_table::{Node, Parts};
use std::alloc::Global;

/// What was asked of a table, and how many places were looked at for it.
#[derive(Drop)]
pub struct Tally {
    slots: u32,
    taken: Vec<bool>,
    pub nodes: u64,
    pub makes: u64,
    pub probes: u64,
    ghost bounded: { (16 ≤ slots) × (slots < 2 ^ 31) },
}

impl Tally {
    ghost use Rattle.std.specs.Prelude.{◌≤◌, ◌<◌, ◌^◌};

    /// Nothing was asked yet of a table of so many slots.
    pub fn new(alloc: Global, slots: u32) -> Result<Tally, Memory>
        requires { (16 ≤ slots) × (slots < 2 ^ 31) }
    {
        Ok(Tally {
            slots,
            taken: Vec::from_elem(alloc, false, slots as usize)?,
            nodes: 0,
            makes: 0,
            probes: 0,
        })
    }

    /// Notes which node was given for these parts. Its place tells how many were looked at.
    pub fn note(&mut self, part: Parts, made: Node) {
        if part.lo == part.hi {
            return;
        }
        let places = self.slots - 2;
        let first = first_place(self.slots, part.word());
        let before = made.number.wrapping_add(places).wrapping_sub(first) % places;
        self.makes = self.makes.wrapping_add(1);
        self.probes = self.probes.wrapping_add(u64::from(before) + 1);
        let at = made.number as usize;
        if at < self.taken.len() && !self.taken[at] {
            self.taken[at] = true;
            self.nodes = self.nodes.wrapping_add(1);
        }
    }
}
