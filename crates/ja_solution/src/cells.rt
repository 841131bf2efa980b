use ja_base::Memory;
use ja_node_table::Node;
use std::alloc::Global;

/// A cell of a solver that has a diagram.
#[derive(Clone, Copy)]
pub enum CellName {
    /// Which parameters of this method may be true when it is called.
    Called(u32),
    /// How it may return.
    Returned(u32),
    /// How it may throw.
    Thrown(u32),
    /// What may be true before the block of this number.
    Before(u32),
}

/// The cells of a solver.
#[derive(Drop)]
pub struct Cells {
    /// For each method which parameters may be true when it is called, how it may return, and how it may
    /// throw.
    pub called: Vec<Node>,
    pub returned: Vec<Node>,
    pub thrown: Vec<Node>,
    /// For each block what may be true before it.
    pub before: Vec<Node>,
    /// For each field or bag whether something tainted may have been stored there.
    pub stored: Vec<bool>,
    /// For each site whether it is warned.
    pub warned: Vec<bool>,
}

/// How many cells of each kind there are.
#[derive(Clone, Copy)]
pub struct Counts {
    pub methods: usize,
    pub blocks: usize,
    pub stored: usize,
    pub sites: usize,
}

impl Cells {
    ghost use Rattle.std.specs.Prelude.{◌≡◌, ◌<◌, IfOk, replicate, length, if◌then◌else◌};
    ghost use Rattle.ja_solution.specs.Nodes.{number_at, row, place, same_cell, AreNothing};
    ghost use Rattle.ja_solution.specs.declared.cells.CellName.{CellName};

    /// Cells that say nothing.
    pub fn new(alloc: Global, counts: Counts) -> Result<Cells, Memory>
        ensures { IfOk result (AreNothing counts) }
    {
        Ok(Cells {
            called: Vec::from_elem(alloc, Node::FALSE, counts.methods)?,
            returned: Vec::from_elem(alloc, Node::FALSE, counts.methods)?,
            thrown: Vec::from_elem(alloc, Node::FALSE, counts.methods)?,
            before: Vec::from_elem(alloc, Node::FALSE, counts.blocks)?,
            stored: Vec::from_elem(alloc, false, counts.stored)?,
            warned: Vec::from_elem(alloc, false, counts.sites)?,
        })
    }

    /// The node of a cell.
    pub fn get(&self, name: CellName) -> Node
        requires { place name < length (row self.now name) }
        ensures { result.number ≡ number_at self.now name }
    {
        match name {
            CellName::Called(m) => self.called[m as usize],
            CellName::Returned(m) => self.returned[m as usize],
            CellName::Thrown(m) => self.thrown[m as usize],
            CellName::Before(k) => self.before[k as usize],
        }
    }

    /// Gives a cell another node.
    pub fn set(&mut self, name: CellName, node: Node)
        requires { place name < length (row self.old name) }
        ensures at { (other : CellName) → number_at self.new other ≡ (if same_cell name other then node.number else number_at self.old other) }
        ensures rows { (other : CellName) → length (row self.new other) ≡ length (row self.old other) }
        ensures flags { (self.new.stored ≡ self.old.stored) × (self.new.warned ≡ self.old.warned) }
    {
        match name {
            CellName::Called(m) => self.called[m as usize] = node,
            CellName::Returned(m) => self.returned[m as usize] = node,
            CellName::Thrown(m) => self.thrown[m as usize] = node,
            CellName::Before(k) => self.before[k as usize] = node,
        }
    }
}
