ghost use Rattle.std.specs.Prelude.{◌≡◌, ◌<◌, ◌⊎◌, ℕ, Some, IfOk, IfSome, slice_get};

use ja_base::Memory;
use ja_node_table::Node;
use std::alloc::Global;

/// For each node of an old table, by its number, the node that it became, or the constant false where
/// it was not yet copied: no node but that constant becomes it.
#[derive(Drop)]
pub struct Copies {
    nodes: Vec<Node>,
}

impl Copies {
    ghost use Rattle.ja_grow.specs.Inner.{nodes_of};

    /// No copy of any node of a table with so many slots.
    pub fn new(alloc: Global, slots: usize) -> Result<Copies, Memory>
        ensures { IfOk result (λ copies. (i : ℕ) (m : Node) → slice_get (nodes_of copies) i ≡ Some m → m.number ≡ 0) }
    {
        Ok(Copies {
            nodes: Vec::from_elem(alloc, Node::FALSE, slots)?,
        })
    }

    /// What the node became, where that is known.
    pub fn find(&self, n: Node) -> Option<Node>
        ensures { IfSome result (λ m. (0 < m.number) × (slice_get (nodes_of self.now) n.number ≡ Some m)) }
    {
        let at = n.number as usize;
        if at >= self.nodes.len() {
            return None;
        }
        let copy = self.nodes[at];
        if copy.number == 0 { None } else { Some(copy) }
    }

    /// Keeps what the node became, where there is a place for it.
    pub fn keep(&mut self, n: Node, copy: Node)
        ensures { (i : ℕ) (m : Node) → slice_get (nodes_of self.new) i ≡ Some m → (slice_get (nodes_of self.old) i ≡ Some m) ⊎ ((i ≡ n.number) × (m ≡ copy)) }
    {
        let at = n.number as usize;
        if at < self.nodes.len() {
            self.nodes[at] = copy;
        }
    }
}
