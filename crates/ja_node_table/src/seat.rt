ghost use Rattle.std.specs.Prelude.{◌≡◌, []};
ghost use Rattle.ja_node_table.specs.Rule.{IsView};

use crate::view::View;
use atomic_table::Seat;
use ja_node_core::{Aim, Node};

/// What one thread knows of a table's nodes. It has no bytes.
#[derive(Drop)]
pub struct NodeSeat<A: Aim> {
    pub(crate) seat: Seat<(), View<A>>,
    ghost bare: { seat.me.1 ≡ [] },
    pub ghost part: { ∥ IsView A.aims seat.me.0 ∥₁ },
}

impl<A: Aim> NodeSeat<A> {
    ghost use Rattle.std.specs.Prelude.{◌≡◌, ◌↔◌, IsTrue};
    ghost use Rattle.ja_node_core.specs.Tree.{Tree, IsSameFunction};
    ghost use Rattle.ja_node_core.specs.Node.{Means, Knows};
    ghost use Rattle.ja_node_table.specs.Seats.{known};

    /// Whether two nodes that the seat knows mean the same function.
    pub fn same(&self, f: Node, g: Node) -> bool
        requires f { Knows (known self.now) f.number }
        requires g { Knows (known self.now) g.number }
        ensures { (s t : Tree) → Means (known self.now) s f.number → Means (known self.now) t g.number → IsTrue result ↔ IsSameFunction s t }
    {
        f.number == g.number
    }
}
