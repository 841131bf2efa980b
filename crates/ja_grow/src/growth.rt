ghost use Rattle.std.specs.Prelude.{◌≡◌, ◌≢◌, ◌⊎◌, ℕ, ◌<◌, ◌≤◌, Some, IfOk, IfErr, OnOk, slice_get};
ghost use Rattle.ja_base.specs.Limit.{last_variable};
ghost use Rattle.ja_node_core.specs.Node.{Knows};
ghost use Rattle.ja_node_table.specs.Seats.{aim_of, slots_of, IsOf, known};
ghost use Rattle.ja_bdd.specs.Functions.{chosen, IsAfter, IsAimed};
ghost use Rattle.ja_bdd.specs.Meaning.{meaning, IsMeant, Keeps};
ghost use Rattle.ja_bdd.specs.Room.{LacksRoomUnder};
ghost use Rattle.ja_bdd.specs.Workers.{IsWorkerOf, seen};
ghost use Rattle.ja_grow.specs.Grown.{AreDue, AreSameRoots};
ghost use Rattle.ja_grow.specs.Causes.{IsCause};
ghost use Rattle.ja_grow.specs.Inner.{nodes_of, AreCopies};

use crate::copies::Copies;
use crate::fault::GrowFault;
use ja_base::Seq;
use ja_bdd::{Roots, Worker};
use ja_node_core::Aim;
use ja_node_table::{Full, Node, NodeSeat, NodeTable};
use std::alloc::Global;

/// A worker of a new table, and what the nodes of an old one became there.
#[derive(Drop)]
pub struct Growth<A: Aim> {
    pub worker: Worker<A>,
    pub copies: Copies,
}

impl<A: Aim> Growth<A> {
    /// Makes the node that an old one became, and keeps it.
    fn finish(
        &mut self,
        table: &NodeTable<A>,
        n: Node,
        var: u32,
        low: Node,
        high: Node,
    ) -> Result<Node, Full<A>>
        requires worker { IsWorkerOf table.now self.old.worker }
        requires var { var ≤ last_variable }
        requires known { Knows (seen self.old.worker) low.number × Knows (seen self.old.worker) high.number }
        requires later { IsAfter var (meaning (seen self.old.worker) low.number) × IsAfter var (meaning (seen self.old.worker) high.number) }
        requires aim { low.number ≢ high.number → IsAimed (A.aims (aim_of table.now)) (chosen var (meaning (seen self.old.worker) low.number) (meaning (seen self.old.worker) high.number)) }
        ensures worker { IsWorkerOf table.now self.new.worker }
        ensures keeps { Keeps (seen self.old.worker) (seen self.new.worker) }
        ensures ok { IfOk result (λ m. IsMeant (seen self.new.worker) m.number (chosen var (meaning (seen self.old.worker) low.number) (meaning (seen self.old.worker) high.number))) }
        ensures full { IfErr result (LacksRoomUnder table.now (seen self.new.worker) (chosen var (meaning (seen self.old.worker) low.number) (meaning (seen self.old.worker) high.number))) }
        ensures kept { IfOk result (λ copy. (i : ℕ) (m : Node) → slice_get (nodes_of self.new.copies) i ≡ Some m → (slice_get (nodes_of self.old.copies) i ≡ Some m) ⊎ ((i ≡ n.number) × (m ≡ copy))) }
    {
        let copy = match self.worker.make(table, var, low, high) {
            Ok(copy) => copy,
            Err(full) => return Err(full),
        };
        self.copies.keep(n, copy);
        Ok(copy)
    }

    /// The node of the new table that means what a node of the old one does.
    fn copy(
        &mut self,
        old: &NodeTable<A>,
        seat: &mut NodeSeat<A>,
        table: &NodeTable<A>,
        n: Node,
    ) -> Result<Node, Full<A>>
        requires seat { IsOf old.now seat.old }
        requires worker { IsWorkerOf table.now self.old.worker }
        requires known { Knows (known seat.old) n.number }
        requires aim { IsAimed (A.aims (aim_of table.now)) (meaning (known seat.old) n.number) }
        requires copies { AreCopies (known seat.old) (seen self.old.worker) (nodes_of self.old.copies) }
        ensures seat { IsOf old.now seat.new × (known seat.new ≡ known seat.old) }
        ensures worker { IsWorkerOf table.now self.new.worker }
        ensures keeps { Keeps (seen self.old.worker) (seen self.new.worker) }
        ensures ok { IfOk result (λ m. IsMeant (seen self.new.worker) m.number (meaning (known seat.old) n.number)) }
        ensures full { IfErr result (LacksRoomUnder table.now (seen self.new.worker) (meaning (known seat.old) n.number)) }
        ensures copies { OnOk result (AreCopies (known seat.old) (seen self.new.worker) (nodes_of self.new.copies)) }
    {
        if n.number < 2 {
            return Ok(n);
        }
        if let Some(copy) = self.copies.find(n) {
            return Ok(copy);
        }
        let parts = old.parts(seat, n);
        let low = match self.copy(old, seat, table, parts.lo) {
            Ok(low) => low,
            Err(full) => return Err(full),
        };
        let high = match self.copy(old, seat, table, parts.hi) {
            Ok(high) => high,
            Err(full) => return Err(full),
        };
        self.finish(table, n, parts.var, low, high)
    }

    /// The nodes that the roots became, in their order.
    pub fn copy_roots(
        &mut self,
        alloc: Global,
        old: &NodeTable<A>,
        seat: &mut NodeSeat<A>,
        table: &NodeTable<A>,
        roots: &[Node],
    ) -> Result<Roots, GrowFault<A>>
        requires seat { IsOf old.now seat.old }
        requires worker { IsWorkerOf table.now self.old.worker }
        requires roots { AreDue (A.aims (aim_of table.now)) (known seat.old) roots.now }
        requires copies { AreCopies (known seat.old) (seen self.old.worker) (nodes_of self.old.copies) }
        ensures seat { IsOf old.now seat.new × (known seat.new ≡ known seat.old) }
        ensures worker { IsWorkerOf table.now self.new.worker }
        ensures roots { IfOk result (λ grown. AreSameRoots (known seat.old) roots.now (seen self.new.worker) grown) }
        ensures fault { IfErr result (IsCause (aim_of table.now) (slots_of table.now) (known seat.old) roots.now) }
    {
        let mut grown = Seq::new(alloc);
        for root in roots {
            let copy = match self.copy(old, seat, table, *root) {
                Ok(copy) => copy,
                Err(full) => return Err(GrowFault::Full(full)),
            };
            let Ok(()) = grown.push(copy) else {
                return Err(GrowFault::Memory);
            };
        }
        Ok(grown)
    }
}
