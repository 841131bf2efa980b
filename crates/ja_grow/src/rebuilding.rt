ghost use Rattle.std.specs.Prelude.{◌≡◌, ◌≤◌, IfOk, IfErr};
ghost use Rattle.ja_base.specs.declared.limit.TheConstants.{MIN_SLOTS, MAX_SLOTS};
ghost use Rattle.ja_node_table.specs.Seats.{aim_of, slots_of, IsOf, known};
ghost use Rattle.ja_grow.specs.Grown.{AreDue, AreSameRoots};
ghost use Rattle.ja_grow.specs.Causes.{IsCause};

use crate::copies::Copies;
use crate::fault::GrowFault;
use crate::growth::Growth;
use ja_bdd::{Roots, Worker};
use ja_node_core::Aim;
use ja_node_table::{NodeSeat, NodeTable};
use std::alloc::Global;

/// A table that was made anew, a seat of it that knows the roots, and the roots in their order.
#[derive(Drop)]
pub struct Rebuilt<A: Aim> {
    pub table: NodeTable<A>,
    pub seat: NodeSeat<A>,
    pub roots: Roots,
}

/// A new table of so many slots, between 16 and 2^24, with the old one's aim, in which roots that the
/// seat knows and that are of the aim mean what they meant. Other nodes are left behind.
///
/// Each node under the roots is copied once. The errors are want of memory, and `Full` where the new
/// table has no room for a node under a root.
pub fn rebuild<A: Aim>(
    alloc: Global,
    old: &NodeTable<A>,
    seat: &mut NodeSeat<A>,
    roots: &Roots,
    slots: u64,
) -> Result<Rebuilt<A>, GrowFault<A>>
    requires seat { IsOf old.now seat.old }
    requires slots { (MIN_SLOTS ≤ slots) × (slots ≤ MAX_SLOTS) }
    requires roots { AreDue (A.aims (aim_of old.now)) (known seat.old) roots.now }
    ensures seat { IsOf old.now seat.new × (known seat.new ≡ known seat.old) }
    ensures table { IfOk result (λ r. (aim_of r.table ≡ aim_of old.now) × (slots_of r.table ≡ slots) × IsOf r.table r.seat) }
    ensures roots { IfOk result (λ r. AreSameRoots (known seat.old) roots.now (known r.seat) r.roots) }
    ensures fault { IfErr result (IsCause (aim_of old.now) slots (known seat.old) roots.now) }
{
    let Ok((table, first)) = NodeTable::new(alloc, slots, old.aim()) else {
        return Err(GrowFault::Memory);
    };
    let Ok(worker) = Worker::new(alloc, first) else {
        return Err(GrowFault::Memory);
    };
    let Ok(copies) = Copies::new(alloc, old.slots() as usize) else {
        return Err(GrowFault::Memory);
    };
    let mut growth = Growth { worker, copies };
    let roots = match growth.copy_roots(alloc, old, seat, &table, roots.as_slice()) {
        Ok(roots) => roots,
        Err(fault) => return Err(fault),
    };
    let seat = growth.worker.give_seat(&table);
    Ok(Rebuilt { table, seat, roots })
}
