ghost use Rattle.std.specs.Prelude.{◌≡◌, ◌↔◌, ℕ, false, true, IsTrue};
ghost use Rattle.ja_node_core.specs.Node.{Knows};
ghost use Rattle.ja_bdd.specs.Functions.{IsFree};
ghost use Rattle.ja_bdd.specs.Meaning.{meaning};
ghost use Rattle.ja_bdd.specs.Variables.{values_of};
ghost use Rattle.ja_bdd.specs.Workers.{IsWorkerOf, seen};

use crate::assign::Assign;
use crate::worker::Worker;
use ja_node_core::Aim;
use ja_node_table::{Node, NodeTable};

impl<A: Aim> Worker<A> {
    /// Writes an assignment under which the known node is true, and says whether there is one.
    ///
    /// There is none exactly for node 0. Variables that the node's function does not look at keep
    /// their values.
    pub fn pick(&mut self, table: &NodeTable<A>, f: Node, a: &mut Assign) -> bool
        requires worker { IsWorkerOf table.now self.old }
        requires known { Knows (seen self.old) f.number }
        ensures worker { IsWorkerOf table.now self.new × (seen self.new ≡ seen self.old) }
        ensures picked { IsTrue result → meaning (seen self.old) f.number (values_of a.new) ≡ true }
        ensures none { (result ≡ false) ↔ (f.number ≡ 0) }
        ensures others { (v : ℕ) → IsFree v (meaning (seen self.old) f.number) → values_of a.new v ≡ values_of a.old v }
    {
        if f.number < 2 {
            return f == Node::TRUE;
        }
        let parts = table.parts(&mut self.seat, f);
        if parts.lo == Node::FALSE {
            a.set(parts.var, true);
            return self.pick(table, parts.hi, a);
        }
        a.set(parts.var, false);
        self.pick(table, parts.lo, a)
    }
}
