ghost use Rattle.std.specs.Prelude.{◌≡◌, ◌<◌, ◌≤◌, IfOk, IfErr};
ghost use Rattle.ja_node_core.specs.Node.{Knows, IsPart};
ghost use Rattle.ja_node_table.specs.Seats.{aim_of, IsOf, known};
ghost use Rattle.ja_bdd.specs.Functions.{forgotten, IsAimed};
ghost use Rattle.ja_bdd.specs.Meaning.{meaning, IsMeant, Keeps};
ghost use Rattle.ja_bdd.specs.Room.{LacksRoomUnder};
ghost use Rattle.ja_bdd.specs.Inner.{depth};
ghost use Rattle.ja_bdd.specs.Workers.{IsWorkerOf, seen};

use crate::cache::{Joint, Question};
use crate::worker::Worker;
use ja_node_core::Aim;
use ja_node_table::{Full, Node, NodeTable};

impl<A: Aim> Worker<A> {
    /// The node with one variable forgotten.
    fn forget(&mut self, table: &NodeTable<A>, f: Node, var: u32) -> Result<Node, Full<A>>
        requires seat { IsOf table.now self.old.seat }
        requires known { Knows (known self.old.seat) f.number }
        requires aim { IsAimed (A.aims (aim_of table.now)) (forgotten var (meaning (known self.old.seat) f.number)) }
        ensures seat { IsOf table.now self.new.seat }
        ensures grows { IsPart (known self.old.seat) (known self.new.seat) }
        ensures ok { IfOk result (λ n. IsMeant (known self.new.seat) n.number (forgotten var (meaning (known self.old.seat) f.number))) }
        ensures full { IfErr result (LacksRoomUnder table.now (known self.new.seat) (forgotten var (meaning (known self.old.seat) f.number))) }
    {
        if f.number < 2 {
            return Ok(f);
        }
        if let Some(n) = self.find(Question::Forget(f, var)) {
            return Ok(n);
        }
        let parts = table.parts(&mut self.seat, f);
        if var < parts.var {
            return Ok(f);
        }
        if parts.var == var {
            return self.join(table, Joint::Or, parts.lo, parts.hi);
        }
        let low = match self.forget(table, parts.lo, var) {
            Ok(low) => low,
            Err(full) => return Err(full),
        };
        let high = match self.forget(table, parts.hi, var) {
            Ok(high) => high,
            Err(full) => return Err(full),
        };
        self.finish(table, Question::Forget(f, var), parts.var, low, high)
    }
    /// The node that is true where the known node is for some value of the variable.
    ///
    /// `Full` comes only for a word under what the call means.
    pub fn exists(&mut self, table: &NodeTable<A>, f: Node, var: u32) -> Result<Node, Full<A>>
        requires worker { IsWorkerOf table.now self.old }
        requires known { Knows (seen self.old) f.number }
        requires aim { IsAimed (A.aims (aim_of table.now)) (forgotten var (meaning (seen self.old) f.number)) }
        ensures worker { IsWorkerOf table.now self.new }
        ensures keeps { Keeps (seen self.old) (seen self.new) }
        ensures ok { IfOk result (λ n. IsMeant (seen self.new) n.number (forgotten var (meaning (seen self.old) f.number))) }
        ensures full { IfErr result (LacksRoomUnder table.now (seen self.new) (forgotten var (meaning (seen self.old) f.number))) }
    {
        self.forget(table, f, var)
    }
}
