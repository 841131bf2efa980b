ghost use Rattle.std.specs.Prelude.{◌≡◌, ◌⊎◌, ℕ, ◌<◌, ◌≤◌, None, IfOk, IfErr};
ghost use Rattle.ja_node_core.specs.Node.{Knows, IsPart};
ghost use Rattle.ja_node_table.specs.Seats.{aim_of, IsOf, known};
ghost use Rattle.ja_bdd.specs.Functions.{both, IsAimed};
ghost use Rattle.ja_bdd.specs.Meaning.{meaning, IsMeant, Keeps};
ghost use Rattle.ja_bdd.specs.Copies.{in_copies, all_forgotten, IsAimedThroughout, LacksRoomWithin};
ghost use Rattle.ja_bdd.specs.Room.{LacksRoomUnder};
ghost use Rattle.ja_bdd.specs.Inner.{joined, IsOpen, ArePieces, depth_of_both};
ghost use Rattle.ja_bdd.specs.declared.cache.Joint.TheVariants.{And};
ghost use Rattle.ja_bdd.specs.Workers.{IsWorkerOf, seen};
ghost use Rattle.ja_base.specs.Limit.{last_variable};

use crate::cache::{Joint, Question};
use crate::copies::Copies;
use crate::join::{cut_both, ordered, settled};
use crate::worker::Worker;
use ja_node_core::Aim;
use ja_node_table::{Full, Node, NodeTable};

impl<A: Aim> Worker<A> {
    /// What is left of the conjunction of two nodes where that is a constant, else two nodes with
    /// the same conjunction, neither of them a constant. Where one node is the conjunction of both,
    /// it stands for both, so that the cache has one answer for all such pairs.
    fn unsettled(&self, f: Node, g: Node, copies: Copies) -> Result<Node, (Node, Node)>
        requires { Knows (known self.now.seat) f.number × Knows (known self.now.seat) g.number }
        ensures ok { IfOk result (λ n. IsMeant (known self.now.seat) n.number (all_forgotten (in_copies copies) (joined And (meaning (known self.now.seat) f.number) (meaning (known self.now.seat) g.number)))) }
        ensures err { IfErr result (λ p. IsOpen (known self.now.seat) And f.number g.number p.0.number p.1.number) }
    {
        match settled(Joint::And, f, g) {
            Some(n) => { if n.number < 2 { Ok(n) } else { Err((n, n)) } }
            None => Err(ordered(f, g)),
        }
    }

    /// What is left of the conjunction of two nodes where that is at hand, else two nodes with the
    /// same conjunction, in the order that the cache knows.
    fn begin_product(&self, f: Node, g: Node, copies: Copies) -> Result<Node, (Node, Node)>
        requires { Knows (known self.now.seat) f.number × Knows (known self.now.seat) g.number }
        ensures ok { IfOk result (λ n. IsMeant (known self.now.seat) n.number (all_forgotten (in_copies copies) (joined And (meaning (known self.now.seat) f.number) (meaning (known self.now.seat) g.number)))) }
        ensures err { IfErr result (λ p. IsOpen (known self.now.seat) And f.number g.number p.0.number p.1.number) }
    {
        let (f, g) = match self.unsettled(f, g, copies) {
            Ok(n) => return Ok(n),
            Err(open) => open,
        };
        match self.find(Question::Product(f, g, copies)) {
            Some(n) => Ok(n),
            None => Err((f, g)),
        }
    }

    /// What is left of the conjunction of two nodes, from what is left of it where a variable is
    /// false and where it is true: a node over both, or either of them where the variable goes.
    fn finish_product(
        &mut self,
        table: &NodeTable<A>,
        copies: Copies,
        f: Node,
        g: Node,
        var: u32,
        low: Node,
        high: Node,
    ) -> Result<Node, Full<A>>
        requires seat { IsOf table.now self.old.seat }
        requires var { var ≤ last_variable }
        requires pieces { ArePieces (known self.old.seat) (in_copies copies) f.number g.number var low.number high.number }
        requires aim { IsAimed (A.aims (aim_of table.now)) (all_forgotten (in_copies copies) (joined And (meaning (known self.old.seat) f.number) (meaning (known self.old.seat) g.number))) }
        ensures seat { IsOf table.now self.new.seat }
        ensures grows { IsPart (known self.old.seat) (known self.new.seat) }
        ensures ok { IfOk result (λ n. IsMeant (known self.new.seat) n.number (all_forgotten (in_copies copies) (joined And (meaning (known self.old.seat) f.number) (meaning (known self.old.seat) g.number)))) }
        ensures full { IfErr result (LacksRoomUnder table.now (known self.new.seat) (all_forgotten (in_copies copies) (joined And (meaning (known self.old.seat) f.number) (meaning (known self.old.seat) g.number)))) }
    {
        let asked = Question::Product(f, g, copies);
        if copies.has(var) {
            let made = match self.join(table, Joint::Or, low, high) {
                Ok(made) => made,
                Err(full) => return Err(full),
            };
            self.keep(asked, made);
            return Ok(made);
        }
        self.finish(table, asked, var, low, high)
    }

    /// What is left of the conjunction of two known nodes, where all variables of some copies are
    /// forgotten. Both are done in one pass, so the conjunction itself is never made.
    fn product(
        &mut self,
        table: &NodeTable<A>,
        f: Node,
        g: Node,
        copies: Copies,
    ) -> Result<Node, Full<A>>
        requires seat { IsOf table.now self.old.seat }
        requires known { Knows (known self.old.seat) f.number × Knows (known self.old.seat) g.number }
        requires aim { IsAimedThroughout (A.aims (aim_of table.now)) (in_copies copies) (joined And (meaning (known self.old.seat) f.number) (meaning (known self.old.seat) g.number)) }
        ensures seat { IsOf table.now self.new.seat }
        ensures grows { IsPart (known self.old.seat) (known self.new.seat) }
        ensures ok { IfOk result (λ n. IsMeant (known self.new.seat) n.number (all_forgotten (in_copies copies) (joined And (meaning (known self.old.seat) f.number) (meaning (known self.old.seat) g.number)))) }
        ensures full { IfErr result (LacksRoomWithin table.now (known self.new.seat) (in_copies copies) (joined And (meaning (known self.old.seat) f.number) (meaning (known self.old.seat) g.number))) }
    {
        let (f, g) = match self.begin_product(f, g, copies) {
            Ok(n) => return Ok(n),
            Err(open) => open,
        };
        let cut = cut_both(table, &mut self.seat, f, g);
        let low = match self.product(table, cut.f_low, cut.g_low, copies) {
            Ok(low) => low,
            Err(full) => return Err(full),
        };
        if low == Node::TRUE && copies.has(cut.var) {
            self.keep(Question::Product(f, g, copies), low);
            return Ok(low);
        }
        let high = match self.product(table, cut.f_high, cut.g_high, copies) {
            Ok(high) => high,
            Err(full) => return Err(full),
        };
        self.finish_product(table, copies, f, g, cut.var, low, high)
    }

    /// The node that is true where both known nodes are for some values of all variables of these
    /// copies: the relational product, in one pass.
    ///
    /// `Full` comes only for a word under what the call means, or under what it would mean were the
    /// variables below some one fixed.
    pub fn and_exists(
        &mut self,
        table: &NodeTable<A>,
        f: Node,
        g: Node,
        copies: Copies,
    ) -> Result<Node, Full<A>>
        requires worker { IsWorkerOf table.now self.old }
        requires known { Knows (seen self.old) f.number × Knows (seen self.old) g.number }
        requires aim { IsAimedThroughout (A.aims (aim_of table.now)) (in_copies copies) (both (meaning (seen self.old) f.number) (meaning (seen self.old) g.number)) }
        ensures worker { IsWorkerOf table.now self.new }
        ensures keeps { Keeps (seen self.old) (seen self.new) }
        ensures ok { IfOk result (λ n. IsMeant (seen self.new) n.number (all_forgotten (in_copies copies) (both (meaning (seen self.old) f.number) (meaning (seen self.old) g.number)))) }
        ensures full { IfErr result (LacksRoomWithin table.now (seen self.new) (in_copies copies) (both (meaning (seen self.old) f.number) (meaning (seen self.old) g.number))) }
    {
        self.product(table, f, g, copies)
    }

    /// The node that is true where the known node is for some values of all variables of these
    /// copies.
    ///
    /// `Full` comes only for a word under what the call means, or under what it would mean were the
    /// variables below some one fixed.
    pub fn exists_all(
        &mut self,
        table: &NodeTable<A>,
        f: Node,
        copies: Copies,
    ) -> Result<Node, Full<A>>
        requires worker { IsWorkerOf table.now self.old }
        requires known { Knows (seen self.old) f.number }
        requires aim { IsAimedThroughout (A.aims (aim_of table.now)) (in_copies copies) (meaning (seen self.old) f.number) }
        ensures worker { IsWorkerOf table.now self.new }
        ensures keeps { Keeps (seen self.old) (seen self.new) }
        ensures ok { IfOk result (λ n. IsMeant (seen self.new) n.number (all_forgotten (in_copies copies) (meaning (seen self.old) f.number))) }
        ensures full { IfErr result (LacksRoomWithin table.now (seen self.new) (in_copies copies) (meaning (seen self.old) f.number)) }
    {
        self.product(table, f, f, copies)
    }
}
