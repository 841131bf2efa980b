ghost use Rattle.std.specs.Prelude.{◌≤◌, None, length};
ghost use Rattle.ja_node_table.specs.Seats.{known};
ghost use Rattle.ja_bdd.specs.Inner.{AreRight, AreShiftsEarly};
ghost use Rattle.ja_base.specs.Limit.{last_variable};
ghost use Rattle.ja_bdd.specs.declared.cache.TheConstants.{MAX_ENTRIES};

use crate::build::build;
use crate::cache::{ENTRIES, Entry, MAX_ENTRIES, NOTHING};
use ja_node_core::Aim;
use ja_node_table::{Full, Node, NodeSeat, NodeTable, Parts};
use std::alloc::Global;

/// One thread's part of a table: a seat, and a lossy cache of answers.
///
/// None of its calls waits, and none but `new` and `with_cache` takes memory.
#[derive(Drop)]
pub struct Worker<A: Aim> {
    pub(crate) seat: NodeSeat<A>,
    pub(crate) cache: Vec<Entry>,
    ghost counted: { (1 ≤ length cache.items) × (length cache.items ≤ MAX_ENTRIES) },
    // Answers to renamings stand at the first places alone, so that few are gone through to take them out.
    ghost early: { AreShiftsEarly cache.items },
    ghost right: { ∥ AreRight None (known seat) cache.items ∥₁ },
}

impl<A: Aim> Worker<A> {
    ghost use Rattle.std.specs.Prelude.{◌≡◌, ◌≢◌, ℕ, Bool, ◌+◌, ◌<◌, ◌≤◌, ◌↔◌, IsTrue, Ok, IfOk, IfErr};
    ghost use Rattle.ja_node_core.specs.Word.{word_of, var_of, low_of, high_of};
    ghost use Rattle.ja_node_core.specs.Node.{constant, Knows};
    ghost use Rattle.ja_node_table.specs.Seats.{aim_of, IsOf, seat_home, known, wanted_word};
    ghost use Rattle.ja_bdd.specs.Functions.{chosen, IsAfter, IsAimed};
    ghost use Rattle.ja_bdd.specs.Meaning.{meaning, IsMeant, Keeps, IsHalved};
    ghost use Rattle.ja_bdd.specs.Room.{LacksRoomUnder};
    ghost use Rattle.ja_bdd.specs.Workers.{worker_home, IsWorkerOf, seen};

    /// A worker of the seat's table, which knows what the seat knows.
    ///
    /// The only error is want of memory, which hands the seat back.
    pub fn new(alloc: Global, seat: NodeSeat<A>) -> Result<Worker<A>, NodeSeat<A>>
        ensures worker { IfOk result (λ w. (worker_home w ≡ seat_home seat) × (seen w ≡ known seat)) }
        ensures memory { IfErr result (λ s. s ≡ seat) }
    {
        Worker::with_cache(alloc, seat, ENTRIES)
    }

    /// The same, with a cache of so many entries, at most 2^20.
    pub fn with_cache(
        alloc: Global,
        seat: NodeSeat<A>,
        entries: usize,
    ) -> Result<Worker<A>, NodeSeat<A>>
        requires entries { (1 ≤ entries) × (entries ≤ MAX_ENTRIES) }
        ensures worker { IfOk result (λ w. (worker_home w ≡ seat_home seat) × (seen w ≡ known seat)) }
        ensures memory { IfErr result (λ s. s ≡ seat) }
    {
        match Vec::from_elem(alloc, NOTHING, entries) {
            Ok(cache) => Ok(Worker { seat, cache }),
            Err(_) => Err(seat),
        }
    }

    /// What the worker's nodes mean: the constants their values, every other known node its high
    /// child where its variable is true and else its low child; and one function has one node.
    pub fn law_meaning(&self)
        ensures constants { (b : Bool) → IsMeant (seen self.now) (constant b) (λ a. b) }
        ensures nodes { (n : ℕ) → 1 < n → Knows (seen self.now) n → let w = seen self.now n in meaning (seen self.now) n ≡ chosen (var_of w) (meaning (seen self.now) (low_of w)) (meaning (seen self.now) (high_of w)) }
        ensures one_node { (f g : ℕ) → Knows (seen self.now) f → Knows (seen self.now) g → meaning (seen self.now) f ≡ meaning (seen self.now) g → f ≡ g }
    {}

    /// The node of a variable, at most 4,094, over two known nodes that look at later variables
    /// alone: `lo` where the variable is false, `hi` where it is true.
    ///
    /// Equal children are the node themselves. `Full` comes only where the worker has seen another
    /// node at each place of the path of the asked word.
    pub fn make(
        &mut self,
        table: &NodeTable<A>,
        var: u32,
        lo: Node,
        hi: Node,
    ) -> Result<Node, Full<A>>
        requires worker { IsWorkerOf table.now self.old }
        requires var { var ≤ last_variable }
        requires known { Knows (seen self.old) lo.number × Knows (seen self.old) hi.number }
        requires later { IsAfter var (meaning (seen self.old) lo.number) × IsAfter var (meaning (seen self.old) hi.number) }
        requires aim { lo.number ≢ hi.number → IsAimed (A.aims (aim_of table.now)) (chosen var (meaning (seen self.old) lo.number) (meaning (seen self.old) hi.number)) }
        ensures worker { IsWorkerOf table.now self.new }
        ensures keeps { Keeps (seen self.old) (seen self.new) }
        ensures one_child { lo.number ≡ hi.number → (result ≡ Ok lo) × (seen self.new ≡ seen self.old) }
        ensures ok { IfOk result (λ n. IsMeant (seen self.new) n.number (chosen var (meaning (seen self.old) lo.number) (meaning (seen self.old) hi.number))) }
        ensures full { IfErr result (LacksRoomUnder table.now (seen self.new) (chosen var (meaning (seen self.old) lo.number) (meaning (seen self.old) hi.number))) }
        ensures word { IfErr result (λ e. wanted_word e ≡ word_of var lo.number hi.number) }
    {
        build(table, &mut self.seat, var, lo, hi)
    }

    /// The variable and the children of a known node that is no constant: the first variable that
    /// its function looks at, and what the function becomes where that is false and where it is
    /// true.
    pub fn parts(&mut self, table: &NodeTable<A>, n: Node) -> Parts
        requires worker { IsWorkerOf table.now self.old }
        requires node { (1 < n.number) × Knows (seen self.old) n.number }
        ensures worker { IsWorkerOf table.now self.new }
        ensures same { seen self.new ≡ seen self.old }
        ensures parts { IsHalved (seen self.old) result.var n.number result.lo.number result.hi.number }
        ensures apart { result.lo.number ≢ result.hi.number }
    {
        table.parts(&mut self.seat, n)
    }

    /// Whether two known nodes mean the same function.
    pub fn same(&self, f: Node, g: Node) -> bool
        requires { Knows (seen self.now) f.number × Knows (seen self.now) g.number }
        ensures { IsTrue result ↔ (meaning (seen self.now) f.number ≡ meaning (seen self.now) g.number) }
    {
        self.seat.same(f, g)
    }

    /// Makes both workers know what either knew.
    pub fn rejoin(&mut self, table: &NodeTable<A>, other: &mut Worker<A>)
        requires worker { IsWorkerOf table.now self.old }
        requires other { IsWorkerOf table.now other.old }
        ensures worker { IsWorkerOf table.now self.new × IsWorkerOf table.now other.new }
        ensures learns { Keeps (seen self.old) (seen self.new) × Keeps (seen other.old) (seen self.new) }
        ensures other { Keeps (seen self.old) (seen other.new) × Keeps (seen other.old) (seen other.new) }
    {
        let theirs = table.split(&mut other.seat);
        table.join(&mut self.seat, theirs);
        let mine = table.split(&mut self.seat);
        table.join(&mut other.seat, mine);
    }

    /// Makes the worker know also what the seat knew.
    pub fn take_seat(&mut self, table: &NodeTable<A>, seat: NodeSeat<A>)
        requires worker { IsWorkerOf table.now self.old }
        requires seat { IsOf table.now seat }
        ensures worker { IsWorkerOf table.now self.new }
        ensures learns { Keeps (seen self.old) (seen self.new) × Keeps (known seat) (seen self.new) }
    {
        table.join(&mut self.seat, seat);
    }

    /// One more seat of the table, which knows what the worker knows.
    pub fn give_seat(&mut self, table: &NodeTable<A>) -> NodeSeat<A>
        requires { IsWorkerOf table.now self.old }
        ensures worker { IsWorkerOf table.now self.new × (seen self.new ≡ seen self.old) }
        ensures seat { IsOf table.now result × (known result ≡ seen self.old) }
    {
        table.split(&mut self.seat)
    }
}
