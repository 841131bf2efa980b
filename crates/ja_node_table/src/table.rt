ghost use Rattle.std.specs.Prelude.{◌≡◌, ◌≤◌};
ghost use Rattle.ja_base.specs.Limit.{last_variable};
ghost use Rattle.ja_base.specs.declared.limit.TheConstants.{MIN_SLOTS, MAX_SLOTS};

use crate::full::Full;
use crate::rule::{Claims, Forks, Looks, Meets, Reached};
use crate::seat::NodeSeat;
use crate::view::{Plan, View};
use atomic_table::Table;
use ja_base::{MAX_SLOTS, MIN_SLOTS, Memory};
use ja_node_core::{Aim, Node, Parts, first_place, next_place, path_length};
use std::alloc::Global;

/// A table of nodes for an aim, which threads share by reference.
///
/// It has between 16 and 2^24 words. A node's number is the place of its word, and a word never
/// changes once it stands. No call waits, and none but `new` takes memory.
#[derive(Drop)]
pub struct NodeTable<A: Aim> {
    pub(crate) table: Table<(), View<A>, Plan<A>, Reached, Global>,
    slots: u32,
    aim: A,
    ghost aimed: { aim ≡ table.shared.key.aim },
    ghost counted: { (slots ≡ table.shared.table_id.words) × (slots ≡ table.shared.key.slots) },
    ghost bounded: { (MIN_SLOTS ≤ slots) × (slots ≤ MAX_SLOTS) },
}

impl<A: Aim> NodeTable<A> {
    ghost use Rattle.std.specs.Prelude.{◌≡◌, ◌≢◌, ℕ, ◌<◌, ◌≤◌, max, Ok, IfOk, IfErr};
    ghost use Rattle.ja_node_core.specs.Word.{word_of, var_of, low_of, high_of, place};
    ghost use Rattle.ja_node_core.specs.Node.{Knows, IsPart, IsNode};
    ghost use Rattle.ja_node_core.specs.Machine.{MayClaim};
    ghost use Rattle.ja_node_table.specs.Seats.{aim_of, slots_of, IsOf, known, MayMake, IsMade, LacksRoom};

    /// An empty table of so many slots, and its first seat, which knows the constants alone.
    ///
    /// There are between 16 and 2^24 slots. The only error is want of memory.
    pub fn new(alloc: Global, slots: u64, aim: A) -> Result<(NodeTable<A>, NodeSeat<A>), Memory>
        requires { (MIN_SLOTS ≤ slots) × (slots ≤ MAX_SLOTS) }
        ensures seat { IfOk result (λ r. IsOf r.0 r.1 × ((p : ℕ) → known r.1 p ≡ 0)) }
        ensures table { IfOk result (λ r. (aim_of r.0 ≡ aim) × (slots_of r.0 ≡ slots)) }
    {
        let words = Vec::from_elem(alloc, 0u64, slots as usize)?;
        let (table, seat) = Table::of_words(alloc, words.as_slice(), &Plan { aim, slots })?;
        let table = NodeTable {
            table,
            slots: slots as u32,
            aim,
        };
        Ok((table, NodeSeat { seat }))
    }

    /// How many slots the table has.
    pub fn slots(&self) -> u64
        ensures { result ≡ slots_of self.now }
    {
        u64::from(self.slots)
    }

    /// What the table is for.
    pub fn aim(&self) -> A
        ensures { result ≡ aim_of self.now }
    {
        self.aim
    }

    /// The word that stands at the place of `word`'s path, which is this one if none stood there.
    fn settle(&self, seat: &mut NodeSeat<A>, word: u64, at: u32) -> u64
        requires seat { IsOf self.now seat.old }
        requires claim { (i : ℕ) × (at ≡ place (slots_of self.now) word i) × MayClaim (slots_of self.now) (A.aims (aim_of self.now)) (known seat.old) word i }
        ensures seat { IsOf self.now seat.new }
        ensures grows { IsPart (known seat.old) (known seat.new) }
        ensures found { (0 < result) × (known seat.new at ≡ result) }
    {
        let words = &self.table.shared;
        let found = words.load::<Looks>(&mut seat.seat, at as usize);
        if found != 0 {
            return found;
        }
        let found = words.compare_exchange::<Claims>(&mut seat.seat, at as usize, 0, word);
        if found == 0 { word } else { found }
    }

    /// The node with this variable, at most 4,094, over two children that the seat knows and whose
    /// variables are greater: `lo` where the variable is false, `hi` where it is true.
    ///
    /// Equal children are the node themselves. Else it is the node of the word of the three, which
    /// the seat knows from then on. `Full` comes only where the seat has seen another node at each
    /// place of that word's path.
    pub fn make(
        &self,
        seat: &mut NodeSeat<A>,
        var: u32,
        lo: Node,
        hi: Node,
    ) -> Result<Node, Full<A>>
        requires seat { IsOf self.now seat.old }
        requires var { var ≤ last_variable }
        requires node { MayMake (A.aims (aim_of self.now)) (known seat.old) var lo.number hi.number }
        ensures seat { IsOf self.now seat.new }
        ensures grows { IsPart (known seat.old) (known seat.new) }
        ensures one_child { lo.number ≡ hi.number → (result ≡ Ok lo) × (seat.new ≡ seat.old) }
        ensures ok { lo.number ≢ hi.number → IfOk result (λ n. IsMade (known seat.old) (known seat.new) var lo.number hi.number n.number) }
        ensures full { IfErr result (LacksRoom self.now (known seat.new) (word_of var lo.number hi.number)) }
    {
        if lo == hi {
            return Ok(lo);
        }
        let word = Parts { var, lo, hi }.word();
        let mut at = first_place(self.slots, word);
        for _step in 0..path_length(self.slots) {
            if self.settle(seat, word, at) == word {
                return Ok(Node { number: at });
            }
            at = next_place(self.slots, at);
        }
        Err(Full {
            word,
            slots: u64::from(self.slots),
            aim: self.aim,
        })
    }

    /// What the word of a node says, which the seat knows and which is no constant.
    pub fn parts(&self, seat: &mut NodeSeat<A>, n: Node) -> Parts
        requires seat { IsOf self.now seat.old }
        requires node { (1 < n.number) × Knows (known seat.old) n.number }
        ensures seat { IsOf self.now seat.new × (known seat.new ≡ known seat.old) }
        ensures parts { let w = known seat.old n.number in (result.var ≡ var_of w) × (result.lo.number ≡ low_of w) × (result.hi.number ≡ high_of w) }
        ensures node { IsNode (known seat.old) (known seat.old n.number) }
    {
        let word = self
            .table
            .shared
            .load::<Looks>(&mut seat.seat, n.number as usize);
        Parts::of_word(word)
    }

    /// One more seat of the table, which knows the same.
    pub fn split(&self, seat: &mut NodeSeat<A>) -> NodeSeat<A>
        requires { IsOf self.now seat.old }
        ensures old { IsOf self.now seat.new × (known seat.new ≡ known seat.old) }
        ensures new { IsOf self.now result × (known result ≡ known seat.old) }
    {
        NodeSeat {
            seat: self.table.shared.split_seat::<Forks>(&mut seat.seat),
        }
    }

    /// The seat learns what the other knew.
    pub fn join(&self, seat: &mut NodeSeat<A>, other: NodeSeat<A>)
        requires seat { IsOf self.now seat.old }
        requires other { IsOf self.now other }
        ensures seat { IsOf self.now seat.new }
        ensures both { (p : ℕ) → known seat.new p ≡ max (known seat.old p) (known other p) }
        ensures grows { IsPart (known seat.old) (known seat.new) × IsPart (known other) (known seat.new) }
    {
        let NodeSeat { seat: other } = other;
        let words = &self.table.shared;
        words.join_seat::<Meets>(&mut seat.seat, other);
        words.load::<Looks>(&mut seat.seat, 0);
    }
}
