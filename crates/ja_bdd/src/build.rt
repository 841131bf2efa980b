ghost use Rattle.std.specs.Prelude.{◌≡◌, ◌≢◌, ℕ, ◌+◌, ◌<◌, ◌≤◌, Ok, IfOk, IfErr};
ghost use Rattle.ja_node_core.specs.Word.{word_of};
ghost use Rattle.ja_node_core.specs.Node.{Knows, IsPart};
ghost use Rattle.ja_node_table.specs.Seats.{aim_of, IsOf, known, wanted_word};
ghost use Rattle.ja_bdd.specs.Functions.{chosen, IsAfter, IsAimed};
ghost use Rattle.ja_bdd.specs.Meaning.{meaning, IsMeant};
ghost use Rattle.ja_bdd.specs.Room.{LacksRoomUnder};
ghost use Rattle.ja_base.specs.Limit.{last_variable};

use ja_node_core::Aim;
use ja_node_table::{Full, Node, NodeSeat, NodeTable};

/// The node of a variable over two known nodes of later variables.
pub fn build<A: Aim>(
    table: &NodeTable<A>,
    seat: &mut NodeSeat<A>,
    var: u32,
    lo: Node,
    hi: Node,
) -> Result<Node, Full<A>>
    requires seat { IsOf table.now seat.old }
    requires var { var ≤ last_variable }
    requires known { Knows (known seat.old) lo.number × Knows (known seat.old) hi.number }
    requires later { IsAfter var (meaning (known seat.old) lo.number) × IsAfter var (meaning (known seat.old) hi.number) }
    requires aim { lo.number ≢ hi.number → IsAimed (A.aims (aim_of table.now)) (chosen var (meaning (known seat.old) lo.number) (meaning (known seat.old) hi.number)) }
    ensures seat { IsOf table.now seat.new }
    ensures grows { IsPart (known seat.old) (known seat.new) }
    ensures one_child { lo.number ≡ hi.number → (result ≡ Ok lo) × (seat.new ≡ seat.old) }
    ensures ok { IfOk result (λ n. IsMeant (known seat.new) n.number (chosen var (meaning (known seat.old) lo.number) (meaning (known seat.old) hi.number))) }
    ensures full { IfErr result (LacksRoomUnder table.now (known seat.new) (chosen var (meaning (known seat.old) lo.number) (meaning (known seat.old) hi.number))) }
    ensures word { IfErr result (λ e. wanted_word e ≡ word_of var lo.number hi.number) }
{
    table.make(seat, var, lo, hi)
}
