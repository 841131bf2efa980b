ghost use Rattle.std.specs.Prelude.{◌≡◌, ◌⊎◌, ◌↔◌, ℕ, ◌≤◌, IsTrue, IfOk, IfErr};
ghost use Rattle.ja_node_core.specs.Node.{Knows};
ghost use Rattle.ja_node_table.specs.Seats.{aim_of};
ghost use Rattle.ja_bdd.specs.Functions.{both, IsAimed};
ghost use Rattle.ja_bdd.specs.Meaning.{meaning, IsMeant, Keeps};
ghost use Rattle.ja_bdd.specs.Copies.{in_copies, all_forgotten, IsAimedThroughout, LacksRoomWithin};
ghost use Rattle.ja_bdd.specs.Room.{LacksRoomUnder};
ghost use Rattle.ja_bdd.specs.Workers.{IsWorkerOf, seen};
ghost use Rattle.ja_bdd.specs.Variables.{partner_of};
ghost use Rattle.ja_join.specs.Composed.{others_of, present_alone, entry_and_present, present_and_next, LooksIn, earlier, composed};
ghost use Rattle.ja_base.specs.Limit.{last_variable};

use ja_bdd::{Copies, Renaming, Worker};
use ja_node_core::Aim;
use ja_node_table::{Full, Node, NodeTable};

/// The copies that these are not.
fn others(copies: &Copies) -> Copies
    ensures { result ≡ others_of copies.now }
{
    Copies {
        at_entry: !copies.at_entry,
        at_present: !copies.at_present,
        at_next: !copies.at_next,
        at_callee: !copies.at_callee,
    }
}

/// What is left of a known node where all variables are forgotten but those of these copies.
///
/// `Full` comes only for a word under what the call means, or under what it would mean were the
/// variables below some one fixed.
pub fn project<A: Aim>(
    worker: &mut Worker<A>,
    table: &NodeTable<A>,
    r: Node,
    keep: &Copies,
) -> Result<Node, Full<A>>
    requires worker { IsWorkerOf table.now worker.old }
    requires known { Knows (seen worker.old) r.number }
    requires aim { IsAimedThroughout (A.aims (aim_of table.now)) (in_copies (others_of keep.now)) (meaning (seen worker.old) r.number) }
    ensures worker { IsWorkerOf table.now worker.new }
    ensures keeps { Keeps (seen worker.old) (seen worker.new) }
    ensures ok { IfOk result (λ n. IsMeant (seen worker.new) n.number (all_forgotten (in_copies (others_of keep.now)) (meaning (seen worker.old) r.number))) }
    ensures full { IfErr result (LacksRoomWithin table.now (seen worker.new) (in_copies (others_of keep.now)) (meaning (seen worker.old) r.number)) }
{
    worker.exists_all(table, r, others(keep))
}

/// Whether a known node looks at variables of these copies alone.
///
/// `Full` comes as in `project`, of which this asks what is left.
pub fn looks_in<A: Aim>(
    worker: &mut Worker<A>,
    table: &NodeTable<A>,
    n: Node,
    copies: &Copies,
) -> Result<bool, Full<A>>
    requires worker { IsWorkerOf table.now worker.old }
    requires known { Knows (seen worker.old) n.number }
    requires aim { IsAimedThroughout (A.aims (aim_of table.now)) (in_copies (others_of copies.now)) (meaning (seen worker.old) n.number) }
    ensures worker { IsWorkerOf table.now worker.new }
    ensures keeps { Keeps (seen worker.old) (seen worker.new) }
    ensures ok { IfOk result (λ looks. IsTrue looks ↔ LooksIn copies.now (meaning (seen worker.old) n.number)) }
    ensures full { IfErr result (LacksRoomWithin table.now (seen worker.new) (in_copies (others_of copies.now)) (meaning (seen worker.old) n.number)) }
{
    let rest = match project(worker, table, n, copies) {
        Ok(rest) => rest,
        Err(full) => return Err(full),
    };
    Ok(worker.same(rest, n))
}

/// The copy at present.
const PRESENT: Copies = Copies {
    at_entry: false,
    at_present: true,
    at_next: false,
    at_callee: false,
};

/// The renaming in which each next variable becomes the one at present.
fn next_as_present() -> Renaming
    ensures { (v : ℕ) → v ≤ last_variable → partner_of result v ≡ earlier v }
{
    let mut renaming = Renaming::new();
    for place in 0..1024 {
        renaming.put(4 * place + 2, 4 * place + 1);
    }
    renaming
}

/// The first of two known relations and then the second: the node that is true for an entry and a
/// present where the first is, for the entry and some present in between, from which the second leads
/// to the present as its next.
///
/// The first looks at the copies at the entry and at present alone, the second at those at present and
/// next. `Full` comes only for a word under what the call means, or under what is left of both, with the
/// variables below some one fixed, where the present in between is forgotten.
pub fn after<A: Aim>(
    worker: &mut Worker<A>,
    table: &NodeTable<A>,
    r: Node,
    f: Node,
) -> Result<Node, Full<A>>
    requires worker { IsWorkerOf table.now worker.old }
    requires known { Knows (seen worker.old) r.number × Knows (seen worker.old) f.number }
    requires first { LooksIn entry_and_present (meaning (seen worker.old) r.number) }
    requires second { LooksIn present_and_next (meaning (seen worker.old) f.number) }
    requires joined { IsAimedThroughout (A.aims (aim_of table.now)) (in_copies present_alone) (both (meaning (seen worker.old) r.number) (meaning (seen worker.old) f.number)) }
    requires aim { IsAimed (A.aims (aim_of table.now)) (composed (meaning (seen worker.old) r.number) (meaning (seen worker.old) f.number)) }
    ensures worker { IsWorkerOf table.now worker.new }
    ensures keeps { Keeps (seen worker.old) (seen worker.new) }
    ensures ok { IfOk result (λ n. IsMeant (seen worker.new) n.number (composed (meaning (seen worker.old) r.number) (meaning (seen worker.old) f.number))) }
    ensures full { IfErr result (λ e. LacksRoomWithin table.now (seen worker.new) (in_copies present_alone) (both (meaning (seen worker.old) r.number) (meaning (seen worker.old) f.number)) e ⊎ LacksRoomUnder table.now (seen worker.new) (composed (meaning (seen worker.old) r.number) (meaning (seen worker.old) f.number)) e) }
{
    let joined = match worker.and_exists(table, r, f, PRESENT) {
        Ok(joined) => joined,
        Err(full) => return Err(full),
    };
    worker.shift(table, joined, &next_as_present())
}
