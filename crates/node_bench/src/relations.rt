ghost use Rattle.std.specs.Prelude.{◌≡◌, ◌⊎◌, ◌<◌, ◌≤◌, ◌+◌, ◌-◌, ◌*◌, IfSome};
ghost use Rattle.ja_node_core.specs.Node.{IsPart};
ghost use Rattle.ja_node_table.specs.Seats.{IsOf, known};
ghost use Rattle.node_bench.specs.Made.{IsUnder, IsAsked};
ghost use Rattle.node_bench.specs.Relations.{IsRest};

use crate::ask::ask;
use crate::fill::mixed;
use crate::load::Failure;
use crate::tally::Tally;
use ja_base::{MAX_SLOTS, MIN_SLOTS};
use ja_node_core::AnyAim;
use ja_node_table::{Node, NodeSeat, NodeTable, Parts};
use std::alloc::Global;

/// How many slots the relations speak of, each in three copies: at the entry, now, and next. The
/// variable of a slot's copy is `4 * slot + copy`. Slots count from 1.
const SLOTS: u32 = 60;

/// What is left of a relation after some slot: where no taint comes from the slots before, and
/// where some does.
#[derive(Clone, Copy)]
pub struct Rest {
    pub clean: Node,
    pub tainted: Node,
}

impl Rest {
    ghost use Rattle.std.specs.Prelude.{◌≡◌, ◌⊎◌};

    /// What is left where the slots after are tainted or not.
    fn after(self, tainted: bool) -> Node
        ensures { (result ≡ self.tainted) ⊎ (result ≡ self.clean) }
    {
        if tainted { self.tainted } else { self.clean }
    }
}

/// The node where a slot is clean at the entry, which a relation may forbid.
fn forced(at_entry: bool, node: Node) -> Node
    ensures { (result.number < 2) ⊎ (result ≡ node) }
{
    if at_entry { Node::FALSE } else { node }
}

/// What a relation says of one slot: whether it must be tainted at the entry, its next value where
/// it is clean now and where it is tainted, and whether it taints the slots after it in either case.
#[derive(Clone, Copy)]
struct Clause {
    at_entry: bool,
    next_of_clean: bool,
    next_of_tainted: bool,
    clean_taints: bool,
    tainted_taints: bool,
}

/// The slot stays as it is, and taint from the slots before goes on or does not.
fn kept(goes_on: bool) -> Clause {
    Clause {
        at_entry: false,
        next_of_clean: false,
        next_of_tainted: true,
        clean_taints: goes_on,
        tainted_taints: goes_on,
    }
}

/// The slot gets a value, and taint from the slots before goes on or does not.
fn set(value: bool, goes_on: bool) -> Clause {
    Clause {
        at_entry: false,
        next_of_clean: value,
        next_of_tainted: value,
        clean_taints: goes_on,
        tainted_taints: goes_on,
    }
}

/// What a relation says of a slot where no taint comes from the slots before, and where some does.
/// Most slots stay as they are; some taint others, get taint, lose theirs or had it at the entry.
fn drawn(random: u64) -> (Clause, Clause) {
    let mut clean = kept(false);
    match random % 16 {
        0 | 1 => {
            clean.tainted_taints = true;
            (clean, kept(true))
        }
        2 | 3 => (clean, set(true, true)),
        4 => (set(false, false), set(false, true)),
        5 => {
            clean.at_entry = true;
            (clean, kept(true))
        }
        _ => (clean, kept(true)),
    }
}

/// The node of these parts, which is noted, unless there is no room for it.
fn link(
    table: &NodeTable<AnyAim>,
    seat: &mut NodeSeat<AnyAim>,
    tally: &mut Tally,
    part: Parts,
) -> Option<Node>
    requires seat { IsOf table.now seat.old }
    requires asked { IsAsked (known seat.old) part }
    requires var { 0 < part.var }
    ensures seat { IsOf table.now seat.new }
    ensures grows { IsPart (known seat.old) (known seat.new) }
    ensures under { IfSome result (IsUnder (known seat.new) (part.var - 1)) }
{
    let made = ask(table, seat, part);
    if let Some(made) = made {
        tally.note(part, made);
    }
    made
}

/// The node of a slot's next value, over what is left.
fn ending(
    table: &NodeTable<AnyAim>,
    seat: &mut NodeSeat<AnyAim>,
    tally: &mut Tally,
    slot: u32,
    value: bool,
    rest: Node,
) -> Option<Node>
    requires seat { IsOf table.now seat.old }
    requires slot { (1 ≤ slot) × (slot ≤ 60) }
    requires rest { IsUnder (known seat.old) (4 * slot + 2) rest }
    ensures seat { IsOf table.now seat.new }
    ensures grows { IsPart (known seat.old) (known seat.new) }
    ensures under { IfSome result (IsUnder (known seat.new) (4 * slot + 1)) }
{
    let var = 4 * slot + 2;
    let none = Node::FALSE;
    if value {
        link(
            table,
            seat,
            tally,
            Parts {
                var,
                lo: none,
                hi: rest,
            },
        )
    } else {
        link(
            table,
            seat,
            tally,
            Parts {
                var,
                lo: rest,
                hi: none,
            },
        )
    }
}

/// The node of a slot of which a relation says this, over what is left.
fn slot_node(
    table: &NodeTable<AnyAim>,
    seat: &mut NodeSeat<AnyAim>,
    tally: &mut Tally,
    slot: u32,
    clause: Clause,
    rest: Rest,
) -> Option<Node>
    requires seat { IsOf table.now seat.old }
    requires slot { (1 ≤ slot) × (slot ≤ 60) }
    requires rest { IsRest (known seat.old) (4 * slot + 2) rest }
    ensures seat { IsOf table.now seat.new }
    ensures grows { IsPart (known seat.old) (known seat.new) }
    ensures under { IfSome result (IsUnder (known seat.new) (4 * slot - 1)) }
{
    let after = rest.after(clause.clean_taints);
    let lo = ending(table, seat, tally, slot, clause.next_of_clean, after)?;
    let after = rest.after(clause.tainted_taints);
    let hi = ending(table, seat, tally, slot, clause.next_of_tainted, after)?;
    let var = 4 * slot + 1;
    let now = link(table, seat, tally, Parts { var, lo, hi })?;
    let lo = forced(clause.at_entry, now);
    let var = 4 * slot;
    link(table, seat, tally, Parts { var, lo, hi: now })
}

/// What is left of a relation before a slot of which it says this.
fn rest_before(
    table: &NodeTable<AnyAim>,
    seat: &mut NodeSeat<AnyAim>,
    tally: &mut Tally,
    slot: u32,
    clauses: (Clause, Clause),
    rest: Rest,
) -> Option<Rest>
    requires seat { IsOf table.now seat.old }
    requires slot { (1 ≤ slot) × (slot ≤ 60) }
    requires rest { IsRest (known seat.old) (4 * slot + 2) rest }
    ensures seat { IsOf table.now seat.new }
    ensures grows { IsPart (known seat.old) (known seat.new) }
    ensures rest { IfSome result (IsRest (known seat.new) (4 * slot - 2)) }
{
    let clean = slot_node(table, seat, tally, slot, clauses.0, rest)?;
    let tainted = slot_node(table, seat, tally, slot, clauses.1, rest)?;
    Some(Rest { clean, tainted })
}

/// Makes the nodes of a relation that is drawn by a number. False where there is no room.
fn make_relation(
    table: &NodeTable<AnyAim>,
    seat: &mut NodeSeat<AnyAim>,
    tally: &mut Tally,
    number: u64,
) -> bool
    requires { IsOf table.now seat.old }
    ensures { IsOf table.now seat.new }
{
    let mut rest = Rest {
        clean: Node::TRUE,
        tainted: Node::TRUE,
    };
    for down in 0..SLOTS {
        let seed = number.wrapping_mul(64).wrapping_add(u64::from(down));
        let clauses = drawn(mixed(seed));
        match rest_before(table, seat, tally, SLOTS - down, clauses, rest) {
            Some(more) => rest = more,
            None => return false,
        }
    }
    true
}

/// Fills a table of so many slots with the nodes of relations, to so much of it or until there is
/// no room.
pub fn fill_with_relations(alloc: Global, slots: u64, percent: u64) -> Result<Tally, Failure> {
    if slots < MIN_SLOTS || slots > MAX_SLOTS || percent > 100 {
        return Err(Failure::NoSuchLoad);
    }
    let (table, mut seat) = NodeTable::new(alloc, slots, AnyAim)?;
    let mut tally = Tally::new(alloc, slots as u32)?;
    let wanted = slots * percent / 100;
    for number in 0..wanted {
        if tally.nodes >= wanted || !make_relation(&table, &mut seat, &mut tally, number) {
            break;
        }
    }
    Ok(tally)
}
