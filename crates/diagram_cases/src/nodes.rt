//! The table of nodes: what it makes on few slots and on most, and in two threads.
ghost use Rattle.std.specs.Prelude.{◌≤◌, ◌<◌, IfOk, IfSome};
ghost use Rattle.ja_node_core.specs.Node.{Knows};
ghost use Rattle.ja_node_table.specs.Seats.{IsOf, known};

use crate::pool::LAST;
use case_text::words_of;
use ja_base::{MAX_SLOTS, MIN_SLOTS, Memory};
use ja_node_core::AnyAim;
use ja_node_table::{Full, Node, NodeSeat, NodeTable, Parts};
use std::alloc::Global;
use std::thread::{Threads, join};

/// The node of a constant.
pub fn constant(value: bool) -> Node
    ensures { result.number < 2 }
{
    if value { Node::TRUE } else { Node::FALSE }
}

/// The node of a variable over two constants.
fn make(
    table: &NodeTable<AnyAim>,
    seat: &mut NodeSeat<AnyAim>,
    var: u32,
    lo: bool,
    hi: bool,
) -> Result<Node, Full<AnyAim>>
    requires seat { IsOf table.now seat.old }
    requires var { var ≤ 4094 }
    ensures { IsOf table.now seat.new }
{
    table.make(seat, var, constant(lo), constant(hi))
}

/// A line of the input: what is printed of the node of a variable over two constants.
#[derive(Clone, Copy)]
struct Asked {
    /// Whether its number is printed, or else how many other numbers were printed before it.
    by_number: bool,
    var: u32,
    lo: bool,
    hi: bool,
}

/// What the words `number VAR LOW HIGH` or `place VAR LOW HIGH` ask.
fn asked_of(words: &[&str]) -> Option<Asked>
    ensures { IfSome result (λ asked. asked.var ≤ 4094) }
{
    match words {
        ["number", var, lo, hi] => Some(asked_by(true, var, lo, hi)),
        ["place", var, lo, hi] => Some(asked_by(false, var, lo, hi)),
        _ => None,
    }
}

/// What three words ask. The last variable stands for one that is none.
fn asked_by(by_number: bool, var: &str, lo: &str, hi: &str) -> Asked
    ensures { result.var ≤ 4094 }
{
    let var = var.parse::<u32>().unwrap_or(LAST).min(LAST);
    Asked {
        by_number,
        var,
        lo: lo == "1",
        hi: hi == "1",
    }
}

/// The place of a number among those that were printed, where it is put if it is new.
fn place_of(numbers: &mut Vec<u32>, number: u32) -> Result<usize, Memory> {
    match numbers.iter().position(|known| *known == number) {
        Some(place) => Ok(place),
        None => {
            numbers.push(number)?;
            Ok(numbers.len().saturating_sub(1))
        }
    }
}

/// Adds what a new table of so many slots answers to each line.
pub fn add_table(out: &mut String, alloc: Global, slots: u64, lines: &str) -> Result<(), Memory> {
    writeln!(out, "table of {slots} slots")?;
    if slots < MIN_SLOTS || slots > MAX_SLOTS {
        return Ok(());
    }
    let (table, mut seat) = NodeTable::new(alloc, slots, AnyAim)?;
    let mut numbers = Vec::new(alloc);
    for line in lines.lines() {
        let words = words_of(alloc, line)?;
        if let Some(asked) = asked_of(words.as_slice()) {
            let made = make(&table, &mut seat, asked.var, asked.lo, asked.hi);
            add_made(out, &mut numbers, line, asked, &made)?;
        }
    }
    Ok(())
}

/// Adds what a line came to.
fn add_made(
    out: &mut String,
    numbers: &mut Vec<u32>,
    line: &str,
    asked: Asked,
    made: &Result<Node, Full<AnyAim>>,
) -> Result<(), Memory> {
    match made {
        Ok(node) => {
            let place = place_of(numbers, node.number)?;
            let told = if asked.by_number {
                node.number as usize
            } else {
                place
            };
            writeln!(out, "{line}: {told}")?;
        }
        Err(full) => writeln!(
            out,
            "{line}: full, word {} of {} slots",
            full.word(),
            full.slots()
        )?,
    }
    Ok(())
}

/// The node of variable 1, and that of "variable 0 and variable 1".
fn two_levels(
    table: &NodeTable<AnyAim>,
    seat: &mut NodeSeat<AnyAim>,
) -> Result<(Node, Node), Full<AnyAim>>
    requires { IsOf table.now seat.old }
    ensures seat { IsOf table.now seat.new }
    ensures known { IfOk result (λ r. Knows (known seat.new) r.0.number × Knows (known seat.new) r.1.number × (1 < r.1.number)) }
{
    let inner = table.make(seat, 1, Node::FALSE, Node::TRUE)?;
    let outer = table.make(seat, 0, Node::FALSE, inner)?;
    Ok((inner, outer))
}

/// Adds the parts of the node of "variable 0 and variable 1".
pub fn add_parts(out: &mut String, alloc: Global) -> Result<(), Memory> {
    let (table, mut seat) = NodeTable::new(alloc, 16, AnyAim)?;
    let Ok((inner, outer)) = two_levels(&table, &mut seat) else {
        return Ok(writeln!(out, "parts: no room")?);
    };
    let same = seat.same(outer, outer);
    let other = seat.same(outer, inner);
    let Parts { var, lo, hi } = table.parts(&mut seat, outer);
    Ok(writeln!(
        out,
        "parts: variable {var} low {} high inner {} same {same} {other}",
        lo.number,
        hi == inner
    )?)
}

/// The numbers of the nodes of a thousand variables, made in rising or in falling order.
fn make_thousand(
    alloc: Global,
    table: &NodeTable<AnyAim>,
    mut seat: NodeSeat<AnyAim>,
    rising: bool,
) -> (NodeSeat<AnyAim>, Vec<u32>)
    requires { IsOf table.now seat }
    ensures { IsOf table.now result.0 }
{
    let mut numbers = Vec::new(alloc);
    for step in 0..1000 {
        let var = if rising { step } else { 999 - step };
        let Ok(made) = make(table, &mut seat, var, false, true) else {
            break;
        };
        if numbers.push(made.number).is_err() {
            break;
        }
    }
    (seat, numbers)
}

/// Adds whether two threads get the same numbers.
pub fn add_threads<R: Threads + Sync>(
    out: &mut String,
    rt: &R,
    alloc: Global,
) -> Result<(), Memory> {
    let (table, mut seat) = NodeTable::new(alloc, 65536, AnyAim)?;
    let other = table.split(&mut seat);
    let ((mut seat, rising), (other, falling)) = join(
        rt,
        || make_thousand(alloc, &table, seat, true),
        || make_thousand(alloc, &table, other, false),
    );
    table.join(&mut seat, other);
    let same = rising.iter().eq(falling.iter().rev());
    Ok(writeln!(out, "threads: {} numbers, the same {same}", rising.len())?)
}

/// How many nodes of one variable the largest table makes, and the number of the last one.
fn fill(table: &NodeTable<AnyAim>, seat: &mut NodeSeat<AnyAim>) -> (u32, Option<u32>)
    requires { IsOf table.now seat.old }
    ensures { IsOf table.now seat.new }
{
    let mut count = 0;
    for var in 0..4095 {
        if make(table, seat, var, false, true).is_err() {
            break;
        }
        count = var + 1;
    }
    let last = make(table, seat, 4094, true, false).ok();
    (count, last.map(|node| node.number))
}

/// Adds what the largest table makes.
pub fn add_largest(out: &mut String, alloc: Global) -> Result<(), Memory> {
    let (table, mut seat) = NodeTable::new(alloc, MAX_SLOTS, AnyAim)?;
    let AnyAim = table.aim();
    let most = table.slots() == MAX_SLOTS;
    let (count, last) = fill(&table, &mut seat);
    let inside = last.map(|number| number > 1 && u64::from(number) < MAX_SLOTS);
    Ok(writeln!(
        out,
        "largest: all slots {most} nodes {count} last inside {}",
        inside.unwrap_or(false)
    )?)
}
