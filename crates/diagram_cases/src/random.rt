//! Random functions, at each point.
ghost use Rattle.std.specs.Prelude.{◌≡◌, OnOk};
ghost use Rattle.std.specs.List.{All};
ghost use Rattle.ja_node_core.specs.Node.{Knows};
ghost use Rattle.ja_bdd.specs.Workers.{IsWorkerOf, seen};

use crate::pool::{Pool, Step};
use ja_base::Memory;
use ja_bdd::{Assign, Copies};
use ja_node_core::AnyAim;
use ja_node_table::NodeTable;
use std::alloc::Global;

/// The values of a function of the first twelve variables at all points.
type Values = [u64; 64];

fn bit(values: &Values, point: usize) -> bool {
    values[point / 64 % 64] >> (point % 64) & 1 == 1
}

/// The values where one of the first twelve variables is forgotten.
fn without(values: &Values, var: u32) -> Values {
    let mask = 1 << var.min(11);
    let mut made = [0; 64];
    for point in 0..4096 {
        if bit(values, point | mask) || bit(values, (point | mask) ^ mask) {
            made[point / 64] |= 1 << (point % 64);
        }
    }
    made
}

/// The values where all variables of some copies are forgotten.
fn without_copies(values: &Values, copies: Copies) -> Values {
    let mut made = *values;
    for var in 0..12 {
        if copies.has(var) {
            made = without(&made, var);
        }
    }
    made
}

/// The values that an operation is to give.
fn expected(step: Step, f: &Values, g: &Values) -> Values {
    match step {
        Step::Exists(var) => without(f, var),
        Step::ExistsAll(copies) => without_copies(f, copies),
        Step::AndExists(copies) => without_copies(&joined(Step::And, f, g), copies),
        step => joined(step, f, g),
    }
}

/// The values of a literal, a conjunction or a disjunction.
fn joined(step: Step, f: &Values, g: &Values) -> Values {
    let mut made = [0; 64];
    for point in 0..4096 {
        let value = match step {
            Step::Literal(var, positive) => (point >> var.min(11) & 1 == 1) == positive,
            Step::And => bit(f, point) && bit(g, point),
            _ => bit(f, point) || bit(g, point),
        };
        if value {
            made[point / 64] |= 1 << (point % 64);
        }
    }
    made
}

/// Whether a node has these values.
fn agrees(
    pool: &mut Pool,
    table: &NodeTable<AnyAim>,
    at: usize,
    wanted: &Values,
) -> Result<bool, Memory>
    requires { IsWorkerOf table.now pool.old.worker × All (λ n. Knows (seen pool.old.worker) n.number) pool.old.nodes.items }
    ensures { OnOk result (IsWorkerOf table.now pool.new.worker × All (λ n. Knows (seen pool.new.worker) n.number) pool.new.nodes.items) }
{
    for point in 0..4096 {
        if pool.value(table, at, point)? != bit(wanted, point) {
            return Err(Memory);
        }
    }
    Ok(true)
}

/// Some copies, by the lowest bits of a number.
fn drawn_copies(bits: u64) -> Copies {
    Copies {
        at_entry: bits & 1 == 1,
        at_present: bits & 2 == 2,
        at_next: bits & 4 == 4,
        at_callee: bits & 8 == 8,
    }
}

/// The operation of a round.
fn drawn(round: u32, random: u64) -> Step {
    let var = (random >> 20 & 0xffff) as u32 % 12;
    if round < 24 {
        return Step::Literal(round % 12, round < 12);
    }
    match random >> 40 & 7 {
        0 => Step::Exists(var),
        1 => Step::ExistsAll(drawn_copies(random >> 48)),
        2 => Step::AndExists(drawn_copies(random >> 48)),
        3 | 4 => Step::And,
        _ => Step::Or,
    }
}

/// The values that an operation of two functions with these places is to give.
fn wanted_of(step: Step, values: &[Values], f: usize, g: usize) -> Result<Values, Memory> {
    match (values.get(f), values.get(g)) {
        (Some(f), Some(g)) => Ok(expected(step, f, g)),
        _ => Err(Memory),
    }
}

/// Makes the function of a round of two earlier ones. Answers whether it has its values at all points, and an
/// assignment where it has one.
fn is_right(
    pool: &mut Pool,
    table: &NodeTable<AnyAim>,
    a: &mut Assign,
    values: &mut Vec<Values>,
    round: u32,
    random: u64,
) -> Result<bool, Memory>
    requires { IsWorkerOf table.now pool.old.worker × All (λ n. Knows (seen pool.old.worker) n.number) pool.old.nodes.items }
    ensures { OnOk result (IsWorkerOf table.now pool.new.worker × All (λ n. Knows (seen pool.new.worker) n.number) pool.new.nodes.items) }
{
    let f = (random >> 44) as usize % (round as usize + 2);
    let g = (random >> 24 & 0xfffff) as usize % (round as usize + 2);
    let step = drawn(round, random);
    let wanted = wanted_of(step, values.as_slice(), f, g)?;
    values.push(wanted)?;
    let at = pool.step(table, step, f, g)?;
    let agrees = agrees(pool, table, at, &wanted)?;
    let some = wanted.iter().any(|word| *word != 0);
    let picked = pool.pick(table, at, a)?;
    Ok(agrees && picked == some)
}

/// How many functions, each made of two earlier ones, are right.
fn count(
    pool: &mut Pool,
    table: &NodeTable<AnyAim>,
    a: &mut Assign,
    values: &mut Vec<Values>,
) -> Result<u32, Memory>
    requires { IsWorkerOf table.now pool.old.worker × All (λ n. Knows (seen pool.old.worker) n.number) pool.old.nodes.items }
{
    let mut random = 1u64;
    let mut right = 0u32;
    for round in 0..200 {
        random = random
            .wrapping_mul(0x5851_f42d_4c95_7f2d)
            .wrapping_add(0x1405_7b7e_f767_814f);
        if is_right(pool, table, a, values, round, random)? {
            right = right.saturating_add(1);
        }
    }
    Ok(right)
}

/// Adds how many functions, each made of two earlier ones, have their values at all points, and an assignment
/// where they have one.
pub fn add_random(
    out: &mut String,
    alloc: Global,
    pool: &mut Pool,
    table: &NodeTable<AnyAim>,
) -> Result<(), Memory>
    requires { IsWorkerOf table.now pool.old.worker × All (λ n. Knows (seen pool.old.worker) n.number) pool.old.nodes.items }
{
    let mut a = Assign::new(alloc)?;
    let mut values = vec![in alloc; [0u64; 64], [u64::MAX; 64]]?;
    let right = count(pool, table, &mut a, &mut values)?;
    Ok(writeln!(out, "random functions: {right} of 200 have their values")?)
}
