//! Tables that a text spells.
ghost use Rattle.std.specs.Prelude.{◌≡◌, ◌<◌, ◌≤◌, ◌⊎◌, ℕ, Some, IfOk, IfSome, OnOk, slice_get};
ghost use Rattle.ja_base.specs.declared.limit.TheConstants.{MIN_SLOTS, MAX_SLOTS};
ghost use Rattle.ja_node_core.specs.Node.{Knows};
ghost use Rattle.ja_bdd.specs.Meaning.{Keeps};
ghost use Rattle.ja_bdd.specs.Workers.{IsWorkerOf, seen};
ghost use Rattle.diagram_cases.specs.Roots.{AreKnown};

use crate::growth::grown::{add_grown, grown};
use crate::nodes::constant;
use case_text::words_of;
use ja_base::{MAX_SLOTS, MIN_SLOTS, Memory, Seq};
use ja_bdd::{Roots, Worker};
use ja_node_core::AnyAim;
use ja_node_table::{Node, NodeTable};
use std::alloc::Global;

/// A line: the node of a variable over two constants, and whether it is a root.
#[derive(Clone, Copy)]
struct Asked {
    is_root: bool,
    var: u32,
    low: bool,
    high: bool,
}

/// What the words `node VAR LOW HIGH` or `root VAR LOW HIGH` ask.
fn asked_of(words: &[&str]) -> Option<Asked>
    ensures { IfSome result (λ asked. asked.var ≤ 4094) }
{
    match words {
        [kind, var, low, high] => Some(Asked {
            is_root: *kind == "root",
            var: var.parse::<u32>().unwrap_or(4094).min(4094),
            low: *low == "1",
            high: *high == "1",
        }),
        _ => None,
    }
}

/// The node that a line asks for, where there is room.
fn make(table: &NodeTable<AnyAim>, worker: &mut Worker<AnyAim>, asked: Asked) -> Option<Node>
    requires worker { IsWorkerOf table.now worker.old }
    requires var { asked.var ≤ 4094 }
    ensures worker { IsWorkerOf table.now worker.new }
    ensures keeps { Keeps (seen worker.old) (seen worker.new) }
    ensures known { IfSome result (λ n. Knows (seen worker.new) n.number) }
{
    worker
        .make(table, asked.var, constant(asked.low), constant(asked.high))
        .ok()
}

/// Adds a node that is a root.
fn add_root(roots: &mut Roots, is_root: bool, node: Node) -> Result<(), Memory>
    ensures { OnOk result ((i : ℕ) (m : Node) → slice_get roots.new i ≡ Some m → (slice_get roots.old i ≡ Some m) ⊎ (m ≡ node)) }
{
    if is_root {
        roots.push(node)?;
    }
    Ok(())
}

/// The roots that lines ask for.
fn roots_of(
    alloc: Global,
    table: &NodeTable<AnyAim>,
    worker: &mut Worker<AnyAim>,
    lines: &str,
) -> Result<Roots, Memory>
    requires { IsWorkerOf table.now worker.old }
    ensures worker { IsWorkerOf table.now worker.new }
    ensures roots { IfOk result (AreKnown (seen worker.new)) }
{
    let mut roots = Seq::new(alloc);
    for line in lines.lines() {
        let words = words_of(alloc, line)?;
        let Some(asked) = asked_of(words.as_slice()) else {
            continue;
        };
        let Some(node) = make(table, worker, asked) else {
            continue;
        };
        add_root(&mut roots, asked.is_root, node)?;
    }
    Ok(roots)
}

/// A number of slots that a table may have.
fn slots_of(word: &str) -> u64
    ensures { (MIN_SLOTS ≤ result) × (result ≤ MAX_SLOTS) }
{
    word.parse::<u64>()
        .unwrap_or(MIN_SLOTS)
        .max(MIN_SLOTS)
        .min(MAX_SLOTS)
}

/// Adds what the roots of a table become in another.
pub fn add_case(out: &mut String, alloc: Global, head: &str, lines: &str) -> Result<(), Memory> {
    let Some((from, to)) = head.split_once(" to ") else {
        return Ok(());
    };
    let (table, seat) = NodeTable::new(alloc, slots_of(from), AnyAim)?;
    let mut worker = Worker::new(alloc, seat).ok().ok_or(Memory)?;
    let roots = roots_of(alloc, &table, &mut worker, lines)?;
    write!(out, "{head}:")?;
    add_grown(
        out,
        &grown(alloc, &table, &mut worker, &roots, slots_of(to)),
    )
}
