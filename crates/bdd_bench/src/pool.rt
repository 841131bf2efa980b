ghost use Rattle.std.specs.Prelude.{◌≡◌, ◌≤◌, ◌<◌, IfSome};
ghost use Rattle.ja_node_core.specs.Node.{Knows};
ghost use Rattle.ja_bdd.specs.Meaning.{Keeps};
ghost use Rattle.ja_bdd.specs.Workers.{IsWorkerOf, seen};
ghost use Rattle.ja_base.specs.Limit.{last_variable};

use crate::failure::Failure;
use ja_bdd::{Copies, MAX_ENTRIES, Worker};
use ja_node_core::AnyAim;
use ja_node_table::{Node, NodeSeat, NodeTable};
use std::alloc::Global;

/// How many slots the relations have, each of four copies.
pub const SLOTS: u32 = 64;

/// The place of the constant true.
pub const TRUE: usize = 1;

/// The place where a variable is.
pub fn is(var: u32) -> usize {
    (var as usize).wrapping_mul(2).wrapping_add(2)
}

/// The place where a variable's negation is.
pub fn is_not(var: u32) -> usize {
    (var as usize).wrapping_mul(2).wrapping_add(3)
}

/// One operation.
#[derive(Clone, Copy)]
pub enum Step {
    And,
    Or,
    Exists(u32),
    ExistsAll(Copies),
    AndExists(Copies),
}

/// Makes one operation, of a worker that knows both nodes.
pub fn ask(
    table: &NodeTable<AnyAim>,
    worker: &mut Worker<AnyAim>,
    step: Step,
    f: Node,
    g: Node,
) -> Option<Node>
    requires worker { IsWorkerOf table.now worker.old }
    requires known { Knows (seen worker.old) f.number × Knows (seen worker.old) g.number }
    ensures worker { IsWorkerOf table.now worker.new }
    ensures keeps { Keeps (seen worker.old) (seen worker.new) }
    ensures known { IfSome result (λ n. Knows (seen worker.new) n.number) }
{
    match step {
        Step::And => worker.and(table, f, g).ok(),
        Step::Or => worker.or(table, f, g).ok(),
        Step::Exists(var) => worker.exists(table, f, var).ok(),
        Step::ExistsAll(copies) => worker.exists_all(table, f, copies).ok(),
        Step::AndExists(copies) => worker.and_exists(table, f, g, copies).ok(),
    }
}

/// The node of a variable or of its negation.
fn literal(
    table: &NodeTable<AnyAim>,
    worker: &mut Worker<AnyAim>,
    var: u32,
    value: bool,
) -> Option<Node>
    requires worker { IsWorkerOf table.now worker.old }
    requires var { var ≤ last_variable }
    ensures worker { IsWorkerOf table.now worker.new }
    ensures keeps { Keeps (seen worker.old) (seen worker.new) }
    ensures known { IfSome result (λ n. Knows (seen worker.new) n.number) }
{
    if value {
        worker.make(table, var, Node::FALSE, Node::TRUE).ok()
    } else {
        worker.make(table, var, Node::TRUE, Node::FALSE).ok()
    }
}

/// A worker with nodes that it knows: the constants, each variable and its negation, and what was
/// made of these.
#[derive(Drop)]
pub struct Pool {
    pub worker: Worker<AnyAim>,
    pub nodes: Vec<Node>,
}

impl Pool {
    ghost use Rattle.std.specs.Prelude.{◌≡◌, ◌≤◌, IfOk, OnOk, IfSome};
    ghost use Rattle.ja_node_core.specs.Node.{Knows};
    ghost use Rattle.ja_node_table.specs.Seats.{IsOf};
    ghost use Rattle.ja_bdd.specs.Meaning.{Keeps};
    ghost use Rattle.ja_bdd.specs.Workers.{IsWorkerOf, seen};
    ghost use Rattle.bdd_bench.specs.Ready.{AreKnown, IsReady};

    /// The pool of the two constants, whose worker has a cache of so many entries.
    fn constants(
        alloc: Global,
        table: &NodeTable<AnyAim>,
        seat: NodeSeat<AnyAim>,
        entries: usize,
    ) -> Result<Pool, Failure>
        requires seat { IsOf table.now seat }
        requires entries { (1 ≤ entries) × (entries ≤ MAX_ENTRIES) }
        ensures { IfOk result (λ p. IsReady table.now p) }
    {
        let Ok(worker) = Worker::with_cache(alloc, seat, entries) else {
            return Err(Failure::Memory);
        };
        let nodes = vec![in alloc; Node::FALSE, Node::TRUE]?;
        Ok(Pool { worker, nodes })
    }

    /// Adds the node of a variable or of its negation.
    fn add(&mut self, table: &NodeTable<AnyAim>, var: u32, value: bool) -> Result<(), Failure>
        requires ready { IsReady table.now self.old }
        requires var { var ≤ last_variable }
        ensures { OnOk result (IsReady table.now self.new) }
    {
        let Some(made) = literal(table, &mut self.worker, var, value) else {
            return Err(Failure::NoRoom);
        };
        self.nodes.push(made)?;
        Ok(())
    }

    /// The pool of the constants, the variables and their negations, whose worker has a cache of so
    /// many entries.
    pub fn new(
        alloc: Global,
        table: &NodeTable<AnyAim>,
        seat: NodeSeat<AnyAim>,
        entries: usize,
    ) -> Result<Pool, Failure>
        requires seat { IsOf table.now seat }
        requires entries { (1 ≤ entries) × (entries ≤ MAX_ENTRIES) }
        ensures { IfOk result (λ p. IsReady table.now p) }
    {
        let mut pool = Pool::constants(alloc, table, seat, entries)?;
        for var in 0..4 * SLOTS {
            pool.add(table, var, true)?;
            pool.add(table, var, false)?;
        }
        Ok(pool)
    }

    /// The node at a place.
    pub fn node(&self, at: usize) -> Result<Node, Failure>
        requires { AreKnown (seen self.now.worker) self.now.nodes.items }
        ensures { IfOk result (λ n. Knows (seen self.now.worker) n.number) }
    {
        if at >= self.nodes.len() {
            return Err(Failure::NoSuchNode);
        }
        let n = self.nodes[at];
        Ok(n)
    }

    /// Makes one operation of two nodes, and answers the place of what was made.
    pub fn step(
        &mut self,
        table: &NodeTable<AnyAim>,
        step: Step,
        f: usize,
        g: usize,
    ) -> Result<usize, Failure>
        requires { IsReady table.now self.old }
        ensures { OnOk result (IsReady table.now self.new) }
    {
        let f = self.node(f)?;
        let g = self.node(g)?;
        let Some(made) = ask(table, &mut self.worker, step, f, g) else {
            return Err(Failure::NoRoom);
        };
        self.nodes.push(made)?;
        Ok(self.nodes.len() - 1)
    }
}
