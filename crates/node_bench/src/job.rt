use crate::ask::ask;
use ja_node_core::AnyAim;
use ja_node_table::{NodeSeat, NodeTable, Parts};

/// The part of one thread: its seat, where in the list of parts it begins, and how many nodes it
/// was given.
#[derive(Drop)]
pub struct Job {
    pub seat: NodeSeat<AnyAim>,
    pub first: usize,
    pub given: u64,
}

impl Job {
    ghost use Rattle.node_bench.specs.Ready.{IsReady};

    /// Asks so many times for the node of the next parts of the list, round and round.
    pub fn run(&mut self, table: &NodeTable<AnyAim>, parts: &[Parts], count: u64)
        requires { IsReady table.now parts.now self.old }
        ensures { IsReady table.now parts.now self.new }
    {
        if parts.is_empty() {
            return;
        }
        let mut next = self.first;
        for _turn in 0..count {
            if next >= parts.len() {
                next = 0;
            }
            let made = ask(table, &mut self.seat, parts[next]);
            self.given = self.given.wrapping_add(u64::from(made.is_some()));
            next += 1;
        }
    }
}
