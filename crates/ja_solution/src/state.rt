ghost use Rattle.std.specs.Prelude.{◌≡◌, ◌≤◌, ◌<◌, ◌^◌, ℕ, IfSome, IfNone, IfOk, OnOk, OnErr, IsTrue, Some, Contains, false, true, length, slice_get, slice_set, slice_index_or};
ghost use Rattle.ja_ir.specs.declared.entry.Site.{Site};
ghost use Rattle.ja_node_core.specs.Node.{Words, Knows};
ghost use Rattle.ja_node_table.specs.Seats.{aim_of};
ghost use Rattle.ja_bdd.specs.Meaning.{meaning, Keeps};
ghost use Rattle.ja_bdd.specs.Workers.{IsWorkerOf, seen};
ghost use Rattle.ja_join.specs.Steps.{IsBelow};
ghost use Rattle.ja_facts.specs.FactTables.{cell_count};
ghost use Rattle.ja_facts.specs.Equations.{IsWarned};
ghost use Rattle.ja_blocks.specs.Index.{InList};
ghost use Rattle.ja_blocks.specs.declared.blocks.ProgramBlock.{ProgramBlock};
ghost use Rattle.ja_solution.specs.Problem.{Solution};
ghost use Rattle.ja_solution.specs.Settled.{IsSettled};
ghost use Rattle.ja_solution.specs.Solved.{IsOfCell};
ghost use Rattle.ja_solution.specs.Reads.{Grow};
ghost use Rattle.ja_solution.specs.Nodes.{values_of, problem_of, IsGiven, IsForWork, IsCellName, IsStored, AreSized, IsState, is_dirty};
ghost use Rattle.ja_solution.specs.InnerMarks.{AreMarked, ReadsCell, ReadsOneOf, BeginsOneOf, ReadsStored};

use crate::cells::{CellName, Cells, Counts};
use crate::given::Given;
use ja_base::{Memory, Numbers};
use ja_bdd::Worker;
use ja_blocks::Layout;
use ja_ir::Entry;
use ja_node_core::Aim;
use ja_node_table::{Full, Node, NodeTable};
use std::alloc::Global;

/// Cells, and which blocks are to be looked at again.
#[derive(Drop)]
pub struct State {
    pub cells: Cells,
    pub dirty: Vec<bool>,
}

/// Marks a block, where there is one.
fn mark_one(dirty: &mut Vec<bool>, number: u64)
    ensures { AreMarked dirty.old.items dirty.new.items (λ k. k ≡ number) }
{
    if number < dirty.len() as u64 {
        dirty[number as usize] = true;
    }
}

/// Marks these blocks.
fn mark(dirty: &mut Vec<bool>, numbers: &[u64])
    ensures { AreMarked dirty.old.items dirty.new.items (λ k. Contains numbers.now k) }
{
    for number in numbers {
        mark_one(dirty, *number);
    }
}

/// Marks the blocks in the list of a key, where there is one.
fn mark_list(dirty: &mut Vec<bool>, lists: &[Numbers], key: u64)
    ensures { AreMarked dirty.old.items dirty.new.items (InList lists.now key) }
{
    if key < lists.len() as u64 {
        mark(dirty, lists[key as usize].as_slice());
    }
}

/// Marks the readers of a cell.
fn mark_readers(dirty: &mut Vec<bool>, layout: &Layout, name: CellName)
    ensures { AreMarked dirty.old.items dirty.new.items (ReadsCell layout.now name) }
{
    match name {
        CellName::Called(m) => mark_list(dirty, layout.beginners.as_slice(), u64::from(m)),
        CellName::Returned(m) | CellName::Thrown(m) => {
            mark_list(dirty, layout.callers.as_slice(), u64::from(m))
        }
        CellName::Before(k) => mark_one(dirty, u64::from(k)),
    }
}

/// Marks the readers of these fields.
fn mark_fields(dirty: &mut Vec<bool>, readers: &[Numbers], fields: &[u64])
    ensures { AreMarked dirty.old.items dirty.new.items (ReadsOneOf readers.now fields.now) }
{
    for field in fields {
        mark_list(dirty, readers, *field);
    }
}

/// Marks the blocks that begin the methods of these entries.
fn mark_entries(dirty: &mut Vec<bool>, layout: &Layout, entries: &[Entry])
    ensures { AreMarked dirty.old.items dirty.new.items (BeginsOneOf layout.now entries.now) }
{
    for entry in entries {
        mark_list(
            dirty,
            layout.beginners.as_slice(),
            u64::from(entry.method.0),
        );
    }
}

/// Marks the readers of the field or bag of a number.
fn mark_stored(dirty: &mut Vec<bool>, layout: &Layout, entries: &[Entry], number: u64)
    requires { number < length layout.now.holders }
    ensures { AreMarked dirty.old.items dirty.new.items (ReadsStored layout.now entries.now number) }
{
    let fields = layout.holders.at(number);
    mark_fields(dirty, layout.readers.as_slice(), fields.as_slice());
    mark_entries(dirty, layout, entries);
}

/// Adds to a cell what a known node says. Where the cell then says more, its readers are marked.
///
/// The answer says whether it does. `Full` leaves the cells as they are.
pub fn raise<A: Aim>(
    state: &mut State,
    worker: &mut Worker<A>,
    table: &NodeTable<A>,
    given: &Given,
    name: CellName,
    node: Node,
) -> Result<bool, Full<A>>
    requires worker { IsWorkerOf table.now worker.old }
    requires given { IsGiven given.now }
    requires table { IsForWork (problem_of given.now) (A.aims (aim_of table.now)) }
    requires state { IsState (problem_of given.now) (seen worker.old) state.old }
    requires known { Knows (seen worker.old) node.number }
    requires name { IsCellName (problem_of given.now) name }
    requires cell { IsOfCell (problem_of given.now) name (meaning (seen worker.old) node.number) }
    ensures worker { IsWorkerOf table.now worker.new }
    ensures keeps { Keeps (seen worker.old) (seen worker.new) }
    ensures state { IsState (problem_of given.now) (seen worker.new) state.new }
    ensures grow { Grow (values_of (seen worker.old) state.old.cells) (values_of (seen worker.new) state.new.cells) }
    ensures said { OnOk result (IsBelow (meaning (seen worker.old) node.number) ((values_of (seen worker.new) state.new.cells).at name)) }
    ensures same { IfOk result (λ changed. changed ≡ false → state.new ≡ state.old) }
    ensures full { OnErr result (state.new ≡ state.old) }
{
    let old = state.cells.get(name);
    let made = match worker.or(table, old, node) {
        Ok(made) => made,
        Err(full) => return Err(full),
    };
    if made.number == old.number {
        return Ok(false);
    }
    state.cells.set(name, made);
    mark_readers(&mut state.dirty, given.layout, name);
    Ok(true)
}

/// Says that something tainted may have been stored into the field or bag of a number, and marks its readers
/// where this was not said.
pub fn store(state: &mut State, given: &Given, number: u32) -> bool
    requires given { IsGiven given.now }
    requires number { number < cell_count given.now.program.now }
    requires cell { IsStored (problem_of given.now) number }
    requires sized { AreSized (problem_of given.now) state.old }
    ensures state { (k : Words) → IsState (problem_of given.now) k state.old → IsState (problem_of given.now) k state.new }
    ensures grow { (k : Words) → Grow (values_of k state.old.cells) (values_of k state.new.cells) }
    ensures said { slice_index_or state.new.cells.stored.items number false ≡ true }
    ensures same { result ≡ false → state.new ≡ state.old }
{
    if state.cells.stored[number as usize] {
        return false;
    }
    state.cells.stored[number as usize] = true;
    mark_stored(
        &mut state.dirty,
        given.layout,
        given.program.entries().as_slice(),
        u64::from(number),
    );
    true
}

/// Says that a site is warned.
pub fn warn(state: &mut State, given: &Given, site: u32)
    requires given { IsGiven given.now }
    requires site { site < length given.now.program.now.sites }
    requires warned { (s : Site) → slice_get given.now.program.now.sites site ≡ Some s → IsWarned given.now.program.now (Solution (problem_of given.now)) s }
    requires sized { AreSized (problem_of given.now) state.old }
    ensures state { (k : Words) → IsState (problem_of given.now) k state.old → IsState (problem_of given.now) k state.new }
    ensures grow { (k : Words) → Grow (values_of k state.old.cells) (values_of k state.new.cells) }
    ensures said { slice_index_or state.new.cells.warned.items site false ≡ true }
{
    state.cells.warned[site as usize] = true;
}

/// Says that a block, whose rules hold, need not be looked at again.
pub fn settle(state: &mut State, given: &Given, block: u32)
    requires sized { AreSized (problem_of given.now) state.old }
    requires block { block < length given.now.layout.now.blocks }
    ensures state { (k : Words) → IsState (problem_of given.now) k state.old → ((b : ProgramBlock) → slice_get given.now.layout.now.blocks block ≡ Some b → IsSettled (problem_of given.now) b (values_of k state.old.cells) (values_of k state.old.cells)) → IsState (problem_of given.now) k state.new }
    ensures cells { state.new.cells ≡ state.old.cells }
    ensures dirty { state.new.dirty.items ≡ slice_set state.old.dirty.items block false }
{
    state.dirty[block as usize] = false;
}

/// A state in which nothing is said, and each block is to be looked at.
pub fn first_state(alloc: Global, given: &Given) -> Result<State, Memory>
    requires { IsGiven given.now }
    ensures { IfOk result (λ state. (k : Words) → IsState (problem_of given.now) k state) }
{
    let counts = Counts {
        methods: given.program.methods().len() as usize,
        blocks: given.layout.blocks.len() as usize,
        stored: (given.program.fields().len() + given.program.classes().len() + 4) as usize,
        sites: given.program.sites().len() as usize,
    };
    let cells = Cells::new(alloc, counts)?;
    let dirty = Vec::from_elem(alloc, true, counts.blocks)?;
    Ok(State { cells, dirty })
}

/// The first block from a number on that is to be looked at again, if there is one.
pub fn next_dirty(state: &State, from: u32) -> Option<u32>
    requires { length state.now.dirty.items < 2 ^ 32 }
    ensures some { IfSome result (λ b. (from ≤ b) × (b < length state.now.dirty.items) × (is_dirty state.now.dirty.items b ≡ true)) }
    ensures none { IfNone result ((b : ℕ) → from ≤ b → is_dirty state.now.dirty.items b ≡ false) }
{
    for block in from..state.dirty.len() as u32 {
        if state.dirty[block as usize] {
            return Some(block);
        }
    }
    None
}
