ghost use Rattle.std.specs.Prelude.{◌≡◌, ◌+◌, ◌<◌, ◌↔◌, [], Some, length, map, replicate, take, true, slice_get, slice_index_or, IfOk, OnOk, IsTrue};
ghost use Rattle.ja_ir.specs.declared.method.Method.{Method as MethodInfo};
ghost use Rattle.ja_facts.specs.FactTables.{no_targets};
ghost use Rattle.ja_facts.specs.Listing.{with_listed_in};
ghost use Rattle.ja_network.specs.Facts.{events_of};
ghost use Rattle.ja_class_tables.specs.InnerNotes.{IsNoted, noted_at, with_library, with_method};

use ja_base::{Memory, MethodId};
use ja_facts::{CallGraph, Rows, Targets};
use ja_ir::Program;
use ja_network::{Event, Network};
use std::alloc::Global;

/// What is noted of events, for each instruction.
#[derive(Drop)]
pub struct Notes {
    /// Which instructions are reached.
    pub graph: CallGraph,
    /// Where calls go.
    pub targets: Rows<Rows<Targets>>,
}

// So many items without targets.
fn no_targets(alloc: Global, count: u64) -> Result<Rows<Targets>, Memory>
    ensures { IfOk result (λ row. row ≡ replicate count no_targets) }
{
    let mut row = Rows::new(alloc);
    for _i in 0..count {
        row.push(Targets::new(alloc))?;
    }
    Ok(row)
}

// No targets for each instruction of each method.
fn all_targets(alloc: Global, p: &Program) -> Result<Rows<Rows<Targets>>, Memory>
    ensures { IfOk result (λ rows. rows ≡ map (λ (method : MethodInfo). replicate (length method.code) no_targets) p.now.methods) }
{
    let mut rows = Rows::new(alloc);
    for method in p.methods().as_slice() {
        rows.push(no_targets(alloc, method.code.len())?)?;
    }
    Ok(rows)
}

// The notes of no event.
fn nothing_noted(alloc: Global, p: &Program) -> Result<Notes, Memory>
    ensures { IfOk result (IsNoted p.now []) }
{
    let graph = CallGraph::new(alloc, p)?;
    let targets = all_targets(alloc, p)?;
    Ok(Notes { graph, targets })
}

// Whether there is an item for an instruction of a method.
fn has_item(targets: &Rows<Rows<Targets>>, m: u32, i: u32) -> bool
    ensures { IsTrue result ↔ (i < length (slice_index_or targets.now m [])) }
{
    (m as u64) < targets.len() && (i as u64) < targets.at(m as u64).len()
}

// Notes that an instruction is reached.
fn note_reached(m: u32, i: u32, notes: &mut Notes)
    requires { length (slice_index_or notes.old.graph.reached m []) ≡ length (slice_index_or notes.old.targets m []) }
    ensures { notes.new ≡ record notes.old { graph = record notes.old.graph { reached = with_listed_in notes.old.graph.reached m i true } } }
{
    if has_item(&notes.targets, m, i) {
        notes.graph.add(MethodId(m), i);
    }
}

// Notes that a call goes to a method.
fn note_method(m: u32, i: u32, target: u32, notes: &mut Notes) -> Result<(), Memory>
    ensures { OnOk result (notes.new ≡ record notes.old { targets = with_listed_in notes.old.targets m i (with_method (noted_at notes.old m i) target) }) }
{
    if has_item(&notes.targets, m, i) {
        let targets = notes.targets.at_mut(m as u64).at_mut(i as u64);
        targets.methods.push(target as u64)?;
    }
    Ok(())
}

// Notes that a call goes to the library.
fn note_library(m: u32, i: u32, notes: &mut Notes)
    ensures { notes.new ≡ record notes.old { targets = with_listed_in notes.old.targets m i (with_library (noted_at notes.old m i)) } }
{
    if has_item(&notes.targets, m, i) {
        notes.targets.at_mut(m as u64).at_mut(i as u64).library = true;
    }
}

// Notes an event.
fn note(p: &Program, net: &Network, k: u64, event: Event, notes: &mut Notes) -> Result<(), Memory>
    requires next { slice_get (events_of net.now) k ≡ Some event }
    requires noted { IsNoted p.now (take k (events_of net.now)) notes.old }
    ensures { OnOk result (IsNoted p.now (take (k + 1) (events_of net.now)) notes.new) }
{
    match event {
        Event::Reached { method, index } => {
            note_reached(method, index, notes);
            Ok(())
        }
        Event::Calls {
            method,
            index,
            target,
        } => note_method(method, index, target, notes),
        Event::CallsAbstract {
            method,
            index,
            target,
        } => note_method(method, index, target, notes),
        Event::CallsLibrary { method, index } => {
            note_library(method, index, notes);
            Ok(())
        }
        Event::Spanned { .. } => Ok(()),
        Event::Linked { .. } => Ok(()),
    }
}

/// The notes of all events that happen.
pub fn notes_of(alloc: Global, p: &Program, net: &Network) -> Result<Notes, Memory>
    ensures { IfOk result (IsNoted p.now (events_of net.now)) }
{
    let mut notes = nothing_noted(alloc, p)?;
    for k in 0..u64::MAX {
        match net.event_at(k) {
            Some(event) => note(p, net, k, event, &mut notes)?,
            None => return Ok(notes),
        }
    }
    Err(Memory)
}
