ghost use Rattle.std.specs.Prelude.{◌≡◌, IfOk};
ghost use Rattle.ja_facts.specs.ClassTables.{token_count};
ghost use Rattle.ja_network.specs.Facts.{IsNetwork, events_of};
ghost use Rattle.ja_class_tables.specs.InnerMembers.{HasMembers};
ghost use Rattle.ja_class_tables.specs.InnerNotes.{HasItems, IsNoted};
ghost use Rattle.ja_class_tables.specs.Reads.{ReadsGraph, ReadsReached, ReadsSets};

use crate::members::{put_all_params, put_bags, put_fields, put_results};
use crate::notes::{Notes, notes_of};
use crate::numbers::{Part, numbers_of};
use crate::pool::Pool;
use crate::slots::slot_names;
use crate::targets::target_numbers;
use ja_base::Memory;
use ja_cells::Names;
use ja_facts::{CallGraph, ClassSets, Rows};
use ja_ir::Program;
use ja_network::Network;
use std::alloc::Global;

// The call graph that a network tells.
fn graph_of(alloc: Global, p: &Program, net: &Network) -> Result<CallGraph, Memory>
    requires network { IsNetwork net.now }
    requires tokens { net.now.tokens ≡ token_count p.now }
    ensures room { IfOk result (λ graph. HasItems p.now graph.reached) }
    ensures reads { IfOk result (ReadsGraph p.now net.now) }
{
    let Notes { mut graph, targets } = notes_of(alloc, p, net)?;
    let mut pool = Rows::new(alloc);
    let numbers = target_numbers(alloc, &targets, &mut pool)?;
    graph.share_targets(numbers, pool);
    let mut takers = Pool::new(alloc);
    let numbers = numbers_of(alloc, p, net, Part::OfTakers, &graph, &mut takers)?;
    graph.share_takers(numbers, takers.into_sets());
    Ok(graph)
}

// The class sets in which parameters, results, fields and bags are those that a network tells.
fn members_of(alloc: Global, p: &Program, net: &Network) -> Result<ClassSets, Memory>
    requires network { IsNetwork net.now }
    ensures { IfOk result (HasMembers p.now net.now) }
{
    let mut sets = ClassSets::new(alloc, p)?;
    put_all_params(alloc, p, net, &mut sets)?;
    put_results(alloc, p, net, &mut sets)?;
    put_fields(alloc, p, net, &mut sets)?;
    put_bags(alloc, p, net, &mut sets)?;
    Ok(sets)
}

// The class sets that a network tells.
fn sets_of(
    alloc: Global,
    p: &Program,
    names: &Names,
    net: &Network,
    graph: &CallGraph,
) -> Result<ClassSets, Memory>
    requires network { IsNetwork net.now }
    requires tokens { net.now.tokens ≡ token_count p.now }
    requires room { HasItems p.now graph.now.reached }
    requires reached { ReadsReached p.now net.now graph.now }
    ensures { IfOk result (ReadsSets p.now names.now net.now) }
{
    let mut sets = members_of(alloc, p, net)?;
    let mut pool = Pool::new(alloc);
    let slots = slot_names(alloc, p, names, net, graph, &mut pool)?;
    let thrown = numbers_of(alloc, p, net, Part::OfThrown, graph, &mut pool)?;
    sets.share(slots, thrown, pool.into_sets());
    Ok(sets)
}

/// The class sets and the call graph that a network tells, in which names say which cell has the
/// tokens of which slot. `Memory` is the one other answer.
pub fn tables(
    alloc: Global,
    p: &Program,
    names: &Names,
    net: &Network,
) -> Result<(ClassSets, CallGraph), Memory>
    requires network { IsNetwork net.now }
    requires tokens { net.now.tokens ≡ token_count p.now }
    ensures sets { IfOk result (λ both. ReadsSets p.now names.now net.now both.0) }
    ensures graph { IfOk result (λ both. ReadsGraph p.now net.now both.1) }
{
    let graph = graph_of(alloc, p, net)?;
    let sets = sets_of(alloc, p, names, net, &graph)?;
    Ok((sets, graph))
}
