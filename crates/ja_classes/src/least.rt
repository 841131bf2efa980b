ghost use Rattle.std.specs.Prelude.{◌↔◌, IfOk};
ghost use Rattle.ja_facts.specs.Analyses.{Classes};
ghost use Rattle.ja_facts.specs.ClassSets.{Fact};
ghost use Rattle.ja_facts.specs.Told.{IsGraphFor, IsKeptGraph, IsKeptSets, TellsGraph, TellsSets};
ghost use Rattle.ja_classes.specs.Sized.{AreSetsFor, AreTakersFor};

use ja_base::Memory;
use ja_cells::names_of;
use ja_class_laws::law_network_shows_class_sets;
use ja_class_tables::tables;
use ja_facts::{CallGraph, ClassSets};
use ja_ir::Program;
use ja_solving::solve;
use ja_tokens::ClassNumbers;
use std::alloc::Global;

/// Which kinds of objects may be where, and where calls may go: exactly the least class sets and the
/// least call graph of the program. `Memory` is the one other answer.
pub fn class_sets(alloc: Global, p: &Program) -> Result<(ClassSets, CallGraph), Memory>
    ensures sets { IfOk result (λ both. (f : Fact) → IsKeptSets f → TellsSets p.now both.0 f ↔ Classes p.now f) }
    ensures graph { IfOk result (λ both. (f : Fact) → IsKeptGraph f → TellsGraph p.now both.1 f ↔ Classes p.now f) }
    ensures sets_of_program { IfOk result (λ both. AreSetsFor p.now both.0) }
    ensures graph_of_program { IfOk result (λ both. IsGraphFor p.now both.1) }
    ensures takers_of_program { IfOk result (λ both. AreTakersFor p.now both.1) }
{
    // A program is whole.
    let _parts = p.parts();
    let names = names_of(alloc, p)?;
    let classes = ClassNumbers::new(alloc, p)?;
    let network = solve(alloc, p, &names, &classes)?;
    law_network_shows_class_sets();
    tables(alloc, p, &names, &network)
}
