ghost use Rattle.std.specs.Prelude.{◌↔◌, ℕ};
ghost use Rattle.ja_ir.specs.declared.program.Parts.{Parts};
ghost use Rattle.ja_ir.specs.Categories.{projected};
ghost use Rattle.ja_facts.specs.ClassSets.{Fact as ClassFact};
ghost use Rattle.ja_facts.specs.Held.{Fact as HeldFact};
ghost use Rattle.ja_facts.specs.Sharing.{Fact as HeapFact};
ghost use Rattle.ja_facts.specs.Reaching.{Fact as ReachFact};
ghost use Rattle.ja_facts.specs.Analyses.{Classes, Helds, Heaps, Reaches};

/// The program of a category has the class sets and call graph, the held cells, the pairs and effects,
/// and the reachability of the program itself: none of them looks at the flow of a row or at the marked
/// positions of an entry.
pub fn law_projected_keeps_analyses()
    ensures classes { (p : Parts) (c : ℕ) (f : ClassFact) → Classes (projected c p) f ↔ Classes p f }
    ensures held { (p : Parts) (c : ℕ) (f : HeldFact) → Helds (projected c p) f ↔ Helds p f }
    ensures heaps { (p : Parts) (c : ℕ) (f : HeapFact) → Heaps (projected c p) f ↔ Heaps p f }
    ensures reach { (p : Parts) (c : ℕ) (f : ReachFact) → Reaches (projected c p) f ↔ Reaches p f }
{}
