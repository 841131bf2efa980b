ghost use Rattle.std.specs.Prelude.{◌↔◌};
ghost use Rattle.ja_ir.specs.declared.program.Parts.{Parts};
ghost use Rattle.ja_ir.specs.Whole.{IsWhole};
ghost use Rattle.ja_facts.specs.Least.{Least};
ghost use Rattle.ja_facts.specs.ClassSets.{Fact as ClassFact};
ghost use Rattle.ja_facts.specs.Analyses.{Classes};
ghost use Rattle.ja_network.specs.declared.network.Network.{Network};
ghost use Rattle.ja_network.specs.Facts.{Tells};
ghost use Rattle.ja_cells.specs.Names.{Names, AreNames};
ghost use Rattle.ja_solving.specs.Rules.{Rule, IsSolved};
ghost use Rattle.ja_class_laws.specs.Shown.{Shows};

/// Of a whole program, where cells are named right, the least set of facts under the rules of a network
/// shows exactly the class sets and the call graph; and so does a network that is solved.
pub fn law_network_shows_class_sets()
    ensures least { (p : Parts) (names : Names) → IsWhole p → AreNames p names → (f : ClassFact) → Classes p f ↔ Shows p names (Least (Rule p names)) f }
    ensures solved { (p : Parts) (names : Names) (net : Network) → IsWhole p → AreNames p names → IsSolved p names net → (f : ClassFact) → Classes p f ↔ Shows p names (Tells net) f }
{}
