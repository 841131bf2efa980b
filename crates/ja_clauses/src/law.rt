ghost use Rattle.std.specs.Prelude.{◌≡◌};
ghost use Rattle.ja_ir.specs.declared.program.Parts.{Parts};
ghost use Rattle.ja_facts.specs.declared.facts.Facts.{Facts};
ghost use Rattle.ja_facts.specs.FactTables.{empty_pairs, empty_reach};
ghost use Rattle.ja_clauses.specs.Tables.{AreShaped};

/// The empty tables of a program have a set for each of its instructions.
pub fn law_empty_are_shaped()
    ensures { (p : Parts) (f : Facts) → f.pairs ≡ empty_pairs p → f.reach ≡ empty_reach p → AreShaped p f }
{}
