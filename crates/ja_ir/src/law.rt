ghost use Rattle.std.specs.Prelude.{◌≡◌, ◌↔◌, Some, ℕ};
ghost use Rattle.ja_ir.specs.declared.program.Parts.{Parts};
ghost use Rattle.ja_ir.specs.Entries.{IsConstructorOf, constructor_of};
ghost use Rattle.ja_ir.specs.Examples.{LookUpsAnswer, TokensAreMade, TokensFit};
ghost use Rattle.ja_ir.specs.Sample.{sample};
ghost use Rattle.ja_ir.specs.Whole.{IsWhole};

/// In a small program, the tokens that fit types, and those that are made for types, and the answers of
/// look-ups are what they should be.
pub fn law_small_program()
    ensures fit { TokensFit }
    ensures made { TokensAreMade }
    ensures found { LookUpsAnswer }
{}

/// A program with entries, a handler, selections and a sink call is whole.
pub fn law_sample_is_whole()
    ensures { IsWhole sample }
{}

/// The search for a constructor answers what one is.
pub fn law_environment_methods()
    ensures { (p : Parts) (c m : ℕ) → (constructor_of p c ≡ Some m) ↔ IsConstructorOf p c m }
{}
