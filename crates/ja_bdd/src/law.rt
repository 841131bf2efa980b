ghost use Rattle.std.specs.Prelude.{◌≡◌, ◌≤◌, ◌↔◌, ℕ, Bool, true, false};
ghost use Rattle.ja_node_core.specs.Tree.{Assignment};
ghost use Rattle.ja_bdd.specs.Functions.{Function};
ghost use Rattle.ja_bdd.specs.Copies.{all_forgotten, AgreeOnRest};

/// What is left of a function is true exactly where the function is true for some values of the
/// variables that go.
pub fn law_forgotten()
    ensures { (goes : ℕ → Bool) (φ : Function) (a : Assignment) → (all_forgotten goes φ a ≡ true) ↔ ((b : Assignment) × AgreeOnRest goes b a × (φ b ≡ true)) }
{}
