ghost use Rattle.std.specs.Prelude.{◌≡◌, ◌≢◌, ◌↔◌, ℕ, ◌≤◌, ◌%◌, true};
ghost use Rattle.ja_node_core.specs.Tree.{Assignment};
ghost use Rattle.ja_bdd.specs.Functions.{Function};
ghost use Rattle.ja_join.specs.declared.rule.Rule.{Rule};
ghost use Rattle.ja_join.specs.Composed.{earlier, composed};
ghost use Rattle.ja_base.specs.Limit.{last_variable};
ghost use Rattle.ja_join.specs.Steps.{Leads, IsStep, told_by, joint};

/// A composition is true exactly where both relations are for some present in between: at the entry as it
/// is, and next as it is at present.
pub fn law_composed()
    ensures { (φ ρ : Function) (a : Assignment) → (composed φ ρ a ≡ true) ↔ ((b : Assignment) × ((v : ℕ) → (v ≤ last_variable → v % 4 ≢ 1) → b v ≡ a (earlier v)) × (φ b ≡ true) × (ρ b ≡ true)) }
{}

/// A rule makes of each function one function.
pub fn law_step()
    ensures some { (rule : Rule) (φ : Function) → (ψ : Function) × IsStep rule φ ψ }
    ensures one { (rule : Rule) (φ ψ χ : Function) → IsStep rule φ ψ → IsStep rule φ χ → ψ ≡ χ }
{}

/// The step of a relation together with a function of a callee's variables is true exactly where the rule
/// may lead to from where the relation is true, and the function for what the moves tell there.
pub fn law_told()
    ensures { (rule : Rule) (φ σ ψ : Function) (after : Assignment) → IsStep rule (joint rule.moves.items φ σ) ψ → (ψ after ≡ true) ↔ ((before : Assignment) × Leads rule before after × (φ before ≡ true) × (σ (told_by rule.moves.items before) ≡ true)) }
{}
