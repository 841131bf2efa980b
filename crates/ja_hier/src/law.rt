ghost use Rattle.std.specs.Prelude.{◌≡◌, ℕ, List};
ghost use Rattle.ja_ir.specs.declared.class.MethodAt.{MethodAt};
ghost use Rattle.ja_ir.specs.declared.head.ClassHead.{ClassHead};
ghost use Rattle.ja_hier.specs.declared.field_at.FieldAt.{FieldAt};
ghost use Rattle.ja_hier.specs.declared.skip.Skip.{Skip};
ghost use Rattle.ja_hier.specs.LookUps.{FindsField, Finds};

/// A look-up ends in one place: its definition, a relation, has at most one answer.
pub fn law_one_answer()
    ensures field { (heads : List ClassHead) (name desc : List ℕ) (c : ℕ) (a b : FieldAt) → FindsField heads name desc c a → FindsField heads name desc c b → a ≡ b }
    ensures method { (heads : List ClassHead) (skip : Skip) (name desc : List ℕ) (c : ℕ) (a b : MethodAt) → Finds heads skip name desc c a → Finds heads skip name desc c b → a ≡ b }
{}
