ghost use Rattle.std.specs.Prelude.{◌≡◌, ◌↔◌, ℕ, Bool, false, List};
ghost use Rattle.ja_ir.specs.declared.program.Parts.{Parts};
ghost use Rattle.ja_ir.specs.declared.method.Method.{Method};
ghost use Rattle.ja_ir.specs.declared.op.Op.{Op};
ghost use Rattle.ja_ir.specs.Operations.{FindsOperands};
ghost use Rattle.ja_facts.specs.declared.facts.Facts.{Facts};
ghost use Rattle.ja_facts.specs.Slots.{Slot};
ghost use Rattle.ja_facts.specs.Formulas.{Assignment};
ghost use Rattle.ja_facts.specs.Equations.{Reads};
ghost use Rattle.ja_bdd.specs.Functions.{Function};
ghost use Rattle.ja_join.specs.declared.rule.Rule.{Rule};
ghost use Rattle.ja_join.specs.Steps.{IsStep, IsBelow, LooksAs, IsLow, ArePartsAimed};
ghost use Rattle.ja_work.specs.declared.clause.Spot.{Spot};
ghost use Rattle.ja_work.specs.declared.clause.Clause.{Clause};
ghost use Rattle.ja_work.specs.declared.frame.Frame.{Frame};
ghost use Rattle.ja_work.specs.Clauses.{AllFit};
ghost use Rattle.ja_work.specs.Ends.{Tests, normal_clauses};
ghost use Rattle.ja_work.specs.Told.{told};
ghost use Rattle.ja_work.specs.Work.{IsMethod, IsSet, Saying, IsWorkTree};
ghost use Rattle.ja_steps.specs.Ends.{unread_clauses};
ghost use Rattle.ja_steps.specs.Led.{IsRuleOf, IsLedOn, Telling, said, Tells, LeadOn};

/// A step by the rule of clauses makes of a relation exactly what the clauses lead to from it.
pub fn law_rules()
    ensures { (frame : Frame) (clauses : Spot → Clause) (rule : Rule) (φ ψ : Function) → IsRuleOf frame clauses rule → IsStep rule φ ψ ↔ IsLedOn frame clauses φ ψ }
{}

/// What a step makes of a set of facts is a set of the facts that the clauses lead to, and so is each of its
/// parts, which look at nothing else; what is made of a relation of low variables is one; and where these facts
/// are said of the method, each part is of the aim of the program's work.
pub fn law_sets()
    ensures parts { (p : Parts) (f : Facts) (m : ℕ) (method : Method) (frame : Frame) (clauses : Spot → Clause) (rule : Rule) (first second : Telling p (told p f)) (φ χ ψ : Function) → IsRuleOf frame clauses rule → LeadOn p (told p f) m clauses first second
        → IsSet method frame (Tells p (told p f) m first) φ → IsStep rule φ χ → LooksAs rule φ ψ → IsBelow ψ χ → IsSet method frame (Tells p (told p f) m second) ψ }
    ensures whole { (rule : Rule) (φ χ : Function) → IsStep rule φ χ → LooksAs rule φ χ × (IsLow φ → IsLow χ) }
    ensures aimed { (p : Parts) (f : Facts) (frames : List Frame) (m : ℕ) (method : Method) (frame : Frame) (saying : Saying p (told p f)) (clauses : Spot → Clause) (rule : Rule) (first : Telling p (told p f)) (φ χ : Function)
        → IsMethod p (told p f) frames m method frame → IsRuleOf frame clauses rule → LeadOn p (told p f) m clauses first (said saying) → IsSet method frame (Tells p (told p f) m first) φ → IsStep rule φ χ
        → ArePartsAimed (IsWorkTree p (told p f) frames) rule φ χ }
{}

/// The clauses of a normal end at which nothing true is read of a field hold exactly where those of the normal
/// end do and what is read is false.
pub fn law_unread()
    ensures { (tests : Tests) (op : Op) (height : ℕ) (b after : Assignment) → FindsOperands op height
        → AllFit (unread_clauses tests op height) b after ↔ (AllFit (normal_clauses tests op height) b after × ((f : ℕ) (r : Slot) → Reads op height f r → after.slot r ≡ false)) }
{}
