ghost use Rattle.std.specs.Prelude.{ℕ, List};
ghost use Rattle.ja_ir.specs.declared.program.Parts.{Parts};
ghost use Rattle.ja_ir.specs.declared.method.Method.{Method};
ghost use Rattle.ja_facts.specs.declared.facts.Facts.{Facts};
ghost use Rattle.ja_work.specs.declared.frame.Frame.{Frame};
ghost use Rattle.ja_work.specs.Told.{told};
ghost use Rattle.ja_work.specs.Work.{IsMethod, IsWorkTree};
ghost use Rattle.ja_formula.specs.Made.{AreAimed, IsNormalPart, IsThrownPart};

/// What the calls make of an instruction of a method is of the aim of the program's work, for any order
/// of the variables of its methods.
pub fn law_parts()
    ensures normal { (p : Parts) (f : Facts) (frames : List Frame) (m i : ℕ) (method : Method) (frame : Frame) → IsMethod p (told p f) frames m method frame → AreAimed (IsWorkTree p (told p f) frames) (IsNormalPart p f frame m i) }
    ensures thrown { (p : Parts) (f : Facts) (frames : List Frame) (m i : ℕ) (method : Method) (frame : Frame) → IsMethod p (told p f) frames m method frame → AreAimed (IsWorkTree p (told p f) frames) (IsThrownPart p f frame m i) }
{}
