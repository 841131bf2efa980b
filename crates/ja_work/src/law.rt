ghost use Rattle.std.specs.Prelude.{◌≡◌, ◌↔◌, ℕ, ◌+◌, ◌<◌, Bool, true, false, Some, None, List, []};
ghost use Rattle.ja_ir.specs.declared.program.Parts.{Parts};
ghost use Rattle.ja_ir.specs.declared.method.Method.{Method};
ghost use Rattle.ja_ir.specs.declared.method.Instr.{Instr};
ghost use Rattle.ja_ir.specs.declared.op.Op.{Op};
ghost use Rattle.ja_ir.specs.Lookup.{instr_at};
ghost use Rattle.ja_ir.specs.Operations.{FindsOperands};
ghost use Rattle.ja_facts.specs.declared.facts.Facts.{Facts};
ghost use Rattle.ja_facts.specs.Slots.{Slot};
ghost use Rattle.ja_facts.specs.Formulas.{Assignment, Summary, IsNormalEnd, IsExceptionalEnd, IsReturn, IsCallThrown};
ghost use Rattle.ja_facts.specs.Slots.{OnStack as InStack};
ghost use Rattle.ja_facts.specs.Equations.{IsCaught, thrown_summary, return_summary};
ghost use Rattle.ja_node_core.specs.Tree.{Tree, leaf, Assignment as Variables};
ghost use Rattle.ja_work.specs.declared.clause.Spot.{Spot};
ghost use Rattle.ja_work.specs.declared.clause.Clause.{Clause};
ghost use Rattle.ja_work.specs.declared.frame.Frame.{Frame};
ghost use Rattle.ja_work.specs.declared.way.Way.{Way};
ghost use Rattle.ja_work.specs.Orders.{IsOrder};
ghost use Rattle.ja_bdd.specs.Functions.{Function, IsAimed};
ghost use Rattle.ja_work.specs.Frames.{size, spot_at, read, clause_function, clauses_from, whole, KeepsOutside};
ghost use Rattle.ja_work.specs.Thrown.{HasRoom, ends_thrown};
ghost use Rattle.ja_work.specs.Work.{TellsSummary, end_clauses, leave_clauses, ReachedAt, IsSet, IsRule, Saying, Says, IsMethod, IsVariable, literal, IsPiece, IsWorkTree};
ghost use Rattle.ja_work.specs.Clauses.{AllFit};
ghost use Rattle.ja_work.specs.Ends.{Tests, AreTests, may_go_on, normal_clauses, may_end, exceptional_clauses, AreAffected, return_clauses, throw_clauses, caught_clauses, summary_of};
ghost use Rattle.ja_work.specs.Told.{told, tests_of, affected_of};

/// The clauses of an instruction that finds its operands hold exactly where the definitions of its ends
/// do: those of its normal end, those of its exceptional ends, and those of ways through methods, for
/// tests that say what the tables do. The clauses of a handler hold where it catches.
pub fn law_ends()
    ensures normal { (p : Parts) (f : Facts) (m i : ℕ) (instr : Instr) (tests : Tests) (b after : Assignment) → instr_at p m i ≡ Some instr → FindsOperands instr.op instr.height → AreTests (told p f) m i tests
        → IsNormalEnd p (told p f) m i b after ↔ ((instr.reached ≡ true) × (may_go_on tests instr.op ≡ true) × AllFit (normal_clauses tests instr.op instr.height) b after) }
    ensures exceptional { (p : Parts) (f : Facts) (m i : ℕ) (instr : Instr) (tests : Tests) (b after : Assignment) → instr_at p m i ≡ Some instr → FindsOperands instr.op instr.height → AreTests (told p f) m i tests
        → IsExceptionalEnd p (told p f) m i b after ↔ ((instr.reached ≡ true) × ((way : Way) × (may_end tests instr.op way ≡ true) × AllFit (exceptional_clauses way tests instr.op instr.height) b after)) }
    ensures returns { (p : Parts) (f : Facts) (m i n count under : ℕ) (answers : Bool) (affected : Slot → Bool) (b : Assignment) (s : Summary) (after : Assignment) → AreAffected (told p f) m i n count under affected
        → IsReturn (told p f) m i n count under answers b s after ↔ AllFit (return_clauses affected under answers s) b after }
    ensures throws { (p : Parts) (f : Facts) (m i n count under : ℕ) (affected : Slot → Bool) (b : Assignment) (s : Summary) (after : Assignment) → AreAffected (told p f) m i n count under affected
        → IsCallThrown (told p f) m i n count under b s after ↔ AllFit (throw_clauses affected s) b after }
    ensures caught { (b after : Assignment) → IsCaught b after ↔ AllFit caught_clauses b after }
{}

/// The tests of an instruction by tables say what the tables tell, and so does the test of which slots a
/// way through a method may change.
pub fn law_tests()
    ensures tests { (p : Parts) (f : Facts) (m i : ℕ) → AreTests (told p f) m i (tests_of p f m i) }
    ensures affected { (p : Parts) (f : Facts) (m i n count under : ℕ) → AreAffected (told p f) m i n count under (affected_of p f m i n count under) }
{}

/// The clauses of the end of a method hold exactly where what they lead to tells a summary, which is that of a
/// return with a result, of one without, or of an exceptional end that leaves the method.
pub fn law_summaries()
    ensures value { (b after : Assignment) (k : ℕ) → AllFit (end_clauses (Some k)) b after ↔ (TellsSummary after × (summary_of after ≡ return_summary (b.slot (InStack k)) b)) }
    ensures nothing { (b after : Assignment) → AllFit (end_clauses None) b after ↔ (TellsSummary after × (summary_of after ≡ return_summary false b)) }
    ensures leaves { (b after : Assignment) → AllFit leave_clauses b after ↔ (TellsSummary after × (summary_of after ≡ thrown_summary b)) }
{}

/// Where each slot has a place, the clauses of all places of a frame hold for some variables exactly
/// where the clauses of all spots hold between the assignments that the copies at present and next say;
/// and a whole exceptional end holds exactly where the clauses of some way do that the operation has.
pub fn law_frames()
    ensures clauses { (frame : Frame) (clauses : Spot → Clause) (a : Variables) → IsOrder (size frame) frame.places frame.slots → KeepsOutside frame clauses
        → (whole frame clauses a ≡ true) ↔ AllFit clauses (read frame 1 a) (read frame 2 a) }
    ensures thrown { (frame : Frame) (tests : Tests) (op : Op) (height : ℕ) (a : Variables) → IsOrder (size frame) frame.places frame.slots
        → (ends_thrown frame tests op height a ≡ true) ↔ ((way : Way) × (may_end tests op way ≡ true) × AllFit (exceptional_clauses way tests op height) (read frame 1 a) (read frame 2 a)) }
{}

/// In a frame that has room for them, the clauses of all ends let what lies outside stay false: those of a
/// normal and of an exceptional end, of ways through methods, of a handler and of the ends of a method.
pub fn law_outside()
    ensures normal { (frame : Frame) (tests : Tests) (op : Op) (height : ℕ) → HasRoom frame op height → KeepsOutside frame (normal_clauses tests op height) }
    ensures exceptional { (frame : Frame) (way : Way) (tests : Tests) (op : Op) (height : ℕ) → KeepsOutside frame (exceptional_clauses way tests op height) }
    ensures returns { (frame : Frame) (affected : Slot → Bool) (under : ℕ) (answers : Bool) (s : Summary) → (answers ≡ true → under < frame.stack) → KeepsOutside frame (return_clauses affected under answers s) }
    ensures throws { (frame : Frame) (affected : Slot → Bool) (s : Summary) → KeepsOutside frame (throw_clauses affected s) }
    ensures caught { (frame : Frame) → 0 < frame.stack → KeepsOutside frame caught_clauses }
    ensures value { (frame : Frame) (top : ℕ) → top < frame.stack → KeepsOutside frame (end_clauses (Some top)) }
    ensures nothing { (frame : Frame) → KeepsOutside frame (end_clauses None) }
    ensures leaves { (frame : Frame) → KeepsOutside frame leave_clauses }
{}

/// What calls make of a program's equations is of the aim of its work: each set of facts of a method,
/// before or after an instruction, which looks at the variables of facts alone; each literal of a variable of the
/// frames; of the
/// clauses of each end of an instruction, those from some place on, each alone, and its pieces; and each
/// whole exceptional end.
pub fn law_work()
    ensures facts { (p : Parts) (f : Facts) (frames : List Frame) (m : ℕ) (method : Method) (frame : Frame) (saying : Saying p (told p f)) (φ : Function) → IsMethod p (told p f) frames m method frame
        → IsSet method frame (Says p (told p f) m saying) φ → IsAimed (IsWorkTree p (told p f) frames) φ }
    ensures literals { (p : Parts) (f : Facts) (frames : List Frame) (v : ℕ) (positive : Bool) → IsVariable p (told p f) frames v → IsAimed (IsWorkTree p (told p f) frames) (literal v positive) }
    ensures rules { (p : Parts) (f : Facts) (frames : List Frame) (m i : ℕ) (method : Method) (frame : Frame) (clauses : Spot → Clause) (place count : ℕ) → IsMethod p (told p f) frames m method frame → IsRule p (told p f) m i clauses
        → place + count ≡ size frame → IsAimed (IsWorkTree p (told p f) frames) (clauses_from frame clauses place count) }
    ensures clauses { (p : Parts) (f : Facts) (frames : List Frame) (m i : ℕ) (method : Method) (frame : Frame) (clauses : Spot → Clause) (place : ℕ) → IsMethod p (told p f) frames m method frame → IsRule p (told p f) m i clauses
        → place < size frame → IsAimed (IsWorkTree p (told p f) frames) (clause_function frame (clauses (spot_at frame place)) (spot_at frame place)) }
    ensures pieces { (p : Parts) (f : Facts) (frames : List Frame) (m i : ℕ) (method : Method) (frame : Frame) (clauses : Spot → Clause) (place : ℕ) (φ : Function) → IsMethod p (told p f) frames m method frame → IsRule p (told p f) m i clauses
        → place < size frame → IsPiece frame (clauses (spot_at frame place)) (spot_at frame place) φ → IsAimed (IsWorkTree p (told p f) frames) φ }
    ensures thrown { (p : Parts) (f : Facts) (frames : List Frame) (m i height : ℕ) (method : Method) (frame : Frame) (tests : Tests) (op : Op) → IsMethod p (told p f) frames m method frame → ReachedAt p m i op height
        → AreTests (told p f) m i tests → IsAimed (IsWorkTree p (told p f) frames) (ends_thrown frame tests op height) }
{}

/// A program without methods has no work: no node of a table for it is needed.
pub fn law_no_work()
    ensures { (p : Parts) (f : Facts) (frames : List Frame) (t : Tree) → p.methods ≡ [] → IsWorkTree p (told p f) frames t → (b : Bool) × (t ≡ leaf b) }
{}
