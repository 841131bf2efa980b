ghost use Rattle.std.specs.Prelude.{[], ◌∷◌, ◌≡◌, ◌↔◌, ℕ, true, false};
ghost use Rattle.ja_facts.specs.Slots.{Local, OnStack};
ghost use Rattle.ja_facts.specs.ClassSets.{CallsMethod, InSlot, Reached};
ghost use Rattle.ja_facts.specs.Held.{Cell, OfBag, OfField, FieldHolds};
ghost use Rattle.ja_facts.specs.Sharing.{PairAt, Effect, Root, Arg, StaticFields, OfSlot};
ghost use Rattle.ja_facts.specs.Reaching.{ReachAt};
ghost use Rattle.ja_facts.specs.Formulas.{Assignment, IsAffected, Summary};
ghost use Rattle.ja_facts.specs.Equations.{At, Context, Normal, Threw, Stored, IsWarned, Taints};
ghost use Rattle.ja_facts.specs.Example.{nothing, clean_return};
ghost use Rattle.ja_facts.specs.Verdict.{AreVerdicts, report_text};
ghost use Rattle.ja_facts.specs.Analyses.{Classes, Heaps, Helds, Reaches, analyses_of};
ghost use Rattle.ja_examples.specs.Truth.{only, dirty, stored_taint, tainted_result, tainted_throw};
ghost use Rattle.ja_examples.specs.Passing.{passing, passed_site};
ghost use Rattle.ja_examples.specs.Throwing.{throwing, caught_site};
ghost use Rattle.ja_examples.specs.Building.{building, built_site};
ghost use Rattle.ja_examples.specs.Unlinking.{unlinking, unlinked_site};
ghost use Rattle.ja_examples.specs.Parting.{parting};
ghost use Rattle.ja_examples.specs.Entering.{entering, entered_site};
ghost use Rattle.ja_examples.specs.Choosing.{choosing};
ghost use Rattle.ja_examples.specs.Elements.{elements, element_site};
ghost use Rattle.ja_examples.specs.Initializing.{initializing, resting, failing};
ghost use Rattle.ja_examples.specs.Aliasing.{aliasing};
ghost use Rattle.ja_examples.specs.Labelling.{labelling, labelling_report};
ghost use Rattle.ja_examples.specs.Runs.{ProgramsRun};

/// A call returns its tainted argument: the method is called with its parameter true, it returns
/// something tainted, that is on the stack after the call, and the sink call is warned.
pub fn law_passing()
    ensures called { Taints passing 0 (Context 0 (only (Local 0 ∷ []))) }
    ensures returned { Taints passing 0 (Normal 0 (only (Local 0 ∷ [])) tainted_result) }
    ensures goes_on { Taints passing 0 (At 1 2 nothing (only (OnStack 0 ∷ []))) }
    ensures warned { IsWarned passing (Taints passing 0) passed_site }
{}

/// A tainted exception is caught where it is thrown, is thrown again, leaves a caller that catches
/// nothing, and is caught in the caller of that one: behind each handler it is alone on the stack. The
/// environment runs the constructor too.
pub fn law_throwing()
    ensures constructed { Taints throwing 0 (Context 0 nothing) }
    ensures caught { Taints throwing 0 (At 1 2 nothing (only (OnStack 0 ∷ []))) }
    ensures threw { Taints throwing 0 (Threw 1 nothing tainted_throw) }
    ensures threw_on { Taints throwing 0 (Threw 2 nothing tainted_throw) }
    ensures caught_by_caller { Taints throwing 0 (At 3 2 nothing (only (OnStack 0 ∷ []))) }
    ensures warned { IsWarned throwing (Taints throwing 0) caught_site }
{}

/// A tainted text that a builder takes in is stored into the bags of library objects. These, and nothing
/// else, are what the field with the builder may hold. The call makes the builder true and the object
/// whose field refers to it, and answers the builder; what is read of the field is tainted, and the sink
/// call is warned.
pub fn law_building()
    ensures met { Heaps building (PairAt 0 9 (OfSlot (Local 0)) (OfSlot (OnStack 0))) }
    ensures stored { Taints building 0 (Stored (OfBag 2)) }
    ensures held { (c : Cell) → Helds building (FieldHolds 0 c) ↔ (c ≡ OfBag 2) }
    ensures appended { Taints building 0 (At 0 10 nothing (dirty (Local 0 ∷ Local 1 ∷ OnStack 0 ∷ []))) }
    ensures read { Taints building 0 (At 0 13 nothing (dirty (Local 0 ∷ Local 1 ∷ OnStack 0 ∷ []))) }
    ensures warned { IsWarned building (Taints building 0) built_site }
{}

/// A method that writes to the node after its argument, and unlinks that node, changes what its argument
/// reached, and nothing else that it was given. At its call, the second node, which the first leads to,
/// is affected, and the argument of main is not. Its argument may reach the node that it writes to, and
/// both are true after the write; it returns with tainted data stored, the second node alone is true
/// after the call, and the sink call that gets its field is warned.
pub fn law_unlinking()
    ensures effects { (r : Root) → Heaps unlinking (Effect 0 r) ↔ (r ≡ Arg 0) }
    ensures affected { IsAffected (analyses_of unlinking) 1 8 0 1 0 (Local 2) }
    ensures not_affected { IsAffected (analyses_of unlinking) 1 8 0 1 0 (Local 0) → ⊥ }
    ensures reaches { Reaches unlinking (ReachAt 0 5 (OfSlot (Local 0)) (OnStack 0)) }
    ensures written { Taints unlinking 0 (At 0 6 nothing (dirty (Local 0 ∷ Local 1 ∷ []))) }
    ensures returned { Taints unlinking 0 (Normal 0 nothing stored_taint) }
    ensures goes_on { Taints unlinking 0 (At 1 9 nothing (dirty (Local 2 ∷ []))) }
    ensures warned { IsWarned unlinking (Taints unlinking 0) unlinked_site }
{}

/// What one field of an object has is not in another: nothing tainted is stored into the second field,
/// what it refers to holds nothing, and the sink call that gets it is clean.
pub fn law_parting()
    ensures stored { Taints parting 0 (Stored (OfField 1)) → ⊥ }
    ensures held { (c : Cell) → Helds parting (FieldHolds 1 c) → ⊥ }
    ensures clean { AreVerdicts parting (Taints parting) (false ∷ []) }
{}

/// What an earlier entry stored into a builder makes the parameter of a later one true, and the sink
/// call there is warned; the parameter of an entry whose position is marked is true without it.
pub fn law_entering()
    ensures stored { Taints entering 0 (Stored (OfBag 2)) }
    ensures called { Taints entering 0 (Context 1 (only (Local 0 ∷ []))) }
    ensures marked { Taints entering 0 (Context 2 (only (Local 0 ∷ []))) }
    ensures warned { IsWarned entering (Taints entering 0) entered_site }
{}

/// A virtual call goes to what its receivers select: the first to the methods of both subclasses, the
/// second, whose receiver is of one class, to that one's alone. The first sink call is warned, and the
/// second is clean.
pub fn law_choosing()
    ensures first { Classes choosing (CallsMethod 2 5 0) }
    ensures second { Classes choosing (CallsMethod 2 5 1) }
    ensures single { (n : ℕ) → Classes choosing (CallsMethod 3 1 n) ↔ (n ≡ 1) }
    ensures verdicts { AreVerdicts choosing (Taints choosing) (true ∷ false ∷ []) }
{}

/// A tainted text that is stored into an array is in the bags of arrays of references, whose elements a
/// read pushes. The array is true after the store, and the sink call that gets an element is warned.
pub fn law_elements()
    ensures read { Classes elements (InSlot 0 10 (OnStack 0) 1) }
    ensures stored { Taints elements 0 (Stored (OfBag 3)) }
    ensures written { Taints elements 0 (At 0 7 nothing (dirty (Local 0 ∷ []))) }
    ensures warned { IsWarned elements (Taints elements 0) element_site }
{}

/// A class initialiser runs before an instruction that names its class: it is reached, called with
/// nothing true, and returns; what it stored is read, and the sink call is warned. Its effect on the
/// static fields is one of the method that it comes into.
pub fn law_initializing()
    ensures reached { Classes initializing (Reached 1 0) }
    ensures effect { Heaps initializing (Effect 0 StaticFields) }
    ensures called { Taints initializing 0 (Context 1 nothing) }
    ensures returned { Taints initializing 0 (Normal 1 nothing clean_return) }
    ensures stored { Taints initializing 0 (Stored (OfField 0)) }
    ensures verdicts { AreVerdicts initializing (Taints initializing) (true ∷ []) }
{}

/// The class initialiser of a class that nothing names is not reached, and the sink call that reads what
/// it would store is clean.
pub fn law_resting()
    ensures not_reached { (i : ℕ) → Classes resting (Reached 1 i) → ⊥ }
    ensures verdicts { AreVerdicts resting (Taints resting) (false ∷ []) }
{}

/// A class initialiser that throws does not return, and the sink call of the method that names its class
/// is clean.
pub fn law_failing()
    ensures threw { Taints failing 0 (Threw 1 nothing clean_return) }
    ensures returned { (a : Assignment) (s : Summary) → Taints failing 0 (Normal 1 a s) → ⊥ }
    ensures verdicts { AreVerdicts failing (Taints failing) (false ∷ []) }
{}

/// A class initialiser taints an object that a static field refers to and that main has in a local, too:
/// it has an effect on the static fields, the local is affected, and after the initialiser returned main
/// stands before the same instruction again with the local true. The sink call is warned.
pub fn law_aliasing()
    ensures effect { Heaps aliasing (Effect 1 StaticFields) }
    ensures affected { IsAffected (analyses_of aliasing) 0 4 1 0 0 (Local 0) }
    ensures returned { Taints aliasing 0 (Normal 1 nothing stored_taint) }
    ensures again { Taints aliasing 0 (At 0 4 nothing (dirty (Local 0 ∷ []))) }
    ensures verdicts { AreVerdicts aliasing (Taints aliasing) (true ∷ []) }
{}

/// A text that is marked for pages alone is clean at a sink for SQL and warned at one for pages, and the
/// report says so.
pub fn law_labelling()
    ensures verdicts { AreVerdicts labelling (Taints labelling) (false ∷ true ∷ []) }
    ensures report { report_text labelling (false ∷ true ∷ []) ≡ labelling_report }
{}

/// The machine has runs of these programs in which the sink call is met: with something tainted where
/// the equations warn of it.
pub fn law_runs()
    ensures { ProgramsRun }
{}
