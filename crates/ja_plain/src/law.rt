ghost use Rattle.std.specs.Prelude.{◌≡◌, ◌↔◌, ℕ, true, false, List, [], ◌∷◌};
ghost use Rattle.ja_class.specs.declared.first.FirstMethod.{FirstMethod};
ghost use Rattle.ja_plain.specs.Token.{Text, Lib, ReferenceArray};
ghost use Rattle.ja_plain.specs.State.{Object, Value, Null, Ref};
ghost use Rattle.ja_plain.specs.Reach.{Reaches, reaches, IsTainted, tainted};
ghost use Rattle.ja_plain.specs.Library.{Goes, library};
ghost use Rattle.ja_plain.specs.Run.{Returned, Threw, Stuck, Cut};
ghost use Rattle.ja_plain.specs.Environment.{Action, Make, CallMain, Idle, program_run, events_in};
ghost use Rattle.ja_plain.specs.Covers.{IsCovered, EventsWarned};
ghost use Rattle.ja_plain.specs.Examples.{passes_source, passes_constant, pops_nothing, empty_world, call_with_null, point_of, plain_object, marked_object, append_call};

/// The machine's tests mean what they are for: reaching by any number of links, and reaching a mark.
pub fn law_taint_tests()
    ensures reaches { (links : Object → List ℕ) (heap : List Object) (a c : ℕ) → (reaches links heap a c ≡ true) ↔ Reaches links heap a c }
    ensures tainted { (heap : List Object) (v : Value) → (tainted heap v ≡ true) ↔ IsTainted heap v }
{}

/// In every program run, at every moment, what is tainted in the frame is
/// as a fact of the least solution says.
pub fn law_facts_cover()
    ensures { (m : FirstMethod) (actions : List Action) → IsCovered m (program_run m actions) }
{}

/// In every program run, a sink call that is passed a tainted value at a listed position is warned.
pub fn law_events_are_warned()
    ensures { (m : FirstMethod) (actions : List Action) → EventsWarned m (events_in (program_run m actions)) }
{}

/// The definitions of runs are not empty: a source's text reaches a sink, a constant does not, and a run may
/// throw, be stuck or be cut; a marked object is noted, and so goes to no call; and a receiver that takes a
/// tainted argument is tainted from then on.
pub fn law_examples()
    ensures source_is_listed { events_in (program_run passes_source (CallMain None 10 [] ∷ [])) ≡ record { site = 1; positions = 0 ∷ [] } ∷ [] }
    ensures constant_is_not_listed { program_run passes_constant (CallMain None 10 [] ∷ []) ≡ Idle (plain_object Text ∷ []) [] (record { site = 1; positions = [] } ∷ []) }
    ensures constant_returns { call_with_null passes_constant 3 [] ≡ Returned None false (record { heap = plain_object Text ∷ []; choices = []; events = record { site = 1; positions = [] } ∷ [] }) 0 }
    ensures source_throws { call_with_null passes_source 10 (1 ∷ []) ≡ Threw 0 false (record { heap = marked_object Lib ∷ []; choices = []; events = [] }) 9 }
    ensures pop_is_stuck { call_with_null pops_nothing 10 [] ≡ Stuck (point_of 0 (record { locals = Null ∷ []; stack = []; dirt = false }) ∷ []) (empty_world []) }
    ensures source_is_cut { call_with_null passes_source 1 [] ≡ Cut (point_of 1 (record { locals = Null ∷ []; stack = Ref 0 ∷ []; dirt = false }) ∷ []) (record { heap = marked_object Text ∷ []; choices = []; events = [] }) }
    ensures noted_is_not_passed { program_run passes_constant (Make true [] [] ∷ CallMain (Some 0) 10 [] ∷ []) ≡ Idle (marked_object Text ∷ record { token = ReferenceArray; fields = []; mark = true; bag = 0 ∷ [] } ∷ []) (record { place = 1; noted = true } ∷ []) [] }
    ensures array_takes_noted { program_run passes_constant (Make true [] [] ∷ Make false (record { place = 3; object = 0 } ∷ []) [] ∷ []) ≡ Idle (marked_object Text ∷ record { token = ReferenceArray; fields = []; mark = true; bag = 0 ∷ [] } ∷ plain_object Text ∷ record { token = ReferenceArray; fields = []; mark = false; bag = 2 ∷ 1 ∷ [] } ∷ []) (record { place = 1; noted = true } ∷ record { place = 3; noted = true } ∷ []) [] }
    ensures receiver_absorbs { library append_call (Ref 0 ∷ Ref 1 ∷ []) (record { locals = []; stack = []; dirt = false }) (record { heap = plain_object Lib ∷ marked_object Text ∷ []; choices = 1 ∷ 1 ∷ 0 ∷ 1 ∷ 0 ∷ []; events = [] }) ≡ Goes (record { locals = []; stack = Ref 0 ∷ []; dirt = true }) (record { heap = record { token = Lib; fields = []; mark = true; bag = 1 ∷ [] } ∷ marked_object Text ∷ []; choices = []; events = [] }) }
{}
