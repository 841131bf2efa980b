ghost use Rattle.std.specs.Prelude.{◌≡◌, ◌+◌, ◌++◌, ◌≤◌, ◌||◌, ◌⊎◌, ◌↔◌, ℕ, Bool, Contains, List, Some, length, slice_get, true, false};
ghost use Rattle.ja_ir.specs.declared.program.Parts.{Parts};
ghost use Rattle.ja_ir.specs.Categories.{has_category};
ghost use Rattle.ja_machine.specs.declared.heap.Object.{Object};
ghost use Rattle.ja_machine.specs.declared.heap.Value.{Value};
ghost use Rattle.ja_machine.specs.Marks.{has, is_within, none, set_of, union};
ghost use Rattle.ja_machine.specs.Reach.{IsTainted, Path, Reaches, bag_links, is_reached, is_tainted, links};
ghost use Rattle.ja_machine.specs.State.{World};
ghost use Rattle.ja_machine.specs.Run.{call_run, store_in};
ghost use Rattle.ja_machine.specs.Laws.{Becomes, Extends, HasGoneOn, HasItsFields, IsLater};
ghost use Rattle.ja_machine.specs.Environment.{Action, heap_in, program_run};
ghost use Rattle.ja_machine.specs.Examples.{ProgramsRun};
ghost use Rattle.ja_machine.specs.Operations.{OperationsDo};

/// Sets of categories are read category by category.
pub fn law_sets_of_categories()
    ensures empty { (c : ℕ) → has none c ≡ false }
    ensures joined { (a b c : ℕ) → has (union a b) c ≡ (has a c || has b c) }
    ensures flagged { (flags : List Bool) (c : ℕ) → has (set_of flags) c ≡ has_category flags c }
    ensures within { (a b : ℕ) → (is_within a b ≡ true) ↔ ((c : ℕ) → has a c ≡ true → has b c ≡ true) }
{}

/// What reaches something reaches all that it reaches.
pub fn law_reaching_is_transitive()
    ensures { (heap : List Object) (a b c : ℕ) → Reaches heap a b → Reaches heap b c → Reaches heap a c }
{}

/// The tests that the machine makes of its heap answer the relations.
pub fn law_tests_answer()
    ensures reached { (heap : List Object) (a b : ℕ) → (is_reached links heap a b ≡ true) ↔ Reaches heap a b }
    ensures held { (heap : List Object) (a b : ℕ) → (is_reached bag_links heap a b ≡ true) ↔ Path bag_links heap a b }
    ensures tainted { (c : ℕ) (heap : List Object) (value : Value) → (is_tainted c heap value ≡ true) ↔ IsTainted c heap value }
{}

/// A run that was not cut comes to the same with more steps, and one that was cut goes on from its store.
pub fn law_longer_runs_extend()
    ensures { (p : Parts) (m : ℕ) (args : List Value) (world : World) (n k : ℕ) → Extends k (call_run p m args world n) (call_run p m args world (n + k)) }
{}

/// A run goes on from its store, whatever it comes to.
pub fn law_runs_go_on()
    ensures { (p : Parts) (m : ℕ) (args : List Value) (world : World) (n : ℕ) → IsLater world.store (store_in (call_run p m args world n)) }
{}

/// What is not on a run's record of writes is after the run as it was before.
pub fn law_unwritten_stays()
    ensures objects { (p : Parts) (m : ℕ) (args : List Value) (world : World) (n place : ℕ) (object : Object) → let after = store_in (call_run p m args world n) in (Contains after.written place → ⊥) → slice_get world.store.heap place ≡ Some object → slice_get after.heap place ≡ Some object }
    ensures statics { (p : Parts) (m : ℕ) (args : List Value) (world : World) (n field : ℕ) → let after = store_in (call_run p m args world n) in (Contains after.set field → ⊥) → slice_get after.statics field ≡ slice_get world.store.statics field }
{}

/// The objects that a run makes stand behind those that were there, and no object changes its token.
pub fn law_heaps_grow()
    ensures size { (p : Parts) (m : ℕ) (args : List Value) (world : World) (n : ℕ) → length world.store.heap ≤ length (store_in (call_run p m args world n)).heap }
    ensures objects { (p : Parts) (m : ℕ) (args : List Value) (world : World) (n place : ℕ) (new : Object) → slice_get (store_in (call_run p m args world n)).heap place ≡ Some new → (length world.store.heap ≤ place) ⊎ ((old : Object) × (slice_get world.store.heap place ≡ Some old) × Becomes old new) }
{}

/// Each object of a program run has exactly the fields of its class.
pub fn law_objects_have_their_fields()
    ensures { (p : Parts) (actions : List Action) (place : ℕ) (object : Object) → slice_get (heap_in (program_run p actions)) place ≡ Some object → HasItsFields p object }
{}

/// A program run only goes on with more actions.
pub fn law_program_runs_go_on()
    ensures { (p : Parts) (actions more : List Action) → HasGoneOn (program_run p actions) (program_run p (actions ++ more)) }
{}

/// Small programs run as they should: overriding, library effects, callees, class initialisers,
/// exceptions, categories of marks and entries.
pub fn law_small_programs()
    ensures { ProgramsRun }
{}

/// In single instances, operations come to the normal and the exceptional ends that they should.
pub fn law_operations()
    ensures { OperationsDo }
{}
