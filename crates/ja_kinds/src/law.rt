ghost use Rattle.std.specs.Prelude.{◌≡◌, ℕ, List, Option, slice_get, Some};
ghost use Rattle.ja_pool.specs.Table.{Table};
ghost use Rattle.ja_code.specs.declared.instr.RawInstr.{RawInstr};
ghost use Rattle.ja_code.specs.declared.behaviour.Behaviour.{Behaviour};
ghost use Rattle.ja_kinds.specs.declared.effect.Effect.{Effect};
ghost use Rattle.ja_code.specs.declared.code.Code.{Code};
ghost use Rattle.ja_class.specs.declared.class.ClassMethod.{ClassMethod};
ghost use Rattle.ja_class.specs.Meaning.{ClassSpelled};
ghost use Rattle.ja_class.specs.ClassFile.{IsSpelled};
ghost use Rattle.ja_kinds.specs.declared.fault.KindFault.{KindFault};
ghost use Rattle.ja_kinds.specs.declared.frame.Frame.{Frame};
ghost use Rattle.ja_kinds.specs.declared.state.KindState.{KindState};
ghost use Rattle.ja_kinds.specs.declared.state.State.{State};
ghost use Rattle.ja_kinds.specs.Effect.{HasEffect, Does, IsOneOf, rearranged};
ghost use Rattle.ja_kinds.specs.Solution.{IsLeast, AreKinds};
ghost use Rattle.ja_kinds.specs.Answer.{HasFrame, AreKindsOf, IsFaultOf};
ghost use Rattle.ja_kinds.specs.Reached.{AreReached};
ghost use Rattle.ja_base.specs.declared.java_type.Kind.{Kind};
ghost use Rattle.ja_code.specs.declared.behaviour.Rearrangement.{Rearrangement};
ghost use Rattle.ja_code.specs.Behaviour.{Move, moves_of};
ghost use Rattle.ja_kinds.specs.Moving.{IsFitting, stack_after, IsMovedTo};

use ja_bytes::law_one_reading;

/// An instruction has at most one effect.
pub fn law_one_effect()
    ensures { (pool : Table) (i : RawInstr) (behaviour : Behaviour) (effect other : Effect) →
        HasEffect pool i behaviour effect → HasEffect pool i behaviour other → effect ≡ other }
{
    law_one_reading();
}

/// Each instruction of a method of a class has an effect: the opcode is one that a decoded instruction has,
/// and the entry of the constant pool that it names is one of its kind, with a descriptor.
pub fn law_each_has_an_effect()
    ensures { (class : ClassSpelled) → IsSpelled class → (m : ℕ) (method : ClassMethod) (code : Code) →
        slice_get class.methods m ≡ Some method → method.code ≡ Some code → (i : RawInstr) → IsOneOf i code.instrs →
        (behaviour : Behaviour) × (effect : Effect) × Does class.pool i behaviour effect }
{}

/// A code has at most one least solution, and a method has at most one answer: kinds, or a fault.
pub fn law_one_answer()
    ensures solution { (pool : Table) (code : Code) (frame : Frame) (at other : ℕ → State) →
        IsLeast pool code frame at → IsLeast pool code frame other → (place : ℕ) → at place ≡ other place }
    ensures kinds { (class : ClassSpelled) (m : ℕ) (kinds others : List (Option KindState)) →
        AreKindsOf class m kinds → AreKindsOf class m others → kinds ≡ others }
    ensures fault { (class : ClassSpelled) (m : ℕ) (fault other : KindFault) →
        IsFaultOf class m fault → IsFaultOf class m other → fault ≡ other }
    ensures not_both { (class : ClassSpelled) (m : ℕ) (kinds : List (Option KindState)) (fault : KindFault) →
        AreKindsOf class m kinds → IsFaultOf class m fault → ⊥ }
{}

/// In the kinds of a method of a class each instruction that is reached takes what is known before it, and
/// leads to instructions that are reached.
pub fn law_reached()
    ensures { (class : ClassSpelled) → IsSpelled class → (m : ℕ) (code : Code) (frame : Frame) → HasFrame class m code frame →
        (at : ℕ → State) → AreKinds class.pool code frame at → AreReached class.pool code frame at }
{}

/// What moves words on the stack makes of it exactly what one of its moves does that fits.
pub fn law_moves()
    ensures moved { (how : Rearrangement) (stack new : List Kind) → rearranged how stack ≡ Some new → IsMovedTo how stack new }
    ensures fits { (how : Rearrangement) (move : Move) (stack : List Kind) → IsOneOf move (moves_of how) → IsFitting move stack →
        rearranged how stack ≡ Some (stack_after move stack) }
{}
