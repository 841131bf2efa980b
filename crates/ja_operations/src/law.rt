ghost use Rattle.std.specs.Prelude.{◌≡◌, ℕ, List, Option, Some, slice_get};
ghost use Rattle.ja_pool.specs.Table.{Table};
ghost use Rattle.ja_code.specs.declared.code.Code.{Code};
ghost use Rattle.ja_code.specs.declared.instr.RawInstr.{RawInstr};
ghost use Rattle.ja_class.specs.declared.class.ClassMethod.{ClassMethod};
ghost use Rattle.ja_class.specs.Meaning.{ClassSpelled};
ghost use Rattle.ja_class.specs.ClassFile.{IsSpelled};
ghost use Rattle.ja_ir.specs.declared.head.ClassHead.{ClassHead};
ghost use Rattle.ja_ir.specs.declared.op.Op.{Op};
ghost use Rattle.ja_lib.specs.Content.{Content};
ghost use Rattle.ja_kinds.specs.Effect.{IsOneOf};
ghost use Rattle.ja_kinds.specs.declared.state.KindState.{KindState};
ghost use Rattle.ja_operations.specs.declared.fault.OpFault.{OpFault};
ghost use Rattle.ja_operations.specs.Agreement.{OperationsAgree, OperationsEnd, ReturnsAgree, OperationsAreSound, RowsAreAbout};
ghost use Rattle.ja_operations.specs.Operation.{IsOperation};
ghost use Rattle.ja_operations.specs.Profile.{IsProfiled};
ghost use Rattle.ja_operations.specs.Refused.{IsRefusedFor};

use ja_bytes::law_one_reading;
use ja_hier::law_one_answer;
use ja_kinds::{law_each_has_an_effect, law_moves, law_one_effect};
use ja_supertypes::law_one_list;

/// An instruction has at most one operation and at most one refusal, and never both.
pub fn law_one_operation()
    ensures one_operation { (heads : List ClassHead) (table : Content) (c : ℕ) (pool : Table) (i : RawInstr) (before : Option KindState) (op other : Op) →
        IsOperation heads table c pool i before op → IsOperation heads table c pool i before other → op ≡ other }
    ensures not_both { (heads : List ClassHead) (table : Content) (c : ℕ) (pool : Table) (i : RawInstr) (before : Option KindState) (op : Op) (fault : OpFault) →
        IsOperation heads table c pool i before op → IsRefusedFor heads c pool i fault → ⊥ }
    ensures one_refusal { (heads : List ClassHead) (c : ℕ) (pool : Table) (i : RawInstr) (fault other : OpFault) →
        IsRefusedFor heads c pool i fault → IsRefusedFor heads c pool i other → fault ≡ other }
{
    law_one_reading();
    law_one_answer();
    law_one_list();
}

/// What an operation takes, pushes and uses is what the kinds say of its instruction, an operation ends its
/// method exactly where its instruction leads nowhere, what an operation names is there, and the row of a
/// call is about the categories of the table.
pub fn law_operations_agree()
    ensures agree { OperationsAgree }
    ensures end { OperationsEnd }
    ensures returns { ReturnsAgree }
    ensures sound { OperationsAreSound }
    ensures about { RowsAreAbout }
{
    law_one_reading();
    law_one_effect();
    law_moves();
}

/// Each instruction of a class of the profile is one whose operation can be asked for.
pub fn law_each_is_profiled()
    ensures { (class : ClassSpelled) → IsSpelled class → (m : ℕ) (method : ClassMethod) (code : Code) → slice_get class.methods m ≡ Some method →
        method.code ≡ Some code → (i : RawInstr) → IsOneOf i code.instrs → IsProfiled class.pool i }
{
    law_each_has_an_effect();
}
