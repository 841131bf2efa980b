ghost use Rattle.std.specs.Prelude.{◌≡◌};
ghost use Rattle.ja_code.specs.declared.fault.CodeFault.TheVariants as faults;

use ja_base::Memory;
use std::alloc::AllocError;

/// Why a code array is refused. `pc` is the place of an instruction's opcode in the code, and `handler`
/// the place of an entry in the exception table, both counted from 0.
#[derive(Clone, Copy, PartialEq, Eq, Debug, Drop)]
pub enum CodeFault {
    /// A byte that is no opcode.
    BadOpcode { pc: u32, opcode: u8 },
    /// An instruction that the analyser does not take. The opcode is the byte at `pc`.
    RefusedOpcode { pc: u32, opcode: u8 },
    /// The code ends inside the instruction.
    CodeEnd { pc: u32 },
    /// A pool index of the wrong kind, or an operand out of its range.
    BadOperand { pc: u32 },
    /// A branch to a place where no instruction begins.
    BadBranch { pc: u32 },
    /// An exception table entry with a wrong range, handler or type.
    BadHandler { handler: u32 },
    /// Want of memory.
    Memory,
}

impl From<Memory> for CodeFault {
    ghost from_gives = { λ _ e. e ≡ faults.Memory };

    fn from(_memory: Memory) -> CodeFault {
        CodeFault::Memory
    }
}

impl From<AllocError> for CodeFault {
    ghost from_gives = { λ _ e. e ≡ faults.Memory };

    fn from(_error: AllocError) -> CodeFault {
        CodeFault::Memory
    }
}
