ghost use Rattle.std.specs.Prelude.{◌≡◌};
ghost use Rattle.ja_methods.specs.Refusal.{kind_refusal, instr_refusal};

use ja_base::Memory;
use ja_kinds::KindFault;
use ja_operations::OpFault;

/// Why a method is refused.
#[derive(Debug, Drop, Clone, Copy, PartialEq, Eq)]
pub enum MethodFault {
    /// It is native.
    Native,
    /// The locals and the stack have this many words together, which is more than 512.
    FrameSize { values: u32 },
    /// Before the instruction at `pc` or after it the stack is too low or too high.
    StackDepth { pc: u32 },
    /// An operand or a local of the instruction at `pc` is of another kind than it needs.
    KindClash { pc: u32 },
    /// The instruction at `pc` goes on past the end of the code.
    FallsOff { pc: u32 },
    /// The instruction at `pc` calls the reflection of the platform.
    Reflection { pc: u32 },
    /// The instruction at `pc` starts a thread.
    ThreadStart { pc: u32 },
    /// The instruction at `pc` writes a static field of the library.
    LibraryStore { pc: u32 },
    /// The instruction at `pc` names a field that is nowhere.
    NoField { pc: u32 },
    /// Want of memory.
    Memory,
}

impl From<Memory> for MethodFault {
    ghost use Rattle.std.specs.Prelude.{◌≡◌};
    ghost use Rattle.ja_methods.specs.declared.fault.MethodFault.TheVariants as faults;

    ghost from_gives = { λ _ e. e ≡ faults.Memory };

    fn from(_error: Memory) -> MethodFault {
        MethodFault::Memory
    }
}

/// A fault of the kinds as a refusal of the method.
pub(crate) fn kind_refusal(fault: KindFault) -> MethodFault
    ensures { result ≡ kind_refusal fault }
{
    match fault {
        KindFault::FrameSize { values } => MethodFault::FrameSize { values },
        KindFault::StackDepth { pc } => MethodFault::StackDepth { pc },
        KindFault::KindClash { pc } => MethodFault::KindClash { pc },
        KindFault::FallsOff { pc } => MethodFault::FallsOff { pc },
        KindFault::Memory => MethodFault::Memory,
    }
}

/// What the instruction at `pc` is refused for as a refusal of the method.
pub(crate) fn instr_refusal(pc: u32, fault: OpFault) -> MethodFault
    ensures { result ≡ instr_refusal pc fault }
{
    match fault {
        OpFault::Reflection => MethodFault::Reflection { pc },
        OpFault::ThreadStart => MethodFault::ThreadStart { pc },
        OpFault::LibraryStore => MethodFault::LibraryStore { pc },
        OpFault::NoField => MethodFault::NoField { pc },
        OpFault::Memory => MethodFault::Memory,
    }
}
