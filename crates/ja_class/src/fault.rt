ghost use Rattle.std.specs.Prelude.{◌≡◌};
ghost use Rattle.ja_class.specs.Faults.{pool_fault, code_fault, method_fault};
ghost use Rattle.ja_class.specs.declared.fault.ClassFault.TheVariants as faults;

use ja_attributes::AttributeFault;
use ja_base::Memory;
use ja_base::tag::Tag;
use ja_bytes::End;
use ja_code::CodeFault;
use ja_pool::PoolFault;

/// Why bytes are not read as a class file of the profile. `at` is an offset in the file, `method` the place
/// of the method in its class, counted from 0, `pc` the place of an instruction in the method's code, and
/// `handler` the place of an entry in its exception table, counted from 0.
#[derive(Clone, Copy, PartialEq, Eq, Debug, Drop)]
pub enum ClassFault {
    /// The file ends inside the field that begins at `at`.
    End { at: u64 },
    /// The file does not begin with the magic number.
    BadMagic,
    /// A major version that is not from 45 to 52.
    BadVersion { major: u32 },
    /// An entry of the pool whose tag is none.
    BadTag { at: u64, tag: Tag },
    /// A Long or Double at the last index of the pool; `at` is the place of its tag.
    PoolWidth { at: u64 },
    /// A text that is no modified UTF-8; `at` is the place of its first wrong character.
    BadText { at: u64 },
    /// An index that names no entry of the kind that it must name, or a pool's count of 0.
    BadIndex { at: u64 },
    /// A text that is no descriptor: `at` is the place of the index that names it, or of the tag of the
    /// entry that refers to it.
    BadDesc { at: u64 },
    /// An attribute that is not as it must be; `at` is the place of its name's index, or of the flags of a
    /// method that has too few or too many.
    BadAttribute { at: u64 },
    /// A byte behind the class file.
    Trailing { at: u64 },
    /// A byte that is no opcode.
    BadOpcode { method: u32, pc: u32, opcode: u8 },
    /// An instruction that the analyser does not take.
    RefusedOpcode { method: u32, pc: u32, opcode: u8 },
    /// A branch to a place where no instruction begins.
    BadBranch { method: u32, pc: u32 },
    /// An exception table entry with a wrong range, handler or type.
    BadHandler { method: u32, handler: u32 },
    /// The code ends inside the instruction.
    CodeEnd { method: u32, pc: u32 },
    /// A pool index of the wrong kind, or an operand out of its range.
    BadOperand { method: u32, pc: u32 },
    /// Want of memory.
    Memory,
}

impl From<End> for ClassFault {
    ghost from_gives = { λ end fault. fault ≡ faults.End end.at };

    fn from(end: End) -> ClassFault {
        ClassFault::End { at: end.at }
    }
}

impl From<Memory> for ClassFault {
    ghost from_gives = { λ _ fault. fault ≡ faults.Memory };

    fn from(_memory: Memory) -> ClassFault {
        ClassFault::Memory
    }
}

impl From<PoolFault> for ClassFault {
    ghost from_gives = { λ found fault. fault ≡ pool_fault found };

    fn from(found: PoolFault) -> ClassFault {
        match found {
            PoolFault::End { at } => ClassFault::End { at },
            PoolFault::BadTag { at, tag } => ClassFault::BadTag { at, tag },
            PoolFault::PoolWidth { at } => ClassFault::PoolWidth { at },
            PoolFault::BadText { at } => ClassFault::BadText { at },
            PoolFault::BadIndex { at } => ClassFault::BadIndex { at },
            PoolFault::Memory => ClassFault::Memory,
        }
    }
}

/// The fault of the code of the method with this number.
fn code_fault(method: u32, found: CodeFault) -> ClassFault
    ensures { result ≡ code_fault method found }
{
    match found {
        CodeFault::BadOpcode { pc, opcode } => ClassFault::BadOpcode { method, pc, opcode },
        CodeFault::RefusedOpcode { pc, opcode } => ClassFault::RefusedOpcode { method, pc, opcode },
        CodeFault::CodeEnd { pc } => ClassFault::CodeEnd { method, pc },
        CodeFault::BadOperand { pc } => ClassFault::BadOperand { method, pc },
        CodeFault::BadBranch { pc } => ClassFault::BadBranch { method, pc },
        CodeFault::BadHandler { handler } => ClassFault::BadHandler { method, handler },
        CodeFault::Memory => ClassFault::Memory,
    }
}

/// The fault of the attributes of the method with this number; of other attributes, which hold no code, with
/// the number 0.
pub fn attribute_fault(method: u32, found: AttributeFault) -> ClassFault
    ensures { result ≡ method_fault method found }
{
    match found {
        AttributeFault::End { at } => ClassFault::End { at },
        AttributeFault::BadIndex { at } => ClassFault::BadIndex { at },
        AttributeFault::BadAttribute { at } => ClassFault::BadAttribute { at },
        AttributeFault::Undecodable(wrong) => code_fault(method, wrong),
        AttributeFault::Memory => ClassFault::Memory,
    }
}
