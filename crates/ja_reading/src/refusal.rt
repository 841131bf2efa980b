//! Faults of a table and of a class file as refusals.
ghost use Rattle.std.specs.Prelude.{◌≡◌};
ghost use Rattle.ja_lower.specs.Refusals.{class_refusal, table_refusal};

use ja_base::{Name, Refusal};
use ja_class::ClassFault;
use ja_lib::TableFault;

/// A fault of the table as a refusal, unless it is want of memory.
pub(crate) fn refusal_of_table(fault: TableFault) -> Option<Refusal>
    ensures { result ≡ table_refusal fault }
{
    match fault {
        TableFault::Text => Some(Refusal::TableText),
        TableFault::UnknownKey => Some(Refusal::TableKey),
        TableFault::BadCategory => Some(Refusal::TableCategory),
        TableFault::BadRow { row } => Some(Refusal::TableRow { row }),
        TableFault::BadEntry { entry } => Some(Refusal::TableEntry { entry }),
        TableFault::Memory => None,
    }
}

/// A fault of the class file of this name as a refusal, unless it is want of memory.
pub(crate) fn refusal_of_class(file: Name, fault: ClassFault) -> Option<Refusal>
    ensures { result ≡ class_refusal file fault }
{
    match fault {
        ClassFault::End { at } => Some(Refusal::End { file, at }),
        ClassFault::BadMagic => Some(Refusal::BadMagic { file }),
        ClassFault::BadVersion { major } => Some(Refusal::BadVersion { file, major }),
        ClassFault::BadTag { at, tag } => Some(Refusal::BadTag { file, at, tag }),
        ClassFault::PoolWidth { at } => Some(Refusal::PoolWidth { file, at }),
        ClassFault::BadText { at } => Some(Refusal::BadText { file, at }),
        ClassFault::BadIndex { at } => Some(Refusal::BadIndex { file, at }),
        ClassFault::BadDesc { at } => Some(Refusal::BadDesc { file, at }),
        ClassFault::BadAttribute { at } => Some(Refusal::BadAttribute { file, at }),
        ClassFault::Trailing { at } => Some(Refusal::Trailing { file, at }),
        ClassFault::BadOpcode { method, pc, opcode } => Some(Refusal::BadOpcode {
            file,
            method,
            pc,
            opcode,
        }),
        ClassFault::RefusedOpcode { method, pc, opcode } => Some(Refusal::RefusedOpcode {
            file,
            method,
            pc,
            opcode,
        }),
        ClassFault::BadBranch { method, pc } => Some(Refusal::BadBranch { file, method, pc }),
        ClassFault::BadHandler { method, handler } => Some(Refusal::BadHandler {
            file,
            method,
            handler,
        }),
        ClassFault::CodeEnd { method, pc } => Some(Refusal::CodeEnd { file, method, pc }),
        ClassFault::BadOperand { method, pc } => Some(Refusal::BadOperand { file, method, pc }),
        ClassFault::Memory => None,
    }
}
