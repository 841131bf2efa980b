//! The line of a refusal.
ghost use Rattle.std.specs.Prelude.{◌≡◌, ◌++◌, IfOk, OnOk};
ghost use Rattle.ja_verdict.specs.Refusal.{fields_of, name_of, refusal_text};

use crate::fields::{push_field, push_file, push_in_file, push_in_method, push_opcode, push_tag};
use crate::print::{push_number, push_text};
use ja_base::{Bytes, Memory, Refusal};
use std::alloc::Global;

/// The name of a refusal.
fn refusal_word(refusal: &Refusal) -> &'static [u8]
    ensures { result.now ≡ name_of refusal.now }
{
    match refusal {
        Refusal::Unbuilt { .. } => b"Unbuilt".as_slice(),
        Refusal::Archive { .. } => b"Archive".as_slice(),
        Refusal::TooManyFiles { .. } => b"TooManyFiles".as_slice(),
        Refusal::FileTooLong { .. } => b"FileTooLong".as_slice(),
        Refusal::TotalTooLong { .. } => b"TotalTooLong".as_slice(),
        Refusal::TableText => b"TableText".as_slice(),
        Refusal::TableKey => b"TableKey".as_slice(),
        Refusal::TableRow { .. } => b"TableRow".as_slice(),
        Refusal::TableEntry { .. } => b"TableEntry".as_slice(),
        Refusal::TableCategory => b"TableCategory".as_slice(),
        Refusal::End { .. } => b"End".as_slice(),
        Refusal::BadMagic { .. } => b"BadMagic".as_slice(),
        Refusal::BadVersion { .. } => b"BadVersion".as_slice(),
        Refusal::BadTag { .. } => b"BadTag".as_slice(),
        Refusal::PoolWidth { .. } => b"PoolWidth".as_slice(),
        Refusal::BadText { .. } => b"BadText".as_slice(),
        Refusal::BadIndex { .. } => b"BadIndex".as_slice(),
        Refusal::BadDesc { .. } => b"BadDesc".as_slice(),
        Refusal::BadAttribute { .. } => b"BadAttribute".as_slice(),
        Refusal::Trailing { .. } => b"Trailing".as_slice(),
        Refusal::BadOpcode { .. } => b"BadOpcode".as_slice(),
        Refusal::RefusedOpcode { .. } => b"RefusedOpcode".as_slice(),
        Refusal::BadBranch { .. } => b"BadBranch".as_slice(),
        Refusal::BadHandler { .. } => b"BadHandler".as_slice(),
        Refusal::CodeEnd { .. } => b"CodeEnd".as_slice(),
        Refusal::BadOperand { .. } => b"BadOperand".as_slice(),
        Refusal::PlatformClass { .. } => b"PlatformClass".as_slice(),
        Refusal::Duplicate { .. } => b"Duplicate".as_slice(),
        Refusal::Cycle { .. } => b"Cycle".as_slice(),
        Refusal::CrossPackage { .. } => b"CrossPackage".as_slice(),
        Refusal::Native { .. } => b"Native".as_slice(),
        Refusal::FrameSize { .. } => b"FrameSize".as_slice(),
        Refusal::StackDepth { .. } => b"StackDepth".as_slice(),
        Refusal::KindClash { .. } => b"KindClash".as_slice(),
        Refusal::FallsOff { .. } => b"FallsOff".as_slice(),
        Refusal::Reflection { .. } => b"Reflection".as_slice(),
        Refusal::ThreadStart { .. } => b"ThreadStart".as_slice(),
        Refusal::LibraryStore { .. } => b"LibraryStore".as_slice(),
        Refusal::NoField { .. } => b"NoField".as_slice(),
    }
}

/// Appends the fields of a refusal, in their order.
fn push_fields(alloc: Global, out: &mut Vec<u8>, refusal: &Refusal) -> Result<(), Memory>
    ensures { OnOk result (out.new.items ≡ out.old.items ++ fields_of refusal.now) }
{
    match refusal {
        Refusal::Unbuilt { file } => push_file(out, file),
        Refusal::Archive { file } => push_file(out, file),
        Refusal::TooManyFiles { count } => push_field(alloc, out, b"count", *count),
        Refusal::FileTooLong { file } => push_file(out, file),
        Refusal::TotalTooLong { file } => push_file(out, file),
        Refusal::TableText => Ok(()),
        Refusal::TableKey => Ok(()),
        Refusal::TableRow { row } => push_field(alloc, out, b"row", *row),
        Refusal::TableEntry { entry } => push_field(alloc, out, b"entry", *entry),
        Refusal::TableCategory => Ok(()),
        Refusal::End { file, at } => push_in_file(alloc, out, file, b"at", *at),
        Refusal::BadMagic { file } => push_file(out, file),
        Refusal::BadVersion { file, major } => push_in_file(
            alloc,
            out,
            file,
            b"major",
            u64::from(*major),
        ),
        Refusal::BadTag { file, at, tag } => push_tag(alloc, out, file, *at, *tag),
        Refusal::PoolWidth { file, at } => push_in_file(alloc, out, file, b"at", *at),
        Refusal::BadText { file, at } => push_in_file(alloc, out, file, b"at", *at),
        Refusal::BadIndex { file, at } => push_in_file(alloc, out, file, b"at", *at),
        Refusal::BadDesc { file, at } => push_in_file(alloc, out, file, b"at", *at),
        Refusal::BadAttribute { file, at } => push_in_file(alloc, out, file, b"at", *at),
        Refusal::Trailing { file, at } => push_in_file(alloc, out, file, b"at", *at),
        Refusal::BadOpcode {
            file,
            method,
            pc,
            opcode,
        } => push_opcode(alloc, out, file, *method, *pc, *opcode),
        Refusal::RefusedOpcode {
            file,
            method,
            pc,
            opcode,
        } => push_opcode(alloc, out, file, *method, *pc, *opcode),
        Refusal::BadBranch { file, method, pc } => push_in_method(
            alloc,
            out,
            file,
            *method,
            b"pc",
            u64::from(*pc),
        ),
        Refusal::BadHandler {
            file,
            method,
            handler,
        } => push_in_method(alloc, out, file, *method, b"handler", u64::from(*handler)),
        Refusal::CodeEnd { file, method, pc } => push_in_method(
            alloc,
            out,
            file,
            *method,
            b"pc",
            u64::from(*pc),
        ),
        Refusal::BadOperand { file, method, pc } => push_in_method(
            alloc,
            out,
            file,
            *method,
            b"pc",
            u64::from(*pc),
        ),
        Refusal::PlatformClass { file } => push_file(out, file),
        Refusal::Duplicate { file } => push_file(out, file),
        Refusal::Cycle { file } => push_file(out, file),
        Refusal::CrossPackage { file, method } => push_in_file(
            alloc,
            out,
            file,
            b"method",
            u64::from(*method),
        ),
        Refusal::Native { file, method } => push_in_file(
            alloc,
            out,
            file,
            b"method",
            u64::from(*method),
        ),
        Refusal::FrameSize {
            file,
            method,
            values,
        } => push_in_method(alloc, out, file, *method, b"values", u64::from(*values)),
        Refusal::StackDepth { file, method, pc } => push_in_method(
            alloc,
            out,
            file,
            *method,
            b"pc",
            u64::from(*pc),
        ),
        Refusal::KindClash { file, method, pc } => push_in_method(
            alloc,
            out,
            file,
            *method,
            b"pc",
            u64::from(*pc),
        ),
        Refusal::FallsOff { file, method, pc } => push_in_method(
            alloc,
            out,
            file,
            *method,
            b"pc",
            u64::from(*pc),
        ),
        Refusal::Reflection { file, method, pc } => push_in_method(
            alloc,
            out,
            file,
            *method,
            b"pc",
            u64::from(*pc),
        ),
        Refusal::ThreadStart { file, method, pc } => push_in_method(
            alloc,
            out,
            file,
            *method,
            b"pc",
            u64::from(*pc),
        ),
        Refusal::LibraryStore { file, method, pc } => push_in_method(
            alloc,
            out,
            file,
            *method,
            b"pc",
            u64::from(*pc),
        ),
        Refusal::NoField { file, method, pc } => push_in_method(
            alloc,
            out,
            file,
            *method,
            b"pc",
            u64::from(*pc),
        ),
    }
}

/// The line of a refusal: `refused`, its number, its name, and its fields, a file as its name alone and each other field
/// as its own name and a decimal number.
pub fn refusal_line(alloc: Global, r: &Refusal) -> Result<Bytes, Memory>
    ensures { IfOk result (λ text. text ≡ refusal_text r.now) }
{
    let mut out = Vec::new(alloc);
    push_text(&mut out, b"refused ")?;
    push_number(alloc, &mut out, u64::from(r.number()))?;
    push_text(&mut out, b" ")?;
    push_text(&mut out, refusal_word(r))?;
    push_fields(alloc, &mut out, r)?;
    push_text(&mut out, b"\n")?;
    Ok(Bytes::from_vec(out))
}
