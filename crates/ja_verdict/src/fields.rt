//! The fields of refusals.
ghost use Rattle.std.specs.Prelude.{◌≡◌, ◌++◌, OnOk, codes};
ghost use Rattle.ja_verdict.specs.Refusal.{field_text, file_text};

use crate::print::{push_name, push_number, push_text};
use ja_base::{Memory, Name};
use std::alloc::Global;

/// Appends a file.
pub(crate) fn push_file(out: &mut Vec<u8>, file: &Name) -> Result<(), Memory>
    ensures { OnOk result (out.new.items ≡ out.old.items ++ file_text file.now) }
{
    push_text(out, b" ")?;
    push_name(out, file.bytes())
}

/// Appends a field that is a number.
pub(crate) fn push_field(
    alloc: Global,
    out: &mut Vec<u8>,
    name: &[u8],
    number: u64,
) -> Result<(), Memory>
    ensures { OnOk result (out.new.items ≡ out.old.items ++ field_text name.now number) }
{
    push_text(out, b" ")?;
    push_text(out, name)?;
    push_text(out, b" ")?;
    push_number(alloc, out, number)
}

/// Appends a file and a field.
pub(crate) fn push_in_file(
    alloc: Global,
    out: &mut Vec<u8>,
    file: &Name,
    name: &[u8],
    number: u64,
) -> Result<(), Memory>
    ensures { OnOk result (out.new.items ≡ out.old.items ++ (file_text file.now ++ field_text name.now number)) }
{
    push_file(out, file)?;
    push_field(alloc, out, name, number)
}

/// Appends a file, a method and a field.
pub(crate) fn push_in_method(
    alloc: Global,
    out: &mut Vec<u8>,
    file: &Name,
    method: u32,
    name: &[u8],
    number: u64,
) -> Result<(), Memory>
    ensures { OnOk result (out.new.items ≡ out.old.items ++ (file_text file.now ++ field_text (codes "method") method ++ field_text name.now number)) }
{
    push_in_file(alloc, out, file, b"method", u64::from(method))?;
    push_field(alloc, out, name, number)
}

/// Appends a file, a method, the place of an instruction, and its opcode.
pub(crate) fn push_opcode(
    alloc: Global,
    out: &mut Vec<u8>,
    file: &Name,
    method: u32,
    pc: u32,
    opcode: u8,
) -> Result<(), Memory>
    ensures { OnOk result (out.new.items ≡ out.old.items ++ (file_text file.now ++ field_text (codes "method") method ++ field_text (codes "pc") pc ++ field_text (codes "opcode") opcode)) }
{
    push_in_method(alloc, out, file, method, b"pc", u64::from(pc))?;
    push_field(alloc, out, b"opcode", u64::from(opcode))
}

/// Appends a file, an offset in it, and the tag there.
pub(crate) fn push_tag(
    alloc: Global,
    out: &mut Vec<u8>,
    file: &Name,
    at: u64,
    tag: u8,
) -> Result<(), Memory>
    ensures { OnOk result (out.new.items ≡ out.old.items ++ (file_text file.now ++ field_text (codes "at") at ++ field_text (codes "tag") tag)) }
{
    push_in_file(alloc, out, file, b"at", at)?;
    push_field(alloc, out, b"tag", u64::from(tag))
}
