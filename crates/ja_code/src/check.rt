ghost use Rattle.std.specs.Prelude.{◌≡◌, ◌+◌, ◌<◌, ◌≤◌, length, [], ◌∷◌, slice_index, IfOk};
ghost use Rattle.ja_code.specs.Bytes.{tag_at, names};
ghost use Rattle.ja_code.specs.Opcode.{form_at};
ghost use Rattle.ja_code.specs.Faults.{first_failing, has, front_size, size_at, index_checks, array_checks, dimension_checks, table_checks, lookup_checks, wide_checks, operand_checks, instr_checks};
ghost use Rattle.ja_code.specs.InnerReading.{Passes, Finds, opcode_at};

use crate::bytes::{gap, place, u2, u4};
use crate::fault::CodeFault;
use crate::form::{Entry, Form};
use crate::number::RET;
use crate::opcode::{form_of, is_refused};
use ja_base::tag::{
    CLASS, DOUBLE, FIELD, FLOAT, INTEGER, INTERFACE_METHOD, LONG, METHOD, METHOD_HANDLE,
    METHOD_TYPE, STRING, Tag,
};

/// Whether an entry with this tag is what an index must name.
pub(crate) fn is_named(entry: Entry, tag: Tag) -> bool
    ensures { result ≡ names entry tag }
{
    match entry {
        Entry::Loadable => matches!(tag, INTEGER | FLOAT | CLASS | STRING),
        Entry::TwoWord => matches!(tag, LONG | DOUBLE),
        Entry::Field => tag == FIELD,
        Entry::Method => tag == METHOD,
        Entry::InterfaceMethod => tag == INTERFACE_METHOD,
        Entry::AnyMethod => matches!(tag, METHOD | INTERFACE_METHOD),
        Entry::Class => tag == CLASS,
    }
}

/// The tag of a pool entry, and 0 where there is none.
pub(crate) fn tag_of(tags: &[Tag], index: u16) -> Tag
    ensures { result ≡ tag_at tags.now index }
{
    tags.get(usize::from(index)).copied().unwrap_or(0)
}

/// The number of bytes of an instruction at `pc`.
#[tactic(auto, unfolding(crate::specs::Faults::size_at))]
pub(crate) fn len_of(form: Form, pc: u32, bytes: &[u8]) -> usize
    requires { front_size form pc ≤ length bytes.now }
    ensures { result ≡ size_at form pc bytes.now }
{
    match form {
        Form::TableSwitch => {
            let least = place(u4(bytes, gap(pc) + 5)) as usize;
            let greatest = place(u4(bytes, gap(pc) + 9)) as usize;
            gap(pc) + 13 + 4 * (greatest + 1).saturating_sub(least)
        }
        Form::LookupSwitch => {
            let pairs = u4(bytes, gap(pc) + 5) as usize;
            gap(pc) + 9 + 8 * pairs
        }
        Form::Wide => match form_of(bytes[1]) {
            Some(Form::Increment) => 6,
            _ => 4,
        },
        _ => form.front_len(pc),
    }
}

/// Checks that the code has this many bytes from the instruction at `pc` on.
fn check_len(pc: u32, bytes: &[u8], len: usize) -> Result<(), CodeFault>
    ensures { Passes result (first_failing (has pc bytes.now len ∷ [])) }
{
    if bytes.len() < len {
        return Err(CodeFault::CodeEnd { pc });
    }
    Ok(())
}

/// Checks what a pool index of the instruction at `pc` names.
fn check_index(entry: Entry, pc: u32, opcode: u8, tag: Tag) -> Result<(), CodeFault>
    ensures { Passes result (first_failing (index_checks entry pc opcode tag)) }
{
    if entry == Entry::Loadable && matches!(tag, METHOD_HANDLE | METHOD_TYPE) {
        return Err(CodeFault::RefusedOpcode { pc, opcode });
    }
    if !is_named(entry, tag) {
        return Err(CodeFault::BadOperand { pc });
    }
    Ok(())
}

/// Checks the array type of `newarray` at `pc`.
fn check_array_type(pc: u32, bytes: &[u8]) -> Result<(), CodeFault>
    requires { 2 ≤ length bytes.now }
    ensures { Passes result (first_failing (array_checks pc bytes.now)) }
{
    if !matches!(bytes[1], 4..=11) {
        return Err(CodeFault::BadOperand { pc });
    }
    Ok(())
}

/// Checks the array type of `multianewarray` at `pc`, and its number of dimensions.
fn check_dimensions(pc: u32, bytes: &[u8], tags: &[Tag], dims: &[u8]) -> Result<(), CodeFault>
    requires { 4 ≤ length bytes.now }
    ensures { Passes result (first_failing (dimension_checks tags.now dims.now pc bytes.now)) }
{
    let index = u2(bytes, 1);
    if !is_named(Entry::Class, tag_of(tags, index)) {
        return Err(CodeFault::BadOperand { pc });
    }
    let most = dims.get(usize::from(index)).copied().unwrap_or(0);
    if bytes[3] < 1 || most < bytes[3] {
        return Err(CodeFault::BadOperand { pc });
    }
    Ok(())
}

/// Checks the keys of `tableswitch` at `pc`, and that its offsets are there.
fn check_table(pc: u32, bytes: &[u8]) -> Result<(), CodeFault>
    requires { front_size Form.TableSwitch pc ≤ length bytes.now }
    ensures { Passes result (first_failing (table_checks pc bytes.now)) }
{
    if place(u4(bytes, gap(pc) + 9)) < place(u4(bytes, gap(pc) + 5)) {
        return Err(CodeFault::BadOperand { pc });
    }
    check_len(pc, bytes, len_of(Form::TableSwitch, pc, bytes))
}

/// Checks the number of pairs of `lookupswitch` at `pc`, and that they are there.
fn check_lookup(pc: u32, bytes: &[u8]) -> Result<(), CodeFault>
    requires { front_size Form.LookupSwitch pc ≤ length bytes.now }
    ensures { Passes result (first_failing (lookup_checks pc bytes.now)) }
{
    if u4(bytes, gap(pc) + 5) >= 0x8000_0000 {
        return Err(CodeFault::BadOperand { pc });
    }
    check_len(pc, bytes, len_of(Form::LookupSwitch, pc, bytes))
}

/// Checks the opcode behind `wide` at `pc`, and that its operands are there.
fn check_wide(pc: u32, bytes: &[u8]) -> Result<(), CodeFault>
    requires { front_size Form.Wide pc ≤ length bytes.now }
    ensures { Passes result (first_failing (wide_checks pc bytes.now)) }
{
    if bytes[1] == RET {
        return Err(CodeFault::RefusedOpcode {
            pc,
            opcode: bytes[0],
        });
    }
    match form_of(bytes[1]) {
        Some(Form::Local) | Some(Form::Increment) => {}
        _ => return Err(CodeFault::BadOperand { pc }),
    }
    check_len(pc, bytes, len_of(Form::Wide, pc, bytes))
}

/// Checks the operands of the instruction at `pc`, where the bytes that its form asks for are there.
#[tactic(auto, unfolding(crate::specs::Faults::operand_checks))]
fn check_operands(
    form: Form,
    pc: u32,
    bytes: &[u8],
    tags: &[Tag],
    dims: &[u8],
) -> Result<(), CodeFault>
    requires { front_size form pc ≤ length bytes.now }
    ensures { Passes result (first_failing (operand_checks form tags.now dims.now pc bytes.now)) }
{
    match form {
        Form::ByteIndex => {
            let tag = tag_of(tags, u16::from(bytes[1]));
            check_index(Entry::Loadable, pc, bytes[0], tag)
        }
        Form::Index(entry) => check_index(entry, pc, bytes[0], tag_of(tags, u2(bytes, 1))),
        Form::Interface => {
            let tag = tag_of(tags, u2(bytes, 1));
            check_index(Entry::InterfaceMethod, pc, bytes[0], tag)
        }
        Form::ArrayType => check_array_type(pc, bytes),
        Form::Dimensions => check_dimensions(pc, bytes, tags, dims),
        Form::TableSwitch => check_table(pc, bytes),
        Form::LookupSwitch => check_lookup(pc, bytes),
        Form::Wide => check_wide(pc, bytes),
        _ => Ok(()),
    }
}

/// Checks the instruction at the front of the bytes, which are those of the code from `pc` on, and gives its form.
#[tactic(auto, unfolding(crate::specs::Faults::instr_checks))]
pub(crate) fn checked_form(
    pc: u32,
    bytes: &[u8],
    tags: &[Tag],
    dims: &[u8],
) -> Result<Form, CodeFault>
    requires { 1 ≤ length bytes.now }
    ensures finds { Finds result (first_failing (instr_checks tags.now dims.now pc bytes.now)) (form_at (slice_index bytes.now 0)) }
    ensures front { IfOk result (λ form. front_size form pc ≤ length bytes.now) }
    ensures there { IfOk result (λ form. size_at form pc bytes.now ≤ length bytes.now) }
    ensures opcode { IfOk result (λ form. opcode_at form bytes.now < 202) }
{
    let opcode = bytes[0];
    let Some(form) = form_of(opcode) else {
        return Err(CodeFault::BadOpcode { pc, opcode });
    };
    if is_refused(opcode) {
        return Err(CodeFault::RefusedOpcode { pc, opcode });
    }
    check_len(pc, bytes, form.front_len(pc))?;
    check_operands(form, pc, bytes, tags, dims)?;
    Ok(form)
}
