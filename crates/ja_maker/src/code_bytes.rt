//! The code of a method (JVM specification 4.7.3, 6.5).

ghost use Rattle.std.specs.Prelude.{◌≡◌, ◌+◌, ◌++◌, ◌∷◌, [], ℕ, List, OnOk, IfOk};
ghost use Rattle.ja_code.specs.Opcode.{form_at};
ghost use Rattle.ja_assembly.specs.Members.{unsigned, instructions_in};
ghost use Rattle.ja_assembly.specs.Wanted.{method_tag};
ghost use Rattle.ja_assembly.specs.InnerLabels.{places};
ghost use Rattle.ja_assembly.specs.Assembled.{u1, u2, place_or_0, constant_bytes, branch_bytes, padding_bytes, operand_bytes, instruction_bytes, member_index};
ghost use Rattle.ja_maker.specs.InnerWriting.{pool_in, IsFew};

use crate::pool_bytes::{class_index, member_index, string_index};
use crate::put::{put_u1, put_u2, put_u4};
use indexmap::IndexMap;
use ja_assembly::{argument_words, method_tag, parted, place_behind, size_of};
use ja_base::tag::FIELD;
use ja_base::{Bytes, Memory, Name};
use ja_code::{Form, Opcode};
use ja_listing::{Item, MemberName, Number, Operand};
use ja_writable::Wants;
use std::alloc::Global;

/// Where the labels of a method stand.
pub(crate) type Labels = IndexMap<Name, u64>;

/// The place of a label, or 0.
pub(crate) fn place_or_0(labels: &Labels, name: &Name) -> u64
    ensures { result ≡ place_or_0 (places labels.now name.now) }
{
    match labels.get(name) {
        Some(place) => *place,
        None => 0,
    }
}

/// The byte that stands for a number, in two's complement where it has a sign.
fn unsigned_byte(n: Number) -> u64
    ensures { result ≡ unsigned 8 n }
{
    let size = u64::from(n.size);
    if n.negative {
        256u64.saturating_sub(size) % 256
    } else {
        size
    }
}

/// The two bytes that stand for a number, in two's complement where it has a sign.
fn unsigned_short(n: Number) -> u64
    ensures { result ≡ unsigned 16 n }
{
    let size = u64::from(n.size);
    if n.negative {
        65536u64.saturating_sub(size) % 65536
    } else {
        size
    }
}

/// A constant, by the form of its opcode.
fn put_constant(out: &mut Bytes, form: Option<Form>, n: Number) -> Result<(), Memory>
    ensures { OnOk result (out.new ≡ out.old ++ constant_bytes form n) }
{
    match form {
        Some(Form::Byte) => put_u1(out, unsigned_byte(n)),
        Some(Form::Short) => put_u2(out, unsigned_short(n)),
        _ => put_u1(out, u64::from(n.size)),
    }
}

/// The offset of a branch from pc to a place.
fn put_branch(out: &mut Bytes, form: Option<Form>, pc: u64, place: u64) -> Result<(), Memory>
    ensures { OnOk result (out.new ≡ out.old ++ branch_bytes form pc place) }
{
    match form {
        Some(Form::Branch) => put_u2(out, (65536 + place % 65536 - pc % 65536) % 65536),
        _ => put_u4(
            out,
            (4294967296 + place % 4294967296 - pc % 4294967296) % 4294967296,
        ),
    }
}

/// The two last bytes of a call of a method of an interface: the words of its arguments, and 0.
fn put_padding(out: &mut Bytes, form: Option<Form>, desc: &[u8]) -> Result<(), Memory>
    ensures { OnOk result (out.new ≡ out.old ++ padding_bytes form desc.now) }
{
    match form {
        Some(Form::Interface) => {
            put_u1(out, argument_words(desc)?)?;
            put_u1(out, 0)
        }
        _ => Ok(()),
    }
}

/// A method that an instruction calls.
fn put_call(
    alloc: Global,
    out: &mut Bytes,
    pool: &Wants,
    form: Option<Form>,
    member: &MemberName,
) -> Result<(), Memory>
    requires { IsFew pool.now }
    ensures { OnOk result (out.new ≡ out.old ++ (u2 (member_index (pool_in pool.now) (method_tag form) member.now) ++ padding_bytes form member.now.desc)) }
{
    let index = member_index(alloc, pool, method_tag(form), member)?;
    put_u2(out, index)?;
    put_padding(out, form, member.desc.bytes())
}

/// An operand of an instruction at pc.
fn put_operand(
    alloc: Global,
    out: &mut Bytes,
    pool: &Wants,
    labels: &Labels,
    pc: u64,
    form: Option<Form>,
    operand: &Operand,
) -> Result<(), Memory>
    requires { IsFew pool.now }
    ensures { OnOk result (out.new ≡ out.old ++ operand_bytes (pool_in pool.now) (places labels.now) pc form operand.now) }
{
    match operand {
        Operand::Nothing => Ok(()),
        Operand::Constant(n) => put_constant(out, form, *n),
        Operand::LocalAndConstant(local, change) => {
            put_u1(out, u64::from(local.size))?;
            put_u1(out, unsigned_byte(*change))
        }
        Operand::Label(name) => put_branch(out, form, pc, place_or_0(labels, name)),
        Operand::Quotation(text) => put_u1(out, string_index(pool, text)),
        Operand::ClassName(name) => put_u2(out, class_index(alloc, pool, name)?),
        Operand::FieldName(member) => put_u2(out, member_index(alloc, pool, FIELD, member)?),
        Operand::MethodName(member) => put_call(alloc, out, pool, form, member),
        Operand::ArrayName(name, dimensions) => {
            put_u2(out, class_index(alloc, pool, name)?)?;
            put_u1(out, u64::from(dimensions.size))
        }
    }
}

/// An instruction at pc.
pub(crate) fn put_instruction(
    alloc: Global,
    out: &mut Bytes,
    pool: &Wants,
    labels: &Labels,
    pc: u64,
    opcode: Opcode,
    operand: &Operand,
) -> Result<(), Memory>
    requires { IsFew pool.now }
    ensures { OnOk result (out.new ≡ out.old ++ (opcode ∷ operand_bytes (pool_in pool.now) (places labels.now) pc (form_at opcode) operand.now)) }
{
    out.push(opcode.number())?;
    put_operand(alloc, out, pool, labels, pc, Some(opcode.form()), operand)
}

/// The instructions that come before the next method, the first of them at pc.
pub(crate) fn put_instructions(
    alloc: Global,
    out: &mut Bytes,
    pool: &Wants,
    labels: &Labels,
    pc: u64,
    items: &[Item],
) -> Result<(), Memory>
    requires { IsFew pool.now }
    ensures { OnOk result ((superclass : List ℕ) → out.new ≡ out.old ++ instruction_bytes (pool_in pool.now) (places labels.now) pc (instructions_in superclass items.now)) }
{
    let mut place = pc;
    let mut rest = items;
    while let Some((item, behind)) = parted(rest) {
        match item {
            Item::Instruction {
                opcode,
                operand,
                ..
            } => {
                put_instruction(alloc, out, pool, labels, place, *opcode, operand)?;
                place = place_behind(place, size_of(*opcode))?;
            }
            Item::Method { .. } => return Ok(()),
            Item::Initializer => return Ok(()),
            Item::Field { .. } => {}
            Item::Try { .. } => {}
        }
        rest = behind;
    }
    Ok(())
}
