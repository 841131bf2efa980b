//! Instructions: whether each can be written at its place.

ghost use Rattle.std.specs.Prelude.{◌≡◌, ◌≤◌, ◌⊎◌, true, Decides};
ghost use Rattle.ja_assembly.specs.Unwritable.{suits, is_beyond_count, IsNoMember, IsTooFar, IsNoTarget, IsNoValue, IsNoInstruction};
ghost use Rattle.ja_assembly.specs.InnerLabels.{places};
ghost use Rattle.ja_bytes.specs.DescriptorText.{IsMethodText};
ghost use Rattle.ja_writable.specs.InnerJudging.{Judges};

use crate::flaw::Flaw;
use crate::judge_text::{
    demand, fits_byte, fits_signed_byte, is_no_constant, judge_dimensions, judge_field_name,
    judge_method_name, judge_text,
};
use crate::place::Place;
use ja_assembly::argument_words;
use ja_base::Name;
use ja_code::{Entry, Form, Opcode};
use ja_listing::{MemberName, Operand};
use std::alloc::Global;

/// Whether an operand is of the kind that an opcode of this form has.
fn suits(form: Option<Form>, operand: &Operand) -> bool
    ensures { result ≡ suits form operand.now }
{
    match (form, operand) {
        (Some(Form::Plain), Operand::Nothing) => true,
        (Some(Form::Byte | Form::Short | Form::Local | Form::ArrayType), Operand::Constant(_)) =>
            true,
        (Some(Form::Increment), Operand::LocalAndConstant(_, _)) => true,
        (Some(Form::ByteIndex), Operand::Quotation(_)) => true,
        (Some(Form::Index(Entry::Class)), Operand::ClassName(_)) => true,
        (Some(Form::Index(Entry::Field)), Operand::FieldName(_)) => true,
        (
            Some(Form::Index(Entry::Method | Entry::AnyMethod) | Form::Interface),
            Operand::MethodName(_),
        ) => true,
        (Some(Form::Dimensions), Operand::ArrayName(_, _)) => true,
        (Some(Form::Branch | Form::FarBranch), Operand::Label(_)) => true,
        _ => false,
    }
}

/// The place of a label.
pub(crate) fn place_of(place: &Place, name: &Name) -> Option<u64>
    ensures { result ≡ places place.now.labels name.now }
{
    match place.labels.get(name) {
        Some(found) => Some(*found),
        None => None,
    }
}

/// Whether an offset of two bytes in two's complement leads from one place of the code to another.
fn is_near(pc: u64, target: u64) -> bool
    requires { pc ≤ 65535 }
    ensures { Decides result (IsTooFar pc target → ⊥) }
{
    target <= pc + 32767 && pc <= target.saturating_add(32768)
}

/// The label of a branch.
fn judge_target(place: &Place, form: Option<Form>, name: &Name) -> Result<(), Flaw>
    requires { place.now.pc ≤ 65535 }
    ensures { Judges result (IsNoTarget form place.now.pc (places place.now.labels name.now)) }
{
    match place_of(place, name) {
        None => Err(Flaw::Unwritable),
        Some(target) => match form {
            Some(Form::Branch) => demand(is_near(place.pc, target)),
            _ => Ok(()),
        },
    }
}

/// The words of a call of an interface's method, which one byte tells (JVM specification 6.5).
fn judge_count(form: Option<Form>, desc: &Name) -> Result<(), Flaw>
    ensures { Judges result (is_beyond_count form desc.now ≡ true) }
{
    match form {
        Some(Form::Interface) => {
            let words = argument_words(desc.bytes())?;
            demand(words <= 255)
        }
        _ => Ok(()),
    }
}

/// A method that an opcode of this form calls.
fn judge_call(alloc: Global, form: Option<Form>, member: &MemberName) -> Result<(), Flaw>
    ensures { Judges result (IsNoMember IsMethodText member.now ⊎ (is_beyond_count form member.now.desc ≡ true)) }
{
    judge_method_name(alloc, member)?;
    judge_count(form, &member.desc)
}

/// The operand of an opcode of this form.
fn judge_value(
    alloc: Global,
    place: &Place,
    form: Option<Form>,
    operand: &Operand,
) -> Result<(), Flaw>
    requires { place.now.pc ≤ 65535 }
    ensures { Judges result (IsNoValue (places place.now.labels) place.now.pc form operand.now) }
{
    match operand {
        Operand::Nothing => Ok(()),
        Operand::Constant(n) => demand(!is_no_constant(form, *n)),
        Operand::LocalAndConstant(local, change) => {
            demand(fits_byte(*local))?;
            demand(fits_signed_byte(*change))
        }
        Operand::Label(name) => judge_target(place, form, name),
        Operand::Quotation(text) => judge_text(text),
        Operand::ClassName(name) => judge_text(name),
        Operand::FieldName(member) => judge_field_name(alloc, member),
        Operand::MethodName(member) => judge_call(alloc, form, member),
        Operand::ArrayName(name, dimensions) => {
            judge_text(name)?;
            judge_dimensions(name, *dimensions)
        }
    }
}

/// An instruction.
pub(crate) fn judge_instruction(
    alloc: Global,
    place: &Place,
    opcode: Opcode,
    operand: &Operand,
) -> Result<(), Flaw>
    requires { place.now.pc ≤ 65535 }
    ensures { Judges result (IsNoInstruction (places place.now.labels) place.now.pc opcode operand.now) }
{
    demand(!opcode.is_refused())?;
    let form = Some(opcode.form());
    demand(suits(form, operand))?;
    judge_value(alloc, place, form, operand)
}
