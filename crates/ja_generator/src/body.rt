//! The bodies of made methods.

ghost use Rattle.std.specs.Prelude.{◌≡◌, ◌%◌, ◌++◌, OnOk};
ghost use Rattle.ja_generator.specs.Made.{argument_itself, passed_to, from_source, passed_to_earlier, body_by, main_of};

use crate::drawn::class_name;
use crate::items::{TEXT_TO_TEXT, call, f_of, instruction, of_taint, static_method};
use ja_base::{Memory, Name};
use ja_code::Opcode;
use ja_listing::{Items, MemberName, Operand};
use std::alloc::Global;

/// Gives back the argument.
fn put_argument_itself(items: &mut Items) -> Result<(), Memory>
    ensures { OnOk result (items.new ≡ items.old ++ argument_itself) }
{
    items.push(instruction(Opcode::ALOAD_0, Operand::Nothing))?;
    items.push(instruction(Opcode::ARETURN, Operand::Nothing))
}

/// Gives back what a method makes of the argument.
fn put_passed_to(items: &mut Items, member: MemberName) -> Result<(), Memory>
    ensures { OnOk result (items.new ≡ items.old ++ passed_to member) }
{
    items.push(instruction(Opcode::ALOAD_0, Operand::Nothing))?;
    items.push(call(member))?;
    items.push(instruction(Opcode::ARETURN, Operand::Nothing))
}

/// Gives back a text of the source.
fn put_from_source(alloc: Global, items: &mut Items) -> Result<(), Memory>
    ensures { OnOk result (items.new ≡ items.old ++ from_source) }
{
    let source = of_taint(alloc, b"source", b"()Ljava/lang/String;")?;
    items.push(call(source))?;
    items.push(instruction(Opcode::ARETURN, Operand::Nothing))
}

/// Gives back what the `f` of an earlier class makes of the argument; the first class has none before it.
fn put_passed_to_earlier(alloc: Global, items: &mut Items, x: u32, i: u32) -> Result<(), Memory>
    ensures { OnOk result (items.new ≡ items.old ++ passed_to_earlier x i) }
{
    if i == 0 {
        return put_argument_itself(items);
    }
    let class = class_name(alloc, x / 4 % i)?;
    let member = f_of(alloc, class)?;
    put_passed_to(items, member)
}

/// The body of the `f` of class i, by its number x.
pub(crate) fn put_body(alloc: Global, items: &mut Items, x: u32, i: u32) -> Result<(), Memory>
    ensures { OnOk result (items.new ≡ items.old ++ body_by (x % 4) x i) }
{
    match x % 4 {
        0 => put_argument_itself(items),
        1 => {
            let copy = of_taint(alloc, b"copy", TEXT_TO_TEXT)?;
            put_passed_to(items, copy)
        }
        2 => put_passed_to_earlier(alloc, items, x, i),
        _ => put_from_source(alloc, items),
    }
}

/// `main`, which passes what the `f` of the class makes of a text to the sink.
pub(crate) fn put_main(alloc: Global, items: &mut Items, class: Name) -> Result<(), Memory>
    ensures { OnOk result (items.new ≡ items.old ++ main_of class) }
{
    let text = Name::of(alloc, b"x")?;
    let member = f_of(alloc, class)?;
    let sink = of_taint(alloc, b"sink", b"(Ljava/lang/String;)V")?;
    items.push(static_method(alloc, b"main", b"([Ljava/lang/String;)V")?)?;
    items.push(instruction(Opcode::LDC, Operand::Quotation(text)))?;
    items.push(call(member))?;
    items.push(call(sink))?;
    items.push(instruction(Opcode::RETURN, Operand::Nothing))
}
