//! Items of made classes.

ghost use Rattle.std.specs.Prelude.{◌≡◌, IfOk};
ghost use Rattle.ja_assembly.specs.Members.{plain_number, instruction};
ghost use Rattle.ja_generator.specs.Made.{call, f_of, of_taint, static_method};

use ja_base::{Memory, Name};
use ja_code::Opcode;
use ja_listing::{Frame, Item, MemberName, Number, Operand};
use std::alloc::Global;

/// A text to a text.
pub(crate) const TEXT_TO_TEXT: &[u8] = b"(Ljava/lang/String;)Ljava/lang/String;";

/// A number without a sign.
pub(crate) fn plain_number(size: u32) -> Number
    ensures { result ≡ plain_number size }
{
    Number {
        negative: false,
        size,
    }
}

/// An instruction without a label.
pub(crate) fn instruction(opcode: Opcode, operand: Operand) -> Item
    ensures { result ≡ instruction opcode operand }
{
    Item::Instruction {
        label: None,
        opcode,
        operand,
    }
}

/// A call of a static method.
pub(crate) fn call(member: MemberName) -> Item
    ensures { result ≡ call member }
{
    instruction(Opcode::INVOKESTATIC, Operand::MethodName(member))
}

/// The `f` of a class.
pub(crate) fn f_of(alloc: Global, class: Name) -> Result<MemberName, Memory>
    ensures { IfOk result (λ member. member ≡ f_of class) }
{
    let name = Name::of(alloc, b"f")?;
    let desc = Name::of(alloc, TEXT_TO_TEXT)?;
    Ok(MemberName { class, name, desc })
}

/// A method of the class that has the source and the sink.
pub(crate) fn of_taint(alloc: Global, name: &[u8], desc: &[u8]) -> Result<MemberName, Memory>
    ensures { IfOk result (λ member. member ≡ of_taint name.now desc.now) }
{
    let class = Name::of(alloc, b"demo/Taint")?;
    let name = Name::of(alloc, name)?;
    let desc = Name::of(alloc, desc)?;
    Ok(MemberName { class, name, desc })
}

/// The beginning of a public static method with one local and a stack of one value.
pub(crate) fn static_method(alloc: Global, name: &[u8], desc: &[u8]) -> Result<Item, Memory>
    ensures { IfOk result (λ item. item ≡ static_method name.now desc.now) }
{
    let name = Name::of(alloc, name)?;
    let desc = Name::of(alloc, desc)?;
    Ok(Item::Method {
        flags: plain_number(9),
        name,
        desc,
        frame: Some(Frame {
            stack: plain_number(1),
            locals: plain_number(1),
        }),
    })
}
