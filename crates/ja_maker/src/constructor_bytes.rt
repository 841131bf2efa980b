//! The constructor that only calls that of the superclass, and the methods of a class (JVM specification 4.6).

ghost use Rattle.std.specs.Prelude.{◌≡◌, ◌++◌, ℕ, List, length, map, OnOk, IfOk};
ghost use Rattle.std.specs.List.{flat_map};
ghost use Rattle.ja_attributes.specs.Attribute.{code_bytes};
ghost use Rattle.ja_class.specs.ClassFile.{member_bytes};
ghost use Rattle.ja_assembly.specs.Members.{expanded, methods, instructions_in, ranges_in};
ghost use Rattle.ja_assembly.specs.InnerLabels.{places};
ghost use Rattle.ja_assembly.specs.Assembled.{instruction_bytes, code_of, method_info};
ghost use Rattle.ja_maker.specs.InnerWriting.{pool_in, IsFew};
ghost use Rattle.ja_maker.specs.InnerConstructor.{initializer_code, initializer_frame, constructor_body};

use crate::class_bytes::{put_front, put_method};
use crate::code_bytes::{Labels, put_instruction, put_instructions};
use crate::method_bytes::{content_of, put_code};
use ja_assembly::{constructor_of, labels_of, parted, place_behind};
use ja_base::{Bytes, Memory, Name};
use ja_code::Opcode;
use ja_listing::{Frame, Item, Number, Operand};
use ja_writable::Wants;
use std::alloc::Global;

/// The number 1: the flag of a public method, and the size of the constructor's stack and of its locals.
const ONE: Number = Number {
    negative: false,
    size: 1,
};

/// The constructor's code, where these items stand behind its beginning.
fn constructor_code(
    alloc: Global,
    pool: &Wants,
    superclass: &Name,
    labels: &Labels,
    behind: &[Item],
) -> Result<Bytes, Memory>
    requires { IsFew pool.now }
    ensures { IfOk result (λ code. (above : List ℕ) → code ≡ instruction_bytes (pool_in pool.now) (places labels.now) 0 (initializer_code superclass.now ++ instructions_in above behind.now)) }
{
    let mut code = Bytes::new(alloc);
    let call = Operand::MethodName(constructor_of(alloc, superclass)?);
    put_instruction(
        alloc,
        &mut code,
        pool,
        labels,
        0,
        Opcode::ALOAD_0,
        &Operand::Nothing,
    )?;
    put_instruction(
        alloc,
        &mut code,
        pool,
        labels,
        1,
        Opcode::INVOKESPECIAL,
        &call,
    )?;
    put_instruction(
        alloc,
        &mut code,
        pool,
        labels,
        4,
        Opcode::RETURN,
        &Operand::Nothing,
    )?;
    put_instructions(alloc, &mut code, pool, labels, 5, behind)?;
    Ok(code)
}

/// The content of the attribute of its code.
fn constructor_content(
    alloc: Global,
    pool: &Wants,
    superclass: &Name,
    behind: &[Item],
) -> Result<Bytes, Memory>
    requires { IsFew pool.now }
    ensures { IfOk result (λ content. (above : List ℕ) → content ≡ code_bytes (code_of (pool_in pool.now) (initializer_code superclass.now ++ instructions_in above behind.now) (ranges_in above behind.now) initializer_frame)) }
{
    let frame = Frame {
        stack: ONE,
        locals: ONE,
    };
    let labels = labels_of(alloc, 5, behind)?;
    let code = constructor_code(alloc, pool, superclass, &labels, behind)?;
    let content = content_of(alloc, pool, &labels, frame, &code, behind)?;
    Ok(content)
}

/// The constructor.
fn put_constructor(
    alloc: Global,
    out: &mut Bytes,
    pool: &Wants,
    superclass: &Name,
    behind: &[Item],
) -> Result<(), Memory>
    requires { IsFew pool.now }
    ensures { OnOk result ((above : List ℕ) → out.new ≡ out.old ++ member_bytes (method_info (pool_in pool.now) (constructor_body superclass.now above behind.now))) }
{
    let content = constructor_content(alloc, pool, superclass, behind)?;
    put_front(alloc, out, pool, ONE, b"<init>", b"()V")?;
    put_code(alloc, out, pool, &content)?;
    Ok(())
}

/// The methods among the items of a class with this superclass.
pub(crate) fn put_methods(
    alloc: Global,
    out: &mut Bytes,
    pool: &Wants,
    superclass: &Name,
    items: &[Item],
) -> Result<(), Memory>
    requires { IsFew pool.now }
    ensures { OnOk result (out.new ≡ out.old ++ flat_map member_bytes (map (method_info (pool_in pool.now)) (methods (flat_map (expanded superclass.now) items.now)))) }
{
    let mut rest = items;
    while let Some((item, behind)) = parted(rest) {
        match item {
            Item::Method {
                flags,
                name,
                desc,
                frame,
            } => {
                put_method(alloc, out, pool, *flags, name, desc, frame, behind)?;
            }
            Item::Initializer => {
                put_constructor(alloc, out, pool, superclass, behind)?;
            }
            Item::Field { .. } => {}
            Item::Try { .. } => {}
            Item::Instruction { .. } => {}
        }
        rest = behind;
    }
    Ok(())
}

/// The number of methods among items.
pub(crate) fn count_methods(items: &[Item]) -> Result<u64, Memory>
    ensures { IfOk result (λ count. (superclass : List ℕ) → count ≡ length (methods (flat_map (expanded superclass) items.now))) }
{
    let mut count = 0u64;
    let mut rest = items;
    while let Some((item, behind)) = parted(rest) {
        match item {
            Item::Method { .. } => count = place_behind(count, 1)?,
            Item::Initializer => count = place_behind(count, 1)?,
            Item::Field { .. } => {}
            Item::Try { .. } => {}
            Item::Instruction { .. } => {}
        }
        rest = behind;
    }
    Ok(count)
}
