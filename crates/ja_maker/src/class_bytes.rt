//! Whole class files (JVM specification 4.1).

ghost use Rattle.std.specs.Prelude.{◌≡◌, ◌++◌, ℕ, List, length, map, OnOk, IfOk};
ghost use Rattle.std.specs.List.{flat_map};
ghost use Rattle.ja_attributes.specs.Attribute.{attributes_bytes, code_bytes};
ghost use Rattle.ja_class.specs.ClassFile.{member_bytes};
ghost use Rattle.ja_assembly.specs.Members.{expanded, fields, instructions_in, ranges_in};
ghost use Rattle.ja_assembly.specs.Assembled.{u2, text_index, code_of, attributes_of, field_info, method_info};
ghost use Rattle.ja_maker.specs.InnerWriting.{pool_in, IsFew};

use crate::code_bytes::put_instructions;
use crate::method_bytes::{content_of, put_code};
use crate::pool_bytes::text_index;
use crate::put::put_u2;
use ja_assembly::{labels_of, parted, place_behind};
use ja_base::{Bytes, Memory, Name};
use ja_listing::{Frame, Item, Number};
use ja_writable::Wants;
use std::alloc::Global;

/// What stands before the attributes of a field or a method.
pub(crate) fn put_front(
    alloc: Global,
    out: &mut Bytes,
    pool: &Wants,
    flags: Number,
    name: &[u8],
    desc: &[u8],
) -> Result<(), Memory>
    requires { IsFew pool.now }
    ensures { OnOk result (out.new ≡ out.old ++ (u2 flags.size ++ (u2 (text_index (pool_in pool.now) name.now) ++ u2 (text_index (pool_in pool.now) desc.now)))) }
{
    let name = text_index(alloc, pool, name)?;
    let desc = text_index(alloc, pool, desc)?;
    put_u2(out, u64::from(flags.size))?;
    put_u2(out, name)?;
    put_u2(out, desc)
}

/// A field.
fn put_field(
    alloc: Global,
    out: &mut Bytes,
    pool: &Wants,
    flags: Number,
    name: &Name,
    desc: &Name,
) -> Result<(), Memory>
    requires { IsFew pool.now }
    ensures { OnOk result (out.new ≡ out.old ++ member_bytes (field_info (pool_in pool.now) (record { flags = flags; name = name.now; desc = desc.now }))) }
{
    put_front(alloc, out, pool, flags, name.bytes(), desc.bytes())?;
    put_u2(out, 0)?;
    Ok(())
}

/// The fields among items.
pub(crate) fn put_fields(
    alloc: Global,
    out: &mut Bytes,
    pool: &Wants,
    items: &[Item],
) -> Result<(), Memory>
    requires { IsFew pool.now }
    ensures { OnOk result ((superclass : List ℕ) → out.new ≡ out.old ++ flat_map member_bytes (map (field_info (pool_in pool.now)) (fields (flat_map (expanded superclass) items.now)))) }
{
    let mut rest = items;
    while let Some((item, behind)) = parted(rest) {
        match item {
            Item::Field { flags, name, desc } => {
                put_field(alloc, out, pool, *flags, name, desc)?;
            }
            Item::Method { .. } => {}
            Item::Initializer => {}
            Item::Try { .. } => {}
            Item::Instruction { .. } => {}
        }
        rest = behind;
    }
    Ok(())
}

/// The number of fields among items.
pub(crate) fn count_fields(items: &[Item]) -> Result<u64, Memory>
    ensures { IfOk result (λ count. (superclass : List ℕ) → count ≡ length (fields (flat_map (expanded superclass) items.now))) }
{
    let mut count = 0u64;
    let mut rest = items;
    while let Some((item, behind)) = parted(rest) {
        match item {
            Item::Field { .. } => count = place_behind(count, 1)?,
            Item::Method { .. } => {}
            Item::Initializer => {}
            Item::Try { .. } => {}
            Item::Instruction { .. } => {}
        }
        rest = behind;
    }
    Ok(count)
}

/// The content of the attribute of a method's code.
fn method_content(
    alloc: Global,
    pool: &Wants,
    frame: Frame,
    behind: &[Item],
) -> Result<Bytes, Memory>
    requires { IsFew pool.now }
    ensures { IfOk result (λ content. (superclass : List ℕ) → content ≡ code_bytes (code_of (pool_in pool.now) (instructions_in superclass behind.now) (ranges_in superclass behind.now) frame)) }
{
    let labels = labels_of(alloc, 0, behind)?;
    let mut code = Bytes::new(alloc);
    put_instructions(alloc, &mut code, pool, &labels, 0, behind)?;
    let content = content_of(alloc, pool, &labels, frame, &code, behind)?;
    Ok(content)
}

/// The attributes of a method.
fn put_attributes(
    alloc: Global,
    out: &mut Bytes,
    pool: &Wants,
    frame: &Option<Frame>,
    behind: &[Item],
) -> Result<(), Memory>
    requires { IsFew pool.now }
    ensures { OnOk result ((superclass : List ℕ) → out.new ≡ out.old ++ attributes_bytes (attributes_of (pool_in pool.now) (instructions_in superclass behind.now) (ranges_in superclass behind.now) frame.now)) }
{
    match frame {
        None => put_u2(out, 0),
        Some(frame) => {
            let content = method_content(alloc, pool, *frame, behind)?;
            put_code(alloc, out, pool, &content)?;
            Ok(())
        }
    }
}

/// A method, behind whose beginning these items stand.
pub(crate) fn put_method(
    alloc: Global,
    out: &mut Bytes,
    pool: &Wants,
    flags: Number,
    name: &Name,
    desc: &Name,
    frame: &Option<Frame>,
    behind: &[Item],
) -> Result<(), Memory>
    requires { IsFew pool.now }
    ensures { OnOk result ((superclass : List ℕ) → out.new ≡ out.old ++ member_bytes (method_info (pool_in pool.now) (record { member = record { flags = flags; name = name.now; desc = desc.now }; frame = frame.now; instructions = instructions_in superclass behind.now; ranges = ranges_in superclass behind.now }))) }
{
    put_front(alloc, out, pool, flags, name.bytes(), desc.bytes())?;
    put_attributes(alloc, out, pool, frame, behind)?;
    Ok(())
}
