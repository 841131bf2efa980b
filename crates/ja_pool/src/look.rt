//! Looking into the slots of a pool.

ghost use Rattle.std.specs.Prelude.{◌≡◌, ◌≤◌, ◌^◌, ◌<◌, IsTrue, length, slice_index, slice_index_or, IfOk};
ghost use Rattle.ja_pool.specs.Table.{entry_text, entry_first, brackets_of, dims_in, dims_of, class_name_at, member_class_at, member_name_at, member_desc_at, tag_at, is_constant_tag};
ghost use Rattle.ja_pool.specs.Constant.{IsConstantAt, IsConstant};
ghost use Rattle.ja_pool.specs.InnerKept.{table_in};
ghost use Rattle.ja_pool.specs.InnerSlot.{nothing, seen, form_first, form_second, form_tag, slot_tags, text_end, AreInside, IsTagged, AreTagged};

use crate::constant::{Constant, Member};
use crate::slot::{Form, NOTHING, Slot};
use ja_base::Memory;
use ja_base::tag::{CLASS, INTEGER, LONG, STRING};
use std::alloc::Global;

/// The byte at an index, 0 past the end.
pub fn byte_at(bytes: &[u8], i: u32) -> u8
    ensures { result ≡ slice_index bytes.now i }
{
    if (i as usize) < bytes.len() {
        bytes[i as usize]
    } else {
        0
    }
}

/// What stands at an index: nothing past the end.
pub fn slot_at(slots: &[Slot], i: u32) -> Slot
    ensures { result ≡ slice_index_or slots.now i nothing }
{
    if (i as usize) < slots.len() {
        slots[i as usize]
    } else {
        NOTHING
    }
}

/// The text of a slot; empty where none is.
pub fn slot_text(bytes: &[u8], slot: Slot) -> &[u8]
    requires { text_end slot.form ≤ length bytes.now }
    ensures { result.now ≡ entry_text (seen bytes.now slot) }
{
    match slot.form {
        Form::Utf8 { from, len } => {
            let (_, behind) = bytes.split_at(from as usize);
            let (text, _) = behind.split_at(len as usize);
            text
        }
        _ => &[],
    }
}

/// The text at an index; empty where none is.
pub fn text_in<'a>(bytes: &'a [u8], slots: &[Slot], i: u32) -> &'a [u8]
    requires { AreInside bytes.now slots.now }
    ensures { result.now ≡ entry_text (seen bytes.now (slice_index_or slots.now i nothing)) }
{
    slot_text(bytes, slot_at(slots, i))
}

/// The brackets with which a text begins, at most 255.
fn brackets(text: &[u8]) -> u8
    ensures { result ≡ brackets_of text.now }
{
    text.iter().take(255).take_while(|b| **b == b'[').count() as u8
}

/// The brackets with which the name of a class begins; 0 at what is no class.
fn slot_dims(bytes: &[u8], slots: &[Slot], slot: Slot) -> u8
    requires { AreInside bytes.now slots.now }
    ensures { result ≡ dims_in (table_in bytes.now slots.now) (seen bytes.now slot) }
{
    if slot.form.tag() == CLASS {
        brackets(text_in(bytes, slots, u32::from(slot.form.first())))
    } else {
        0
    }
}

/// By index, the brackets with which the name of a class begins.
pub fn all_dims(alloc: Global, bytes: &[u8], slots: &[Slot]) -> Result<Vec<u8>, Memory>
    requires { AreInside bytes.now slots.now }
    ensures { IfOk result (λ dims. dims.items ≡ dims_of (table_in bytes.now slots.now)) }
{
    let mut dims = Vec::new(alloc);
    for slot in slots {
        if dims.push(slot_dims(bytes, slots, *slot)).is_err() {
            return Err(Memory);
        }
    }
    Ok(dims)
}

/// The tags by index.
pub fn all_tags(alloc: Global, slots: &[Slot]) -> Result<Vec<u8>, Memory>
    ensures { IfOk result (λ tags. tags.items ≡ slot_tags slots.now) }
{
    match slots.iter().map(|slot| slot.form.tag()).collect(alloc) {
        Ok(tags) => Ok(tags),
        Err(_) => Err(Memory),
    }
}

/// The name of the class at an index.
pub fn class_in<'a>(bytes: &'a [u8], slots: &[Slot], i: u32) -> &'a [u8]
    requires { AreInside bytes.now slots.now }
    ensures { result.now ≡ class_name_at (table_in bytes.now slots.now) i }
{
    let class = slot_at(slots, i);
    text_in(bytes, slots, u32::from(class.form.first()))
}

/// The names of the member at an index.
pub fn member_in<'a>(bytes: &'a [u8], slots: &[Slot], i: u32) -> Member<'a>
    requires { AreInside bytes.now slots.now }
    ensures class { result.class.now ≡ member_class_at (table_in bytes.now slots.now) i }
    ensures name { result.name.now ≡ member_name_at (table_in bytes.now slots.now) i }
    ensures desc { result.desc.now ≡ member_desc_at (table_in bytes.now slots.now) i }
{
    let member = slot_at(slots, i);
    let typed = slot_at(slots, u32::from(member.form.second()));
    Member {
        class: class_in(bytes, slots, u32::from(member.form.first())),
        name: text_in(bytes, slots, u32::from(typed.form.first())),
        desc: text_in(bytes, slots, u32::from(typed.form.second())),
    }
}

/// The constant that a form holds.
fn constant_of(form: Form) -> Constant
    requires tagged { IsTagged form }
    requires constant { IsTrue (is_constant_tag (form_tag form)) }
    ensures { IsConstant form result }
{
    match form {
        Form::Number { tag, bits } => {
            if tag == INTEGER {
                Constant::Integer(bits)
            } else {
                Constant::Float(bits)
            }
        }
        Form::Wide { tag, bits } => {
            if tag == LONG {
                Constant::Long(bits)
            } else {
                Constant::Double(bits)
            }
        }
        Form::Single { tag, index } => {
            if tag == STRING {
                Constant::Text(u32::from(index))
            } else {
                Constant::Class(u32::from(index))
            }
        }
        Form::Unusable => unreachable!(),
        Form::Utf8 { .. } => unreachable!(),
        Form::Pair { .. } => unreachable!(),
        Form::Handle { .. } => unreachable!(),
    }
}

/// The constant at an index, where one is.
pub fn constant_in(_bytes: &[u8], slots: &[Slot], i: u32) -> Constant
    requires tagged { AreTagged slots.now }
    requires constant { IsTrue (is_constant_tag (tag_at (table_in _bytes.now slots.now) i)) }
    ensures { IsConstantAt (table_in _bytes.now slots.now) i result }
{
    constant_of(slot_at(slots, i).form)
}
