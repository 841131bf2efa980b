//! Fields (JVM specification 4.5).

ghost use Rattle.std.specs.Prelude.{◌≡◌, IfOk};
ghost use Rattle.ja_base.specs.Tag as pool_tag;
ghost use Rattle.ja_pool.specs.Table.{tag_at};
ghost use Rattle.ja_attributes.specs.Part.{ReadsUnless};
ghost use Rattle.ja_class.specs.declared.fault.ClassFault.TheVariants as faults;
ghost use Rattle.ja_class.specs.Meaning.{begins_as_text, field_said};
ghost use Rattle.ja_class.specs.ClassFault.{field_front, field, fields};

use crate::ClassFault;
use crate::descriptor::is_field_desc;
use crate::fault::attribute_fault;
use crate::member::{Front, front_of};
use crate::number::u2;
use ja_attributes::field_attributes;
use ja_base::access_flags::STATIC;
use ja_base::tag::STRING;
use ja_base::{Memory, Name};
use ja_bytes::Cursor;
use ja_ir::{HeadField, HeadFields};
use ja_pool::Pool;
use std::alloc::Global;

/// The front of a field, whose descriptor is that of a field.
fn field_front(alloc: Global, c: &mut Cursor<'_>, pool: &Pool) -> Result<Front, ClassFault>
    ensures reads { ReadsUnless faults.Memory (λ f. f) (field_front pool.now) c.old c.new result }
    ensures name { IfOk result (λ f. tag_at pool.now f.name ≡ pool_tag.utf8) }
    ensures descriptor { IfOk result (λ f. tag_at pool.now f.descriptor ≡ pool_tag.utf8) }
{
    let front = front_of(c, pool)?;
    if !is_field_desc(alloc, pool.utf8(u32::from(front.descriptor)))? {
        return Err(ClassFault::BadDesc { at: front.place });
    }
    Ok(front)
}

/// Whether the constant of a field is the text with which it begins.
fn begins_as_text(pool: &Pool, flags: u16, desc: &[u8], constant: Option<u16>) -> bool
    ensures { result ≡ begins_as_text pool.now flags desc.now constant }
{
    let is_string = match constant {
        None => false,
        Some(i) => pool.tag(u32::from(i)) == STRING,
    };
    flags & STATIC != 0 && desc == b"Ljava/lang/String;".as_slice() && is_string
}

/// What a field says, where its front and its constant are read.
fn field_said(
    alloc: Global,
    pool: &Pool,
    front: Front,
    constant: Option<u16>,
) -> Result<HeadField, Memory>
    requires name { tag_at pool.now front.name ≡ pool_tag.utf8 }
    requires descriptor { tag_at pool.now front.descriptor ≡ pool_tag.utf8 }
    ensures { IfOk result (λ f. f ≡ field_said pool.now front.flags front.name front.descriptor constant) }
{
    let desc = pool.utf8(u32::from(front.descriptor));
    Ok(HeadField {
        name: Name::of(alloc, pool.utf8(u32::from(front.name)))?,
        desc: Name::of(alloc, desc)?,
        flags: u32::from(front.flags),
        text: begins_as_text(pool, front.flags, desc, constant),
    })
}

/// A field.
fn field(alloc: Global, c: &mut Cursor<'_>, pool: &Pool) -> Result<HeadField, ClassFault>
    ensures { ReadsUnless faults.Memory (λ f. f) (field pool.now) c.old c.new result }
{
    let front = field_front(alloc, c, pool)?;
    let constant = match field_attributes(c, pool) {
        Ok(constant) => constant,
        Err(found) => return Err(attribute_fault(0, found)),
    };
    Ok(field_said(alloc, pool, front, constant)?)
}

/// The fields.
pub fn fields(alloc: Global, c: &mut Cursor<'_>, pool: &Pool) -> Result<HeadFields, ClassFault>
    ensures { ReadsUnless faults.Memory (λ fs. fs) (fields pool.now) c.old c.new result }
{
    let count = u2(c)?;
    let mut fields = HeadFields::new(alloc);
    for _field in 0..count {
        let next = field(alloc, c, pool)?;
        fields.push(next)?;
    }
    Ok(fields)
}
