//! What stands before the content of an attribute (JVM specification 4.7).

ghost use Rattle.std.specs.Prelude.{◌≡◌, ◌+◌, ◌<◌, ◌^◌, length, IfOk};
ghost use Rattle.ja_base.specs.Tag as pool_tag;
ghost use Rattle.ja_attributes.specs.Part.{Reads};
ghost use Rattle.ja_attributes.specs.Faults.{name_index};
ghost use Rattle.ja_attributes.specs.Attribute.{is_named};
ghost use Rattle.ja_pool.specs.Table.{tag_at};
ghost use Rattle.ja_attributes.specs.InnerSteps.{IsWithin, onward, seen, head};

use crate::AttributeFault;
use crate::number::{four_bytes, two_bytes};
use ja_base::tag::UTF8;
use ja_bytes::Cursor;
use ja_pool::Pool;

/// An attribute whose content is not yet read.
#[derive(Clone, Copy)]
pub struct Attribute<'a> {
    /// The place of the attribute in the file.
    pub at: u64,
    /// The pool index of its name.
    pub name: u16,
    /// The place of its content in the file.
    pub from: u64,
    pub content: &'a [u8],
}

/// The index of a name.
fn name_index(c: &mut Cursor<'_>, base: u64, pool: &Pool) -> Result<u16, AttributeFault>
    requires { IsWithin base c.old }
    ensures { Reads (λ n. n) (name_index pool.now) (onward base c.old) (onward base c.new) result }
{
    let at = base + c.place();
    let index = two_bytes(c, base)?;
    if pool.tag(u32::from(index)) != UTF8 {
        return Err(AttributeFault::BadIndex { at });
    }
    Ok(index)
}

/// The next attribute of bytes that begin `base` bytes into the file.
pub fn attribute_in<'a>(
    c: &mut Cursor<'a>,
    base: u64,
    pool: &Pool,
) -> Result<Attribute<'a>, AttributeFault>
    requires { IsWithin base c.old }
    ensures reads { Reads seen (head pool.now) (onward base c.old) (onward base c.new) result }
    ensures within { IfOk result (λ a. a.from + length a.content.now < 2 ^ 64) }
{
    let at = base + c.place();
    let name = name_index(c, base, pool)?;
    let len = four_bytes(c, base)?;
    let content = match c.take(u64::from(len)) {
        Ok(content) => content,
        Err(end) => return Err(AttributeFault::End { at: base + end.at }),
    };
    let end = base + c.place();
    Ok(Attribute {
        at,
        name,
        from: end - u64::from(len),
        content,
    })
}

/// The next attribute of the file.
pub fn next_attribute<'a>(c: &mut Cursor<'a>, pool: &Pool) -> Result<Attribute<'a>, AttributeFault>
    ensures reads { Reads seen (head pool.now) c.old c.new result }
    ensures within { IfOk result (λ a. a.from + length a.content.now < 2 ^ 64) }
{
    attribute_in(c, 0, pool)
}

/// Whether the text at an index is this name.
pub fn is_named(pool: &Pool, index: u16, name: &[u8]) -> bool
    requires { tag_at pool.now index ≡ pool_tag.utf8 }
    ensures { result ≡ is_named pool.now name.now index }
{
    pool.utf8(u32::from(index)) == name
}
