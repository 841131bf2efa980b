//! Numbers of a class file, and indices of its pool.

ghost use Rattle.std.specs.Prelude.{◌≡◌, IfOk};
ghost use Rattle.ja_pool.specs.Table.{tag_at};
ghost use Rattle.ja_attributes.specs.Part.{Reads, u2 as two_bytes, u4 as four_bytes};
ghost use Rattle.ja_class.specs.declared.fault.ClassFault.TheVariants.{End};
ghost use Rattle.ja_class.specs.ClassFault.{index as entry_index};

use crate::ClassFault;
use ja_base::tag::Tag;
use ja_bytes::Cursor;
use ja_pool::Pool;

/// A number of two bytes.
pub fn u2(c: &mut Cursor<'_>) -> Result<u16, ClassFault>
    ensures { Reads (λ n. n) (two_bytes End) c.old c.new result }
{
    Ok(c.u2()?)
}

/// A number of four bytes.
pub fn u4(c: &mut Cursor<'_>) -> Result<u32, ClassFault>
    ensures { Reads (λ n. n) (four_bytes End) c.old c.new result }
{
    Ok(c.u4()?)
}

/// The index of an entry of the pool that has this tag.
pub fn index(c: &mut Cursor<'_>, pool: &Pool, tag: Tag) -> Result<u16, ClassFault>
    ensures reads { Reads (λ n. n) (entry_index pool.now tag) c.old c.new result }
    ensures names { IfOk result (λ i. tag_at pool.now i ≡ tag) }
{
    let at = c.place();
    let i = u2(c)?;
    if pool.tag(u32::from(i)) != tag {
        return Err(ClassFault::BadIndex { at });
    }
    Ok(i)
}
