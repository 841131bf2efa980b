//! What fields and methods have in common (JVM specification 4.5, 4.6).

ghost use Rattle.std.specs.Prelude.{◌≡◌, IfOk};
ghost use Rattle.ja_base.specs.Tag as pool_tag;
ghost use Rattle.ja_pool.specs.Table.{tag_at};
ghost use Rattle.ja_attributes.specs.Part.{Reads};
ghost use Rattle.ja_class.specs.ClassFault.{front};

use crate::ClassFault;
use crate::number::{index, u2};
use ja_base::tag::UTF8;
use ja_bytes::Cursor;
use ja_pool::Pool;

/// What stands before the attributes of a field or a method.
#[derive(Clone, Copy)]
pub struct Front {
    pub flags: u16,
    /// The index of the name.
    pub name: u16,
    /// The index of the descriptor.
    pub descriptor: u16,
    /// The place of the descriptor's index in the file.
    pub place: u64,
}

/// The front of a field or a method.
pub fn front_of(c: &mut Cursor<'_>, pool: &Pool) -> Result<Front, ClassFault>
    ensures reads { Reads (λ f. f) (front pool.now) c.old c.new result }
    ensures name { IfOk result (λ f. tag_at pool.now f.name ≡ pool_tag.utf8) }
    ensures descriptor { IfOk result (λ f. tag_at pool.now f.descriptor ≡ pool_tag.utf8) }
{
    let flags = u2(c)?;
    let name = index(c, pool, UTF8)?;
    let place = c.place();
    let descriptor = index(c, pool, UTF8)?;
    Ok(Front {
        flags,
        name,
        descriptor,
        place,
    })
}
