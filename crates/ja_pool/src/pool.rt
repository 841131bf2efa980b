ghost use Rattle.std.specs.Prelude.{◌≡◌, ◌≢◌, ◌<◌, ◌^◌, IsTrue, length, IfOk};
ghost use Rattle.ja_base.specs.Tag as pool_tag;

use crate::constant::{Constant, Member};
use crate::look::{all_dims, byte_at, class_in, constant_in, member_in, slot_at, text_in};
use crate::slot::Slot;
use ja_base::Memory;
use ja_base::tag::Tag;
use std::alloc::Global;
use std::marker::Model;

/// A constant pool, with a copy of its bytes. Contracts see it as the table of its entries by index.
///
/// Each getter by index asks for the right tag there, and takes no memory.
#[derive(Drop)]
pub struct Pool {
    bytes: Vec<u8>,
    slots: Vec<Slot>,
    tags: Vec<u8>,
    dims: Vec<u8>,
}

impl Model for Pool {
    ghost use Rattle.ja_pool.specs.Table.{Table};
    ghost use Rattle.ja_pool.specs.InnerKept.{table_in, IsKept};

    ghost Value = { Table };

    ghost view = { λ pool. table_in pool.bytes.items pool.slots.items };

    ghost invariant = { λ pool. IsKept pool.bytes.items pool.tags.items pool.dims.items pool.slots.items };
}

impl Pool {
    ghost use Rattle.ja_pool.specs.Table.{tags_of, dims_of, tag_at, place_at, text_at, class_name_at, member_class_at, member_name_at, member_desc_at, is_constant_tag, is_member_tag};
    ghost use Rattle.ja_pool.specs.InnerSlot.{slot_tags, AreInside, AreTagged};
    ghost use Rattle.ja_pool.specs.InnerKept.{table_in};
    ghost use Rattle.ja_pool.specs.Constant.{IsConstantAt};

    /// The pool of these slots, whose texts are among the bytes.
    pub(crate) fn new(
        alloc: Global,
        bytes: &[u8],
        slots: Vec<Slot>,
        tags: Vec<u8>,
    ) -> Result<Pool, Memory>
        requires tags_are { tags.items ≡ slot_tags slots.items }
        requires inside { AreInside bytes.now slots.items }
        requires tagged { AreTagged slots.items }
        requires few { length slots.items < 2 ^ 16 }
        ensures { IfOk result (λ pool. pool ≡ table_in bytes.now slots.items) }
    {
        let dims = match all_dims(alloc, bytes, &slots) {
            Ok(dims) => dims,
            Err(e) => return Err(e),
        };
        match Vec::from_slice(alloc, bytes) {
            Ok(bytes) => Ok(Pool {
                bytes,
                slots,
                tags,
                dims,
            }),
            Err(_) => Err(Memory),
        }
    }

    /// The count that the bytes spell: one more than the last index.
    pub fn count(&self) -> u32
        ensures { result ≡ length self.now }
    {
        self.slots.len() as u32
    }

    /// The tags by index, 0 where nothing stands.
    pub fn tags(&self) -> &[u8]
        ensures { result.now ≡ tags_of self.now }
    {
        self.tags.as_slice()
    }

    /// The tag at an index, 0 where nothing stands.
    pub fn tag(&self, i: u32) -> Tag
        ensures { result ≡ tag_at self.now i }
    {
        byte_at(self.tags.as_slice(), i)
    }

    /// By index, the number of `[` with which the name of a class begins, at most 255; 0 at what is no class.
    pub fn dims(&self) -> &[u8]
        ensures { result.now ≡ dims_of self.now }
    {
        self.dims.as_slice()
    }

    /// The text at an index.
    pub fn utf8(&self, i: u32) -> &[u8]
        requires { tag_at self.now i ≡ pool_tag.utf8 }
        ensures { result.now ≡ text_at self.now i }
    {
        text_in(self.bytes.as_slice(), self.slots.as_slice(), i)
    }

    /// The name of the class at an index.
    pub fn class_name(&self, i: u32) -> &[u8]
        requires { tag_at self.now i ≡ pool_tag.class }
        ensures { result.now ≡ class_name_at self.now i }
    {
        class_in(self.bytes.as_slice(), self.slots.as_slice(), i)
    }

    /// The names of the member at an index.
    pub fn member(&self, i: u32) -> Member<'_>
        requires { IsTrue (is_member_tag (tag_at self.now i)) }
        ensures class { result.class.now ≡ member_class_at self.now i }
        ensures name { result.name.now ≡ member_name_at self.now i }
        ensures desc { result.desc.now ≡ member_desc_at self.now i }
    {
        member_in(self.bytes.as_slice(), self.slots.as_slice(), i)
    }

    /// The constant at an index.
    pub fn constant(&self, i: u32) -> Constant
        requires { IsTrue (is_constant_tag (tag_at self.now i)) }
        ensures { IsConstantAt self.now i result }
    {
        constant_in(self.bytes.as_slice(), self.slots.as_slice(), i)
    }

    /// The place in the file of the tag of the entry at an index.
    pub fn tag_at(&self, i: u32) -> u64
        requires { tag_at self.now i ≢ 0 }
        ensures { result ≡ place_at self.now i }
    {
        slot_at(self.slots.as_slice(), i).place
    }
}
