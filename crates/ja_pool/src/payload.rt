//! Reading what stands behind the tag of an entry.

ghost use Rattle.std.specs.Prelude.{◌≡◌, ◌+◌, ◌≤◌, length, IfOk, IfErr};
ghost use Rattle.std.specs.Int.{w64, to_be_bytes};
ghost use Rattle.ja_base.specs.Tag as pool_tag;
ghost use Rattle.ja_pool.specs.InnerShape.{HasShape, ReadsPayload, IsPayloadFault};

use crate::PoolFault;
use crate::shape::Shape;
use crate::slot::Form;
use ja_base::tag::Tag;
use ja_bytes::{Cursor, modified_utf8};

/// A text. Its place is held as an offset from `base`.
fn text(c: &mut Cursor<'_>, tag: Tag, base: u64) -> Result<Form, PoolFault>
    requires shape { tag ≡ pool_tag.utf8 }
    requires behind { base + 1 ≤ c.old.place }
    ensures ok { IfOk result (ReadsPayload c.old c.new tag base) }
    ensures fault { IfErr result (IsPayloadFault c.old.place tag c.old.rest) }
{
    let len = match c.u2() {
        Ok(len) => len,
        Err(end) => return Err(PoolFault::End { at: end.at }),
    };
    let from = c.place() - base;
    let bytes = match c.take(len as u64) {
        Ok(bytes) => bytes,
        Err(end) => return Err(PoolFault::End { at: end.at }),
    };
    match modified_utf8(bytes) {
        Ok(()) => Ok(Form::Utf8 { from, len }),
        Err(wrong) => {
            let start = c.place() - len as u64;
            Err(PoolFault::BadText {
                at: start + wrong.at,
            })
        }
    }
}

/// A number of four bytes.
fn number(c: &mut Cursor<'_>, tag: Tag, base: u64) -> Result<Form, PoolFault>
    requires shape { HasShape tag Shape.Number }
    ensures ok { IfOk result (ReadsPayload c.old c.new tag base) }
    ensures fault { IfErr result (IsPayloadFault c.old.place tag c.old.rest) }
{
    match c.u4() {
        Ok(bits) => Ok(Form::Number { tag, bits }),
        Err(end) => Err(PoolFault::End { at: end.at }),
    }
}

/// The number that eight bytes spell.
fn number_of(b: &[u8]) -> u64
    requires { length b.now ≡ 8 }
    ensures { to_be_bytes w64 result ≡ b.now }
{
    u64::from_be_bytes([b[0], b[1], b[2], b[3], b[4], b[5], b[6], b[7]])
}

/// A number of eight bytes, which are one field.
fn wide(c: &mut Cursor<'_>, tag: Tag, base: u64) -> Result<Form, PoolFault>
    requires shape { HasShape tag Shape.Wide }
    ensures ok { IfOk result (ReadsPayload c.old c.new tag base) }
    ensures fault { IfErr result (IsPayloadFault c.old.place tag c.old.rest) }
{
    match c.take(8) {
        Ok(bytes) => {
            let bits = number_of(bytes);
            Ok(Form::Wide { tag, bits })
        }
        Err(end) => Err(PoolFault::End { at: end.at }),
    }
}

/// An index.
fn single(c: &mut Cursor<'_>, tag: Tag, base: u64) -> Result<Form, PoolFault>
    requires shape { HasShape tag Shape.Single }
    ensures ok { IfOk result (ReadsPayload c.old c.new tag base) }
    ensures fault { IfErr result (IsPayloadFault c.old.place tag c.old.rest) }
{
    match c.u2() {
        Ok(index) => Ok(Form::Single { tag, index }),
        Err(end) => Err(PoolFault::End { at: end.at }),
    }
}

/// Two indices.
fn pair(c: &mut Cursor<'_>, tag: Tag, base: u64) -> Result<Form, PoolFault>
    requires shape { HasShape tag Shape.Pair }
    ensures ok { IfOk result (ReadsPayload c.old c.new tag base) }
    ensures fault { IfErr result (IsPayloadFault c.old.place tag c.old.rest) }
{
    let first = match c.u2() {
        Ok(first) => first,
        Err(end) => return Err(PoolFault::End { at: end.at }),
    };
    match c.u2() {
        Ok(second) => Ok(Form::Pair { tag, first, second }),
        Err(end) => Err(PoolFault::End { at: end.at }),
    }
}

/// The kind of a method handle and an index.
fn handle(c: &mut Cursor<'_>, tag: Tag, base: u64) -> Result<Form, PoolFault>
    requires shape { tag ≡ pool_tag.method_handle }
    ensures ok { IfOk result (ReadsPayload c.old c.new tag base) }
    ensures fault { IfErr result (IsPayloadFault c.old.place tag c.old.rest) }
{
    let kind = match c.u1() {
        Ok(kind) => kind,
        Err(end) => return Err(PoolFault::End { at: end.at }),
    };
    match c.u2() {
        Ok(index) => Ok(Form::Handle { kind, index }),
        Err(end) => Err(PoolFault::End { at: end.at }),
    }
}

/// What stands behind a tag of this form. The place of a text is held as an offset from `base`.
pub fn payload(c: &mut Cursor<'_>, shape: Shape, tag: Tag, base: u64) -> Result<Form, PoolFault>
    requires shape { HasShape tag shape }
    requires behind { base + 1 ≤ c.old.place }
    ensures ok { IfOk result (ReadsPayload c.old c.new tag base) }
    ensures fault { IfErr result (IsPayloadFault c.old.place tag c.old.rest) }
{
    match shape {
        Shape::Utf8 => text(c, tag, base),
        Shape::Number => number(c, tag, base),
        Shape::Wide => wide(c, tag, base),
        Shape::Single => single(c, tag, base),
        Shape::Pair => pair(c, tag, base),
        Shape::Handle => handle(c, tag, base),
    }
}
