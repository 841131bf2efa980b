ghost use Rattle.std.specs.Prelude.{◌≡◌, false, IfOk, IfSome, IfNone, IsTrue, map, option_map};
ghost use Rattle.ja_pool.specs.Table.{tag_at, is_member_tag};
ghost use Rattle.ja_kinds.specs.Effect.{constant_kind, kind_of_type, tag_named};
ghost use Rattle.ja_code.specs.Grammar.{operand_at};
ghost use Rattle.ja_kinds.specs.InnerReading.{FindsField, FindsMethod};

use crate::state::KindList;
use ja_base::tag::{CLASS, FIELD, FLOAT, INTEGER, INTERFACE_METHOD, METHOD, STRING, Tag};
use ja_base::{JavaType, JavaTypes, Kind, Memory};
use ja_bytes::{DescFault, field_desc, method_desc};
use ja_code::RawInstr;
use ja_pool::Pool;
use std::alloc::Global;

/// The kinds that a method takes and gives, without a receiver.
#[derive(Drop)]
pub(crate) struct MethodKinds {
    pub taken: KindList,
    pub given: Option<Kind>,
}

/// The tag of the entry that an instruction names, 0 where it names none.
pub fn tag_named(pool: &Pool, instr: &RawInstr) -> Tag
    ensures { result ≡ tag_named pool.now instr.now }
{
    let index = instr.operand(0);
    if index < u64::from(pool.count()) {
        pool.tag(index as u32)
    } else {
        0
    }
}

/// Whether a tag is that of a member.
fn is_member_tag(tag: Tag) -> bool
    ensures { result ≡ is_member_tag tag }
{
    tag == FIELD || tag == METHOD || tag == INTERFACE_METHOD
}

/// The kind of a constant with this tag, where `ldc` takes it.
pub(crate) fn constant_kind(tag: Tag) -> Option<Kind>
    ensures { result ≡ constant_kind tag }
{
    match tag {
        CLASS => Some(Kind::R),
        STRING => Some(Kind::R),
        INTEGER => Some(Kind::P1),
        FLOAT => Some(Kind::P1),
        _ => None,
    }
}

/// The index of the member that an instruction names.
fn member_named(pool: &Pool, instr: &RawInstr) -> Option<u32>
    ensures index { IfSome result (λ n. n ≡ operand_at instr.now 0) }
    ensures member { IfSome result (λ n. IsTrue (is_member_tag (tag_at pool.now n))) }
    ensures none { IfNone result (is_member_tag (tag_at pool.now (operand_at instr.now 0)) ≡ false) }
{
    let place = instr.operand(0);
    if place >= u64::from(pool.count()) {
        return None;
    }
    let index = place as u32;
    if !is_member_tag(pool.tag(index)) {
        return None;
    }
    Some(index)
}

/// The kind of the field that an instruction names.
pub(crate) fn field_kind(
    alloc: Global,
    pool: &Pool,
    instr: &RawInstr,
) -> Result<Option<Kind>, Memory>
    ensures { IfOk result (FindsField pool.now instr.now) }
{
    let Some(index) = member_named(pool, instr) else {
        return Ok(None);
    };
    let member = pool.member(index);
    match field_desc(alloc, member.desc) {
        Ok(kind) => Ok(Some(kind)),
        Err(DescFault::Bad { at: _ }) => Ok(None),
        Err(DescFault::Memory) => Err(Memory),
    }
}

/// The kinds of types.
pub(crate) fn kinds_of_types(alloc: Global, types: &JavaTypes) -> Result<KindList, Memory>
    ensures { IfOk result (λ kinds. kinds ≡ map kind_of_type types.now) }
{
    let mut kinds = KindList::new(alloc);
    for found in types.as_slice() {
        kinds.push(found.kind)?;
    }
    Ok(kinds)
}

/// The kind of a type, if there is one.
pub(crate) fn kind_in(found: &Option<JavaType>) -> Option<Kind>
    ensures { result ≡ option_map kind_of_type found.now }
{
    match found {
        Some(found) => Some(found.kind),
        None => None,
    }
}

/// The kinds that the method takes and gives that an instruction names.
pub(crate) fn method_kinds(
    alloc: Global,
    pool: &Pool,
    instr: &RawInstr,
) -> Result<Option<MethodKinds>, Memory>
    ensures { IfOk result (FindsMethod pool.now instr.now) }
{
    let Some(index) = member_named(pool, instr) else {
        return Ok(None);
    };
    let member = pool.member(index);
    match method_desc(alloc, member.desc) {
        Ok(desc) => {
            let taken = kinds_of_types(alloc, &desc.params)?;
            let given = kind_in(&desc.result);
            Ok(Some(MethodKinds { taken, given }))
        }
        Err(DescFault::Bad { at: _ }) => Ok(None),
        Err(DescFault::Memory) => Err(Memory),
    }
}
