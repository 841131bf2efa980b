//! The parts of a class file, as they lie in its bytes.

ghost use Rattle.std.specs.Prelude.{◌≡◌};
ghost use Rattle.ja_class.specs.InnerReading.{Gives, version_from, class_from, content_from, attribute_from, method_from, file_from};
ghost use Rattle.ja_class.specs.InnerViews.{code_view, method_view, file_view};

use super::FirstFault;
use super::bytes::{after_u16, after_u32, long_bytes, u16_at, u16_pair, u32_at};
use super::constant::Constant;
use super::pool::pool_of;
use std::alloc::Global;

/// A Code attribute without exception table and attributes (JVM specification, 4.7.3).
#[derive(Drop)]
pub(super) struct CodeAttribute<'a> {
    pub(super) name_index: u16,
    pub(super) max_stack: u16,
    pub(super) max_locals: u16,
    pub(super) code: &'a [u8],
}

/// A method whose one attribute is its code (JVM specification, 4.6).
#[derive(Drop)]
pub(super) struct MethodInfo<'a> {
    pub(super) name_index: u16,
    pub(super) descriptor_index: u16,
    pub(super) code: CodeAttribute<'a>,
}

/// A class file with one method, and without interfaces, fields and attributes
/// (JVM specification, 4.1).
#[derive(Drop)]
pub(super) struct ClassFile<'a> {
    pub(super) minor_version: u16,
    pub(super) major_version: u16,
    pub(super) pool: Vec<Constant<'a>>,
    pub(super) access_flags: u16,
    pub(super) this_class: u16,
    pub(super) super_class: u16,
    pub(super) method: MethodInfo<'a>,
}

/// The version behind the magic number, and the bytes after it.
#[tactic(auto, unfolding(crate::specs::InnerReading::version_from))]
fn version_of(bytes: &[u8]) -> Result<(u16, u16, &[u8]), FirstFault>
    ensures { Gives (λ x. ((x.0, x.1), x.2.now)) result (version_from bytes.now) }
{
    let rest = after_u32(bytes, 0xcafe_babe)?;
    u16_pair(rest)
}

/// The flags, the class and its superclass. Behind them stand the counts of no interface, no
/// field and one method, and then the bytes that are left.
#[tactic(auto, unfolding(crate::specs::InnerReading::class_from))]
fn class_of(bytes: &[u8]) -> Result<(u16, u16, u16, &[u8]), FirstFault>
    ensures { Gives (λ x. ((x.0, (x.1, x.2)), x.3.now)) result (class_from bytes.now) }
{
    let (access_flags, rest) = u16_at(bytes)?;
    let (this_class, super_class, rest) = u16_pair(rest)?;
    let rest = after_u16(rest, 0)?;
    let rest = after_u16(rest, 0)?;
    let rest = after_u16(rest, 1)?;
    Ok((access_flags, this_class, super_class, rest))
}

/// The frame's size, stack first, and the code. Behind it stand the counts of no exception
/// entry and no attribute, and then the bytes that are left.
#[tactic(auto, unfolding(crate::specs::InnerReading::content_from))]
fn content_of(bytes: &[u8]) -> Result<(u16, u16, &[u8], &[u8]), FirstFault>
    ensures { Gives (λ x. (((x.0, x.1), x.2.now), x.3.now)) result (content_from bytes.now) }
{
    let (max_stack, max_locals, rest) = u16_pair(bytes)?;
    let (code, rest) = long_bytes(rest)?;
    let rest = after_u16(rest, 0)?;
    let rest = after_u16(rest, 0)?;
    Ok((max_stack, max_locals, code, rest))
}

/// A Code attribute, and the bytes after it.
#[tactic(auto, unfolding(crate::specs::InnerReading::attribute_from))]
fn attribute_of(bytes: &[u8]) -> Result<(CodeAttribute<'_>, &[u8]), FirstFault>
    ensures { Gives (λ x. (code_view x.0, x.1.now)) result (attribute_from bytes.now) }
{
    let (name_index, rest) = u16_at(bytes)?;
    let (length, rest) = u32_at(rest)?;
    let (max_stack, max_locals, code, rest) = content_of(rest)?;
    if length as usize != code.len() + 12 {
        return Err(FirstFault::Unbuilt);
    }
    let attribute = CodeAttribute {
        name_index,
        max_stack,
        max_locals,
        code,
    };
    Ok((attribute, rest))
}

/// A method that is public and static and has one attribute, and the bytes after it.
#[tactic(auto, unfolding(crate::specs::InnerReading::method_from))]
fn method_of(bytes: &[u8]) -> Result<(MethodInfo<'_>, &[u8]), FirstFault>
    ensures { Gives (λ x. (method_view x.0, x.1.now)) result (method_from bytes.now) }
{
    let rest = after_u16(bytes, 0x0009)?;
    let (name_index, descriptor_index, rest) = u16_pair(rest)?;
    let rest = after_u16(rest, 1)?;
    let (code, rest) = attribute_of(rest)?;
    let method = MethodInfo {
        name_index,
        descriptor_index,
        code,
    };
    Ok((method, rest))
}

/// A class file, all of the bytes.
#[tactic(auto, unfolding(crate::specs::InnerReading::file_from))]
pub(super) fn file_of(alloc: Global, bytes: &[u8]) -> Result<ClassFile<'_>, FirstFault>
    ensures { Gives file_view result (file_from bytes.now) }
{
    let (minor_version, major_version, rest) = version_of(bytes)?;
    let (pool, rest) = pool_of(alloc, rest)?;
    let (access_flags, this_class, super_class, rest) = class_of(rest)?;
    let (method, rest) = method_of(rest)?;
    let rest = after_u16(rest, 0)?;
    if !rest.is_empty() {
        return Err(FirstFault::Unbuilt);
    }
    Ok(ClassFile {
        minor_version,
        major_version,
        pool,
        access_flags,
        this_class,
        super_class,
        method,
    })
}
