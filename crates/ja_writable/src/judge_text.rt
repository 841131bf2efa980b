//! Texts, descriptors and numbers that an item gives: whether each can be written.

ghost use Rattle.std.specs.Prelude.{◌≡◌, ◌⊎◌, true, false, slice_index, Decides};
ghost use Rattle.ja_bytes.specs.DescriptorText.{IsFieldDesc, IsMethodText};
ghost use Rattle.ja_assembly.specs.Members.{fits, fits_signed};
ghost use Rattle.ja_assembly.specs.Unwritable.{IsNoText, IsNoMember, HasNoRoom, IsCrowded, IsNoDimensions, is_no_constant, dimensions_of};
ghost use Rattle.ja_writable.specs.InnerJudging.{Judges};

use crate::flaw::Flaw;
use ja_base::Name;
use ja_base::access_flags::STATIC;
use ja_bytes::{DescFault, field_desc, method_desc, modified_utf8};
use ja_code::Form;
use ja_listing::{MemberName, Number};
use std::alloc::Global;

/// The most bytes of a text in a pool (JVM specification 4.4.7).
const MAX_TEXT: usize = 65535;

/// Passes where a test does.
pub(crate) fn demand(test: bool) -> Result<(), Flaw>
    ensures { Judges result (test ≡ false) }
{
    if test { Ok(()) } else { Err(Flaw::Unwritable) }
}

/// Fails where a test passes.
pub(crate) fn refuse(test: bool) -> Result<(), Flaw>
    ensures { Judges result (test ≡ true) }
{
    if test { Err(Flaw::Unwritable) } else { Ok(()) }
}

/// Whether a name begins with `[`, as those of array classes do.
pub(crate) fn is_array(name: &[u8]) -> bool
    ensures { Decides result (slice_index name.now 0 ≡ 91) }
{
    !name.is_empty() && name[0] == b'['
}

/// Whether parameters of so many words, and the receiver of a method with these flags, are too many.
fn is_crowded(flags: Number, words: u32) -> bool
    ensures { Decides result (IsCrowded flags words) }
{
    flags.size & u32::from(STATIC) == 0 && words > 254
}

/// Whether a number fits a field of one byte.
pub(crate) fn fits_byte(n: Number) -> bool
    ensures { result ≡ fits 8 n }
{
    n.size < 256 && (!n.negative || n.size == 0)
}

/// Whether a number fits a field of two bytes.
pub(crate) fn fits_short(n: Number) -> bool
    ensures { result ≡ fits 16 n }
{
    n.size < 65536 && (!n.negative || n.size == 0)
}

/// Whether a number fits a field of one byte in two's complement.
pub(crate) fn fits_signed_byte(n: Number) -> bool
    ensures { result ≡ fits_signed 7 n }
{
    if n.negative {
        n.size < 129
    } else {
        n.size < 128
    }
}

/// Whether a number fits a field of two bytes in two's complement.
fn fits_signed_short(n: Number) -> bool
    ensures { result ≡ fits_signed 15 n }
{
    if n.negative {
        n.size < 32769
    } else {
        n.size < 32768
    }
}

/// Whether a number does not fit the field of an opcode of this form.
pub(crate) fn is_no_constant(form: Option<Form>, n: Number) -> bool
    ensures { result ≡ is_no_constant form n }
{
    match form {
        Some(Form::Byte) => !fits_signed_byte(n),
        Some(Form::Short) => !fits_signed_short(n),
        Some(Form::ArrayType) => !(fits_byte(n) && (4 <= n.size && n.size <= 11)),
        _ => !fits_byte(n),
    }
}

/// A text of a pool.
pub(crate) fn judge_text(text: &Name) -> Result<(), Flaw>
    ensures { Judges result (IsNoText text.now) }
{
    if text.bytes().len() > MAX_TEXT {
        return Err(Flaw::Unwritable);
    }
    match modified_utf8(text.bytes()) {
        Ok(()) => Ok(()),
        Err(_) => Err(Flaw::Unwritable),
    }
}

/// The descriptor of a field.
pub(crate) fn judge_field_desc(alloc: Global, desc: &Name) -> Result<(), Flaw>
    ensures { Judges result (IsFieldDesc desc.now → ⊥) }
{
    match field_desc(alloc, desc.bytes()) {
        Ok(_) => Ok(()),
        Err(DescFault::Bad { .. }) => Err(Flaw::Unwritable),
        Err(DescFault::Memory) => Err(Flaw::Memory),
    }
}

/// The descriptor of a method.
fn judge_method_text(alloc: Global, desc: &Name) -> Result<(), Flaw>
    ensures { Judges result (IsMethodText desc.now → ⊥) }
{
    match method_desc(alloc, desc.bytes()) {
        Ok(_) => Ok(()),
        Err(DescFault::Bad { .. }) => Err(Flaw::Unwritable),
        Err(DescFault::Memory) => Err(Flaw::Memory),
    }
}

/// The descriptor of a method with these flags: its parameter words, with the receiver, are at most 255.
pub(crate) fn judge_method_desc(alloc: Global, flags: Number, desc: &Name) -> Result<(), Flaw>
    ensures { Judges result ((IsMethodText desc.now → ⊥) ⊎ HasNoRoom flags desc.now) }
{
    match method_desc(alloc, desc.bytes()) {
        Ok(found) => refuse(is_crowded(flags, found.words)),
        Err(DescFault::Bad { .. }) => Err(Flaw::Unwritable),
        Err(DescFault::Memory) => Err(Flaw::Memory),
    }
}

/// A field that an instruction names.
pub(crate) fn judge_field_name(alloc: Global, member: &MemberName) -> Result<(), Flaw>
    ensures { Judges result (IsNoMember IsFieldDesc member.now) }
{
    judge_text(&member.class)?;
    judge_text(&member.name)?;
    judge_text(&member.desc)?;
    judge_field_desc(alloc, &member.desc)
}

/// A method that an instruction names.
pub(crate) fn judge_method_name(alloc: Global, member: &MemberName) -> Result<(), Flaw>
    ensures { Judges result (IsNoMember IsMethodText member.now) }
{
    judge_text(&member.class)?;
    judge_text(&member.name)?;
    judge_text(&member.desc)?;
    judge_method_text(alloc, &member.desc)
}

/// The number of `[` with which a name begins.
fn dimensions_of(name: &[u8]) -> usize
    ensures { result ≡ dimensions_of name.now }
{
    name.iter().take_while(|byte| **byte == b'[').count()
}

/// The number of dimensions of an array type that are made.
pub(crate) fn judge_dimensions(name: &Name, dimensions: Number) -> Result<(), Flaw>
    ensures { Judges result (IsNoDimensions name.now dimensions) }
{
    demand(fits_byte(dimensions))?;
    demand(dimensions.size != 0)?;
    demand(dimensions.size as usize <= dimensions_of(name.bytes()))
}
