//! Descriptors, and those of the constant pool (JVM specification 4.3, 4.4.2).

ghost use Rattle.std.specs.Prelude.{◌≡◌, ◌≢◌, slice_index_or, None, IfOk, MatchBool};
ghost use Rattle.ja_bytes.specs.Reading.{Reading};
ghost use Rattle.ja_bytes.specs.DescriptorText.{IsFieldDesc, IsMethodText};
ghost use Rattle.ja_attributes.specs.Part.{ReadsUnless};
ghost use Rattle.ja_class.specs.declared.fault.ClassFault.TheVariants as faults;
ghost use Rattle.ja_class.specs.Member.{HasDescriptor, IsMethodDesc, receiver_words};
ghost use Rattle.ja_class.specs.ClassFault.{descriptors};

use crate::ClassFault;
use ja_base::Memory;
use ja_base::access_flags::STATIC;
use ja_base::tag::{FIELD, INTERFACE_METHOD, METHOD};
use ja_bytes::{DescFault, field_desc, method_desc};
use ja_pool::Pool;
use std::alloc::Global;

/// Whether a text is the descriptor of a field.
pub fn is_field_desc(alloc: Global, text: &[u8]) -> Result<bool, Memory>
    ensures { IfOk result (λ right. MatchBool right (IsFieldDesc text.now) (IsFieldDesc text.now → ⊥)) }
{
    match field_desc(alloc, text) {
        Ok(_) => Ok(true),
        Err(DescFault::Bad { .. }) => Ok(false),
        Err(DescFault::Memory) => Err(Memory),
    }
}

/// Whether a text is the descriptor of a method.
fn is_method_text(alloc: Global, text: &[u8]) -> Result<bool, Memory>
    ensures { IfOk result (λ right. MatchBool right (IsMethodText text.now) (IsMethodText text.now → ⊥)) }
{
    match method_desc(alloc, text) {
        Ok(_) => Ok(true),
        Err(DescFault::Bad { .. }) => Ok(false),
        Err(DescFault::Memory) => Err(Memory),
    }
}

/// The words of the receiver of a method with these flags.
fn receiver_words(flags: u16) -> u32
    ensures { result ≡ receiver_words flags }
{
    if flags & STATIC == 0 { 1 } else { 0 }
}

/// Whether a text is the descriptor of a method with these flags, whose parameters take at most 255 words,
/// the receiver counted.
pub fn is_method_desc(alloc: Global, flags: u16, text: &[u8]) -> Result<bool, Memory>
    ensures { IfOk result (λ right. MatchBool right (IsMethodDesc flags text.now) (IsMethodDesc flags text.now → ⊥)) }
{
    match method_desc(alloc, text) {
        Ok(desc) => Ok(desc.words + receiver_words(flags) <= 255),
        Err(DescFault::Bad { .. }) => Ok(false),
        Err(DescFault::Memory) => Err(Memory),
    }
}

/// Whether the entry at an index has the descriptor that it must have, if it must have one.
fn has_descriptor(alloc: Global, pool: &Pool, i: u32) -> Result<bool, Memory>
    ensures { IfOk result (λ right. MatchBool right (HasDescriptor pool.now (slice_index_or pool.now i None)) (HasDescriptor pool.now (slice_index_or pool.now i None) → ⊥)) }
{
    match pool.tag(i) {
        FIELD => is_field_desc(alloc, pool.member(i).desc),
        METHOD | INTERFACE_METHOD => is_method_text(alloc, pool.member(i).desc),
        _ => Ok(true),
    }
}

/// Checks the descriptors of the pool, in the order of its entries.
pub fn descriptors(alloc: Global, pool: &Pool) -> Result<(), ClassFault>
    ensures { (old : Reading) → ReadsUnless faults.Memory (λ u. u) (descriptors pool.now pool.now) old old result }
{
    for i in 0..pool.count() {
        if !has_descriptor(alloc, pool, i)? {
            let at = pool.tag_at(i);
            return Err(ClassFault::BadDesc { at });
        }
    }
    Ok(())
}
