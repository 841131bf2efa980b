//! The constant pool.

ghost use Rattle.std.specs.Prelude.{◌≡◌};
ghost use Rattle.ja_class.specs.InnerReading.{Gives, tagged_at, entry_from, entries_from, pool_from};
ghost use Rattle.ja_class.specs.InnerViews.{entry_view, entries};

use super::bytes::{short_text, u16_at, u16_pair};
use super::{Constant, FirstFault};
use ja_base::tag::{CLASS, METHOD, NAME_AND_TYPE, STRING, Tag, UTF8};
use std::alloc::Global;

/// The entry behind its tag, and the bytes after it.
#[tactic(auto, unfolding(crate::specs::InnerReading::tagged_at))]
fn tagged(tag: Tag, bytes: &[u8]) -> Result<(Constant<'_>, &[u8]), FirstFault>
    ensures { Gives (λ x. (entry_view x.0, x.1.now)) result (tagged_at tag bytes.now) }
{
    match tag {
        UTF8 => {
            let (text, rest) = short_text(bytes)?;
            Ok((Constant::Utf8(text), rest))
        }
        CLASS => {
            let (name, rest) = u16_at(bytes)?;
            Ok((Constant::Class(name), rest))
        }
        STRING => {
            let (text, rest) = u16_at(bytes)?;
            Ok((Constant::String(text), rest))
        }
        METHOD => {
            let (class, name_and_type, rest) = u16_pair(bytes)?;
            Ok((Constant::Methodref(class, name_and_type), rest))
        }
        NAME_AND_TYPE => {
            let (name, descriptor, rest) = u16_pair(bytes)?;
            Ok((Constant::NameAndType(name, descriptor), rest))
        }
        _ => Err(FirstFault::Unbuilt),
    }
}

/// An entry, and the bytes after it.
#[tactic(auto, unfolding(crate::specs::InnerReading::entry_from))]
fn constant_of(bytes: &[u8]) -> Result<(Constant<'_>, &[u8]), FirstFault>
    ensures { Gives (λ x. (entry_view x.0, x.1.now)) result (entry_from bytes.now) }
{
    match bytes {
        [] => Err(FirstFault::Unbuilt),
        [tag, rest @ ..] => tagged(*tag, rest),
    }
}

/// This many entries, and the bytes after them.
fn constants_of(
    alloc: Global,
    count: u16,
    bytes: &[u8],
) -> Result<(Vec<Constant<'_>>, &[u8]), FirstFault>
    ensures { Gives (λ x. (entries x.0.items, x.1.now)) result (entries_from count bytes.now) }
{
    let mut constants = Vec::new(alloc);
    let mut rest = bytes;
    for _ in 0..count {
        let (constant, after) = constant_of(rest)?;
        constants.push(constant)?;
        rest = after;
    }
    Ok((constants, rest))
}

/// The pool behind its count, and the bytes after it.
#[tactic(auto, unfolding(crate::specs::InnerReading::pool_from))]
pub(super) fn pool_of(alloc: Global, bytes: &[u8]) -> Result<(Vec<Constant<'_>>, &[u8]), FirstFault>
    ensures { Gives (λ x. (entries x.0.items, x.1.now)) result (pool_from bytes.now) }
{
    let (count, rest) = u16_at(bytes)?;
    if count == 0 {
        return Err(FirstFault::Unbuilt);
    }
    constants_of(alloc, count - 1, rest)
}
