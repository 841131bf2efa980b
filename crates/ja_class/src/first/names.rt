//! Entries of the constant pool by their indices.

ghost use Rattle.std.specs.Prelude.{◌≡◌, option_map};
ghost use Rattle.std.specs.List.{list_all};
ghost use Rattle.ja_class.specs.Pool.{entry_at};
ghost use Rattle.ja_class.specs.InnerReading.{text_at, class_at, is_this, left_after, is_utf8, member_named, member_at, is_allowed};
ghost use Rattle.ja_class.specs.InnerViews.{entry_view, entries};

use super::FirstOp;
use super::constant::Constant;

/// The entry with an index. The first entry has index 1.
pub(super) fn constant_at<'a>(pool: &[Constant<'a>], index: u16) -> Option<Constant<'a>>
    ensures { option_map entry_view result ≡ entry_at (entries pool.now) index }
{
    if index == 0 {
        return None;
    }
    pool.get(index as usize - 1).copied()
}

/// The text with an index.
#[tactic(auto, unfolding(crate::specs::InnerReading::text_at))]
pub(super) fn text_of<'a>(pool: &[Constant<'a>], index: u16) -> Option<&'a [u8]>
    ensures { option_map (λ x. x.now) result ≡ text_at (entries pool.now) index }
{
    match constant_at(pool, index) {
        Some(Constant::Utf8(text)) => Some(text),
        _ => None,
    }
}

/// The name of the class with an index.
#[tactic(auto, unfolding(crate::specs::InnerReading::class_at))]
pub(super) fn class_name<'a>(pool: &[Constant<'a>], index: u16) -> Option<&'a [u8]>
    ensures { option_map (λ x. x.now) result ≡ class_at (entries pool.now) index }
{
    match constant_at(pool, index) {
        Some(Constant::Class(name)) => text_of(pool, name),
        _ => None,
    }
}

/// Whether what was found is this text.
pub(super) fn is_text(found: Option<&[u8]>, text: &[u8]) -> bool
    ensures { result ≡ is_this (option_map (λ x. x.now) found.entry) text.now }
{
    match found {
        Some(found) => found == text,
        None => false,
    }
}

/// How many bytes of a character are left after a byte, where more were left before it.
#[tactic(auto, unfolding(crate::specs::InnerReading::left_after))]
fn left_after(more: u8, byte: u8) -> Option<u8>
    ensures { result ≡ left_after more byte }
{
    if more == 0 {
        match byte {
            0x01..=0x7f => Some(0),
            0xc0..=0xdf => Some(1),
            0xe0..=0xef => Some(2),
            _ => None,
        }
    } else {
        match byte {
            0x80..=0xbf => Some(more - 1),
            _ => None,
        }
    }
}

/// Whether the bytes are characters of modified UTF-8 (JVM specification, 4.4.7).
#[tactic(auto, using(crate::proofs::Steps::utf8_step, crate::proofs::Steps::utf8_end))]
fn is_modified_utf8(bytes: &[u8]) -> bool
    ensures { result ≡ is_utf8 0 bytes.now }
{
    let mut more = 0;
    for byte in bytes {
        match left_after(more, *byte) {
            Some(left) => more = left,
            None => return false,
        }
    }
    more == 0
}

/// The method of `demo/Taint` with this name and descriptor, if it is source or sink.
fn taint_member(class: &[u8], name: &[u8], descriptor: &[u8]) -> Option<FirstOp>
    ensures { result ≡ member_named class.now name.now descriptor.now }
{
    if class != b"demo/Taint".as_slice() {
        return None;
    }
    if name == b"source".as_slice() && descriptor == b"()Ljava/lang/String;".as_slice() {
        return Some(FirstOp::Source);
    }
    if name == b"sink".as_slice() && descriptor == b"(Ljava/lang/String;)V".as_slice() {
        return Some(FirstOp::Sink);
    }
    None
}

/// The call that a class's index and the index of a name and a descriptor make.
#[tactic(auto, unfolding(crate::specs::InnerReading::member_at))]
pub(super) fn call_of(pool: &[Constant<'_>], class: u16, member: u16) -> Option<FirstOp>
    ensures { result ≡ member_at (entries pool.now) class member }
{
    let class = class_name(pool, class)?;
    match constant_at(pool, member) {
        Some(Constant::NameAndType(name, descriptor)) => {
            let name = text_of(pool, name)?;
            let descriptor = text_of(pool, descriptor)?;
            taint_member(class, name, descriptor)
        }
        _ => None,
    }
}

/// Whether the first form allows an entry of a pool.
#[tactic(auto, unfolding(crate::specs::InnerReading::is_allowed))]
fn allows(pool: &[Constant<'_>], constant: Constant<'_>) -> bool
    ensures { result ≡ is_allowed (entries pool.now) (entry_view constant.entry) }
{
    match constant {
        Constant::Utf8(text) => is_modified_utf8(text),
        Constant::Class(name) => text_of(pool, name).is_some(),
        Constant::String(text) => text_of(pool, text).is_some(),
        Constant::Methodref(class, member) => call_of(pool, class, member).is_some(),
        Constant::NameAndType(name, descriptor) => {
            text_of(pool, name).is_some() && text_of(pool, descriptor).is_some()
        }
    }
}

/// Whether the first form allows each entry of a pool.
#[tactic(auto, using(crate::proofs::Steps::allowed_step))]
pub(super) fn allows_all(pool: &[Constant<'_>]) -> bool
    ensures { result ≡ list_all (is_allowed (entries pool.now)) (entries pool.now) }
{
    for constant in pool {
        if !allows(pool, *constant) {
            return false;
        }
    }
    true
}
