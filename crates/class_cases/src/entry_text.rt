//! Entries of a constant pool as text.
use case_text::ShownBytes;
use ja_pool::{Constant, Pool};
use std::fmt;

/// An entry by its index: what it is, and what it names.
#[derive(Clone, Copy)]
pub struct EntryText<'a>(pub &'a Pool, pub u32);

impl fmt::Display for EntryText<'_> {
    fn fmt<W: fmt::Write>(&self, f: &mut fmt::Formatter<W>) -> fmt::Result {
        let EntryText(pool, index) = *self;
        let tag = pool.tag(index);
        match tag {
            1 => write!(f, "text {}", ShownBytes(pool.utf8(index))),
            3 | 4 | 5 | 6 => write!(f, "{:?}", pool.constant(index)),
            7 => write!(f, "class {}", ShownBytes(pool.class_name(index))),
            8 => write_string(f, pool, pool.constant(index)),
            9 | 10 | 11 => write_member(f, pool, index),
            _ => write!(f, "tag {tag}"),
        }
    }
}

/// Writes the text of a string.
fn write_string<W: fmt::Write>(
    f: &mut fmt::Formatter<W>,
    pool: &Pool,
    constant: Constant,
) -> fmt::Result {
    match constant {
        Constant::Text(at) if pool.tag(at) == 1 => write!(
            f,
            "string {}",
            ShownBytes(pool.utf8(at))
        ),
        other => write!(f, "{other:?}"),
    }
}

/// Writes a reference to a field or a method.
fn write_member<W: fmt::Write>(f: &mut fmt::Formatter<W>, pool: &Pool, index: u32) -> fmt::Result {
    let tag = pool.tag(index);
    if !(tag == 9 || tag == 10 || tag == 11) {
        return Ok(());
    }
    let member = pool.member(index);
    write!(
        f,
        "member {tag} {}.{} {}",
        ShownBytes(member.class),
        ShownBytes(member.name),
        ShownBytes(member.desc)
    )
}
