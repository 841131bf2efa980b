//! The constant pool of a class file (JVM specification 4.4).

ghost use Rattle.std.specs.Prelude.{◌≡◌, ◌+◌, ◌++◌, ◌<◌, length, map, OnOk, IfOk};
ghost use Rattle.std.specs.List.{flat_map};
ghost use Rattle.ja_pool.specs.Entry.{utf8, single, pair, spelling};
ghost use Rattle.ja_assembly.specs.declared.key.Key.TheVariants.{Text, Class, NameAndType, Member};
ghost use Rattle.ja_assembly.specs.Assembled.{u1, u2, string_index, key_index, text_index, class_index, member_index, string_entry, key_entry, entries_of, Pool};
ghost use Rattle.ja_maker.specs.InnerWriting.{pool_in, IsFew};

use crate::put::{put_bytes, put_u1, put_u2};
use ja_assembly::Key;
use ja_base::tag::{CLASS, NAME_AND_TYPE, STRING, Tag, UTF8};
use ja_base::{Bytes, Memory, Name};
use ja_listing::MemberName;
use ja_writable::Wants;
use std::alloc::Global;

/// The index of a string, or 0.
pub(crate) fn string_index(pool: &Wants, text: &Name) -> u64
    requires { IsFew pool.now }
    ensures { result ≡ string_index (pool_in pool.now) text.now }
{
    match pool.strings.get_index_of(text) {
        Some(place) => 1 + place as u64,
        None => 0,
    }
}

/// The index of another entry, or 0.
fn key_index(pool: &Wants, key: &Key) -> u64
    requires { IsFew pool.now }
    ensures { result ≡ key_index (pool_in pool.now) key.now }
{
    match pool.keys.get_index_of(key) {
        Some(place) => pool.strings.len() as u64 + 1 + place as u64,
        None => 0,
    }
}

/// The index of a text, or 0.
pub(crate) fn text_index(alloc: Global, pool: &Wants, text: &[u8]) -> Result<u64, Memory>
    requires { IsFew pool.now }
    ensures { IfOk result (λ index. index ≡ text_index (pool_in pool.now) text.now) }
{
    let key = Key::Text(Name::of(alloc, text)?);
    Ok(key_index(pool, &key))
}

/// The index of a class, or 0.
pub(crate) fn class_index(alloc: Global, pool: &Wants, name: &Name) -> Result<u64, Memory>
    requires { IsFew pool.now }
    ensures { IfOk result (λ index. index ≡ class_index (pool_in pool.now) name.now) }
{
    let key = Key::Class(name.copy(alloc)?);
    Ok(key_index(pool, &key))
}

/// The index of a name with its type, or 0.
fn pair_index(alloc: Global, pool: &Wants, name: &Name, desc: &Name) -> Result<u64, Memory>
    requires { IsFew pool.now }
    ensures { IfOk result (λ index. index ≡ key_index (pool_in pool.now) (NameAndType name.now desc.now)) }
{
    let key = Key::NameAndType(name.copy(alloc)?, desc.copy(alloc)?);
    Ok(key_index(pool, &key))
}

/// The index of a member with this tag, or 0.
pub(crate) fn member_index(
    alloc: Global,
    pool: &Wants,
    tag: Tag,
    member: &MemberName,
) -> Result<u64, Memory>
    requires { IsFew pool.now }
    ensures { IfOk result (λ index. index ≡ member_index (pool_in pool.now) tag member.now) }
{
    let class = member.class.copy(alloc)?;
    let name = member.name.copy(alloc)?;
    let desc = member.desc.copy(alloc)?;
    let key = Key::Member(tag, class, name, desc);
    Ok(key_index(pool, &key))
}

/// A tag and an index.
fn put_single(out: &mut Bytes, tag: Tag, index: u64) -> Result<(), Memory>
    ensures { OnOk result (out.new ≡ out.old ++ spelling (single tag index)) }
{
    put_u1(out, u64::from(tag))?;
    put_u2(out, index)
}

/// A string.
pub(crate) fn put_string(
    alloc: Global,
    out: &mut Bytes,
    pool: &Wants,
    text: &Name,
) -> Result<(), Memory>
    requires { IsFew pool.now }
    ensures { OnOk result (out.new ≡ out.old ++ spelling (string_entry (pool_in pool.now) text.now)) }
{
    let index = text_index(alloc, pool, text.bytes())?;
    put_single(out, STRING, index)
}

/// Another entry.
pub(crate) fn put_key(alloc: Global, out: &mut Bytes, pool: &Wants, key: &Key) -> Result<(), Memory>
    requires { IsFew pool.now }
    ensures { OnOk result (out.new ≡ out.old ++ spelling (key_entry (pool_in pool.now) key.now)) }
{
    match key {
        Key::Text(text) => put_text(out, text),
        Key::Class(name) => {
            let index = text_index(alloc, pool, name.bytes())?;
            put_single(out, CLASS, index)
        }
        Key::NameAndType(name, desc) => {
            let name = text_index(alloc, pool, name.bytes())?;
            let desc = text_index(alloc, pool, desc.bytes())?;
            put_pair(out, NAME_AND_TYPE, name, desc)
        }
        Key::Member(tag, class, name, desc) => {
            let class = class_index(alloc, pool, class)?;
            let pair = pair_index(alloc, pool, name, desc)?;
            put_pair(out, *tag, class, pair)
        }
    }
}

/// A text.
fn put_text(out: &mut Bytes, text: &Name) -> Result<(), Memory>
    ensures { OnOk result (out.new ≡ out.old ++ spelling (utf8 text.now)) }
{
    put_u1(out, u64::from(UTF8))?;
    put_u2(out, text.bytes().len() as u64)?;
    put_bytes(out, text.bytes())
}

/// A tag and two indices.
fn put_pair(out: &mut Bytes, tag: Tag, first: u64, second: u64) -> Result<(), Memory>
    ensures { OnOk result (out.new ≡ out.old ++ spelling (pair tag first second)) }
{
    put_u1(out, u64::from(tag))?;
    put_u2(out, first)?;
    put_u2(out, second)
}
