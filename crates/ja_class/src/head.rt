//! Magic number, version, the class, its superclass and its interfaces (JVM specification 4.1).

ghost use Rattle.std.specs.Prelude.{◌≡◌, IfOk};
ghost use Rattle.ja_base.specs.Tag as pool_tag;
ghost use Rattle.ja_pool.specs.Table.{tag_at};
ghost use Rattle.ja_attributes.specs.Part.{Reads, ReadsUnless};
ghost use Rattle.ja_class.specs.declared.fault.ClassFault.TheVariants as faults;
ghost use Rattle.ja_class.specs.Member.{is_array, is_super};
ghost use Rattle.ja_class.specs.Meaning.{super_said};
ghost use Rattle.ja_class.specs.ClassFault.{magic, version, this_class, super_class, interface, interfaces, names};

use crate::ClassFault;
use crate::number::{index, u2, u4};
use ja_base::tag::CLASS;
use ja_base::{Memory, Name, Names};
use ja_bytes::Cursor;
use ja_pool::Pool;
use std::alloc::Global;

/// The flags of a class, and the names of the class, its superclass and its interfaces.
#[derive(Drop)]
pub struct ClassNames {
    pub flags: u32,
    pub name: Name,
    pub superclass: Option<Name>,
    pub interfaces: Names,
}

/// The magic number.
pub fn magic(c: &mut Cursor<'_>) -> Result<(), ClassFault>
    ensures { Reads (λ u. u) magic c.old c.new result }
{
    if u4(c)? != 0xcafe_babe {
        return Err(ClassFault::BadMagic);
    }
    Ok(())
}

/// The version: any minor, and a major from 45 to 52.
pub fn version(c: &mut Cursor<'_>) -> Result<(), ClassFault>
    ensures { Reads (λ u. u) version c.old c.new result }
{
    u2(c)?;
    let major = u2(c)?;
    if major < 45 || major > 52 {
        return Err(ClassFault::BadVersion {
            major: u32::from(major),
        });
    }
    Ok(())
}

/// Whether a name is that of an array class.
fn is_array(name: &[u8]) -> bool
    ensures { result ≡ is_array name.now }
{
    match name {
        [] => false,
        [first, ..] => *first == b'[',
    }
}

/// The index of the class, which is no array.
fn this_class(c: &mut Cursor<'_>, pool: &Pool) -> Result<u16, ClassFault>
    ensures reads { Reads (λ n. n) (this_class pool.now) c.old c.new result }
    ensures names { IfOk result (λ i. tag_at pool.now i ≡ pool_tag.class) }
{
    let at = c.place();
    let i = index(c, pool, CLASS)?;
    if is_array(pool.class_name(u32::from(i))) {
        return Err(ClassFault::BadIndex { at });
    }
    Ok(i)
}

/// Whether an index is that of a superclass of the class with this name.
fn is_super(pool: &Pool, name: &[u8], i: u16) -> bool
    ensures { result ≡ is_super pool.now name.now i }
{
    pool.tag(u32::from(i)) == CLASS || (i == 0 && name == b"java/lang/Object".as_slice())
}

/// The index of the superclass of the class with this name; 0 where it has none.
fn super_class(c: &mut Cursor<'_>, pool: &Pool, name: &[u8]) -> Result<u16, ClassFault>
    ensures reads { Reads (λ n. n) (super_class pool.now name.now) c.old c.new result }
    ensures names { IfOk result (λ i. (i ≡ 0 → ⊥) → tag_at pool.now i ≡ pool_tag.class) }
{
    let at = c.place();
    let i = u2(c)?;
    if !is_super(pool, name, i) {
        return Err(ClassFault::BadIndex { at });
    }
    Ok(i)
}

/// The name of the superclass, if the index names one.
fn superclass_name(alloc: Global, pool: &Pool, i: u16) -> Result<Option<Name>, Memory>
    requires { (i ≡ 0 → ⊥) → tag_at pool.now i ≡ pool_tag.class }
    ensures { IfOk result (λ name. name ≡ super_said pool.now i) }
{
    if i == 0 {
        return Ok(None);
    }
    match Name::of(alloc, pool.class_name(u32::from(i))) {
        Ok(name) => Ok(Some(name)),
        Err(e) => Err(e),
    }
}

/// The name of an interface.
fn interface(alloc: Global, c: &mut Cursor<'_>, pool: &Pool) -> Result<Name, ClassFault>
    ensures { ReadsUnless faults.Memory (λ name. name) (interface pool.now) c.old c.new result }
{
    let named = index(c, pool, CLASS)?;
    Ok(Name::of(alloc, pool.class_name(u32::from(named)))?)
}

/// The names of the interfaces.
fn interfaces(alloc: Global, c: &mut Cursor<'_>, pool: &Pool) -> Result<Names, ClassFault>
    ensures { ReadsUnless faults.Memory (λ names. names) (interfaces pool.now) c.old c.new result }
{
    let count = u2(c)?;
    let mut names = Names::new(alloc);
    for _interface in 0..count {
        let name = interface(alloc, c, pool)?;
        names.push(name)?;
    }
    Ok(names)
}

/// The flags of the class, and the names of the class, its superclass and its interfaces.
pub fn names(alloc: Global, c: &mut Cursor<'_>, pool: &Pool) -> Result<ClassNames, ClassFault>
    ensures { ReadsUnless faults.Memory (λ n. n) (names pool.now) c.old c.new result }
{
    let flags = u2(c)?;
    let this = this_class(c, pool)?;
    let name = pool.class_name(u32::from(this));
    let above = super_class(c, pool, name)?;
    let interfaces = interfaces(alloc, c, pool)?;
    Ok(ClassNames {
        flags: u32::from(flags),
        name: Name::of(alloc, name)?,
        superclass: superclass_name(alloc, pool, above)?,
        interfaces,
    })
}
