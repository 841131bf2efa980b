//! Methods (JVM specification 4.6).

ghost use Rattle.std.specs.Prelude.{◌≡◌, ◌<◌, ◌^◌, length, IfOk};
ghost use Rattle.ja_base.specs.Tag as pool_tag;
ghost use Rattle.ja_pool.specs.Table.{tag_at};
ghost use Rattle.ja_attributes.specs.Part.{ReadsUnless};
ghost use Rattle.ja_class.specs.declared.fault.ClassFault.TheVariants as faults;
ghost use Rattle.ja_class.specs.Meaning.{needs_code, method_said, code_said};
ghost use Rattle.ja_class.specs.ClassFault.{method_front, method, methods};

use crate::ClassFault;
use crate::class::{ClassMethod, ClassMethods};
use crate::descriptor::is_method_desc;
use crate::fault::attribute_fault;
use crate::member::{Front, front_of};
use crate::number::u2;
use ja_attributes::{MethodCode, method_attributes};
use ja_base::access_flags::{ABSTRACT, NATIVE};
use ja_base::{Memory, Name};
use ja_bytes::Cursor;
use ja_ir::{HeadMethod, HeadMethods};
use ja_pool::Pool;
use std::alloc::Global;

/// A method, without its code and with it.
#[derive(Drop)]
pub struct OneMethod {
    pub head: HeadMethod,
    pub body: ClassMethod,
}

/// Methods, without their code and with it.
#[derive(Drop)]
pub struct MethodLists {
    pub heads: HeadMethods,
    pub bodies: ClassMethods,
}

/// The front of a method, whose descriptor is that of a method with its flags.
fn method_front(alloc: Global, c: &mut Cursor<'_>, pool: &Pool) -> Result<Front, ClassFault>
    ensures reads { ReadsUnless faults.Memory (λ f. f) (method_front pool.now) c.old c.new result }
    ensures name { IfOk result (λ f. tag_at pool.now f.name ≡ pool_tag.utf8) }
    ensures descriptor { IfOk result (λ f. tag_at pool.now f.descriptor ≡ pool_tag.utf8) }
{
    let front = front_of(c, pool)?;
    if !is_method_desc(alloc, front.flags, pool.utf8(u32::from(front.descriptor)))? {
        return Err(ClassFault::BadDesc { at: front.place });
    }
    Ok(front)
}

/// Whether a method with these flags has code.
fn needs_code(flags: u16) -> bool
    ensures { result ≡ needs_code flags }
{
    flags & ABSTRACT == 0 && flags & NATIVE == 0
}

/// What a method says, where its front is read.
fn method_said(alloc: Global, pool: &Pool, front: Front) -> Result<HeadMethod, Memory>
    requires name { tag_at pool.now front.name ≡ pool_tag.utf8 }
    requires descriptor { tag_at pool.now front.descriptor ≡ pool_tag.utf8 }
    ensures { IfOk result (λ m. m ≡ method_said pool.now front.flags front.name front.descriptor) }
{
    Ok(HeadMethod {
        name: Name::of(alloc, pool.utf8(u32::from(front.name)))?,
        desc: Name::of(alloc, pool.utf8(u32::from(front.descriptor)))?,
        flags: u32::from(front.flags),
    })
}

/// The code of a method.
fn code_said(found: Option<MethodCode>) -> ClassMethod
    ensures { result ≡ code_said found }
{
    match found {
        None => ClassMethod {
            code: None,
            max_stack: 0,
            max_locals: 0,
        },
        Some(m) => ClassMethod {
            code: Some(m.code),
            max_stack: m.max_stack,
            max_locals: m.max_locals,
        },
    }
}

/// The method with this number.
fn method(
    alloc: Global,
    c: &mut Cursor<'_>,
    pool: &Pool,
    number: u32,
) -> Result<OneMethod, ClassFault>
    ensures { ReadsUnless faults.Memory (λ m. m) (method pool.now number) c.old c.new result }
{
    let at = c.place();
    let front = method_front(alloc, c, pool)?;
    let code = match method_attributes(alloc, c, pool, needs_code(front.flags), at) {
        Ok(code) => code,
        Err(found) => return Err(attribute_fault(number, found)),
    };
    Ok(OneMethod {
        head: method_said(alloc, pool, front)?,
        body: code_said(code),
    })
}

/// The methods.
pub fn methods(alloc: Global, c: &mut Cursor<'_>, pool: &Pool) -> Result<MethodLists, ClassFault>
    ensures { ReadsUnless faults.Memory (λ ms. ms) (methods pool.now) c.old c.new result }
{
    let count = u2(c)?;
    let mut heads = HeadMethods::new(alloc);
    let mut bodies = ClassMethods::new(alloc);
    for number in 0..count {
        let next = method(alloc, c, pool, u32::from(number))?;
        let OneMethod { head, body } = next;
        heads.push(head)?;
        bodies.push(body)?;
    }
    Ok(MethodLists { heads, bodies })
}
