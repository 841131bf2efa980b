//! Whole class files (JVM specification 4.1).

ghost use Rattle.std.specs.Prelude.{◌≡◌, ◌⊎◌, IfOk, IfErr, MatchResult};
ghost use Rattle.ja_attributes.specs.Part.{Reads, ReadsUnless};
ghost use Rattle.ja_class.specs.declared.fault.ClassFault.{ClassFault};
ghost use Rattle.ja_class.specs.declared.fault.ClassFault.TheVariants as faults;
ghost use Rattle.ja_class.specs.Meaning.{ClassSpelled};
ghost use Rattle.ja_class.specs.ClassFile.{IsClass};
ghost use Rattle.ja_class.specs.ClassFault.{start, class_attributes, members, ending, body, class_file, IsFault};

use crate::ClassFault;
use crate::class::{Class, ClassMethods};
use crate::descriptor::descriptors;
use crate::fault::attribute_fault;
use crate::field::fields;
use crate::head::{magic, names, version};
use crate::method::methods;
use ja_attributes::skip_attributes;
use ja_bytes::Cursor;
use ja_ir::ClassHead;
use ja_pool::{Pool, read_pool};
use std::alloc::Global;

/// A class without its pool.
#[derive(Drop)]
struct Declared {
    head: ClassHead,
    methods: ClassMethods,
}

/// What stands before the class itself: magic number, version and constant pool.
fn start(alloc: Global, c: &mut Cursor<'_>) -> Result<Pool, ClassFault>
    ensures { ReadsUnless faults.Memory (λ pool. pool) start c.old c.new result }
{
    magic(c)?;
    version(c)?;
    let pool = read_pool(alloc, c)?;
    descriptors(alloc, &pool)?;
    Ok(pool)
}

/// The attributes of the class, which are passed over.
fn class_attributes(c: &mut Cursor<'_>, pool: &Pool) -> Result<(), ClassFault>
    ensures { Reads (λ u. u) (class_attributes pool.now) c.old c.new result }
{
    match skip_attributes(c, pool) {
        Ok(()) => Ok(()),
        Err(found) => Err(attribute_fault(0, found)),
    }
}

/// The attributes of the class, and the end of the file.
fn ending(c: &mut Cursor<'_>, pool: &Pool) -> Result<(), ClassFault>
    ensures { Reads (λ u. u) (ending pool.now) c.old c.new result }
{
    class_attributes(c, pool)?;
    if !c.rest().is_empty() {
        return Err(ClassFault::Trailing { at: c.place() });
    }
    Ok(())
}

/// The class, its fields and its methods.
fn members(alloc: Global, c: &mut Cursor<'_>, pool: &Pool) -> Result<Declared, ClassFault>
    ensures { ReadsUnless faults.Memory (λ b. record { head = b.head; pool = pool.now; methods = b.methods }) (members pool.now) c.old c.new result }
{
    let names = names(alloc, c, pool)?;
    let fields = fields(alloc, c, pool)?;
    let methods = methods(alloc, c, pool)?;
    Ok(Declared {
        head: ClassHead {
            name: names.name,
            superclass: names.superclass,
            interfaces: names.interfaces,
            flags: names.flags,
            fields,
            methods: methods.heads,
        },
        methods: methods.bodies,
    })
}

/// What stands behind the constant pool.
fn body(alloc: Global, c: &mut Cursor<'_>, pool: &Pool) -> Result<Declared, ClassFault>
    ensures { ReadsUnless faults.Memory (λ b. record { head = b.head; pool = pool.now; methods = b.methods }) (body pool.now) c.old c.new result }
{
    let body = members(alloc, c, pool)?;
    ending(c, pool)?;
    Ok(body)
}

/// A class file.
fn class_file(alloc: Global, c: &mut Cursor<'_>) -> Result<(Pool, Declared), ClassFault>
    ensures { ReadsUnless faults.Memory (λ x. record { head = x.1.head; pool = x.0; methods = x.1.methods }) class_file c.old c.new result }
{
    let pool = start(alloc, c)?;
    let body = body(alloc, c, &pool)?;
    Ok((pool, body))
}

/// Reads a class file (JVM specification 4.1 to 4.7), of version 45 to 52, without `jsr`, `ret` and
/// `invokedynamic`. All of the bytes must be the class file.
///
/// Attributes but `ConstantValue` of fields and `Code` of methods are passed over. Any error but want of
/// memory is the first fault: of the parts of the file in their order, and in each of its checks in theirs.
pub fn read_class(alloc: Global, bytes: &[u8]) -> Result<Class, ClassFault>
    // What is read is spelled so.
    ensures ok { IfOk result (IsClass bytes.now) }
    // What is spelled so is read, unless memory runs out.
    ensures only { (class : ClassSpelled) → IsClass bytes.now class →
        MatchResult result (λ read. read ≡ class) (λ fault. fault ≡ faults.Memory) }
    // An error is the first fault, or want of memory.
    ensures fault { IfErr result (λ found. (found ≡ faults.Memory) ⊎ IsFault bytes.now found) }
    // The first fault is the error, unless memory runs out.
    ensures first { (fault : ClassFault) → IsFault bytes.now fault →
        MatchResult result (λ _. ⊥) (λ found. (found ≡ faults.Memory) ⊎ (found ≡ fault)) }
{
    let mut c = Cursor::new(bytes);
    let (pool, body) = class_file(alloc, &mut c)?;
    Ok(Class {
        head: body.head,
        pool,
        methods: body.methods,
    })
}
