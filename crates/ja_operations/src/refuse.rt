ghost use Rattle.std.specs.Prelude.{◌≡◌, ◌<◌, ◌↔◌, length, IsTrue, OnOk, IfErr, false, codes};
ghost use Rattle.ja_ir.specs.declared.class.MethodAt.TheVariants.{Library};
ghost use Rattle.ja_operations.specs.Refused.{begins_with, makes_class, is_reflective, TriesThread, StartsThread, RefusesCall, UnlessMemory};
ghost use Rattle.ja_operations.specs.Targets.{FindsFrom, LooksUp};

use crate::target::{find_from, look_up};
use crate::{MemberRef, OpFault};
use ja_base::{ClassId, Name};
use ja_hier::{Hier, law_one_answer};
use ja_ir::{CallKind, MethodAt};
use ja_supertypes::law_one_list;
use std::alloc::Global;

/// Whether bytes begin with these.
fn begins_with(start: &[u8], bytes: &[u8]) -> bool
    ensures { result ≡ begins_with start.now bytes.now }
{
    let (front, _) = bytes.split_at(bytes.len().min(start.len()));
    front == start
}

/// Whether a call is one of reflection.
fn is_reflective(member: &MemberRef) -> bool
    ensures { result ≡ is_reflective member.now }
{
    let class = member.class.bytes();
    begins_with(b"java/lang/reflect/", class)
        || class == b"java/lang/ClassLoader".as_slice()
        || class == b"java/lang/Class".as_slice() && makes_class(member.name.bytes())
}

/// Whether a method of `java/lang/Class` makes classes or objects by their names.
fn makes_class(name: &[u8]) -> bool
    ensures { result ≡ makes_class name.now }
{
    name == b"forName".as_slice() || name == b"newInstance".as_slice()
}

/// Whether `java/lang/Thread` is among the names that are tried for a class.
fn tries_thread(hier: &Hier, thread: &Name, class: &Name) -> bool
    requires { thread.now ≡ codes "java/lang/Thread" }
    ensures { IsTrue result ↔ TriesThread hier.now class.now }
{
    law_one_list();
    match hier.class_named(class) {
        Some(class) => hier.library_types(class).as_slice().contains(thread),
        None => *class == *thread,
    }
}

/// Whether a call of this kind in a class starts a thread.
fn starts_thread(hier: &Hier, thread: &Name, c: ClassId, kind: CallKind, member: &MemberRef) -> bool
    requires class { c.0 < length hier.now }
    requires thread { thread.now ≡ codes "java/lang/Thread" }
    ensures { IsTrue result ↔ StartsThread hier.now c.0 kind member.now }
{
    member.name.bytes() == b"start".as_slice()
        && member.desc.bytes() == b"()V".as_slice()
        && tries_thread(hier, thread, &member.class)
        && calls_library(hier, c, kind, member)
}

/// Whether the look-up of a call in a class ends in the library, before a receiver decides.
fn calls_library(hier: &Hier, c: ClassId, kind: CallKind, member: &MemberRef) -> bool
    requires { c.0 < length hier.now }
    ensures { IsTrue result ↔ LooksUp hier.now c.0 member.now kind Library }
{
    law_one_answer();
    is_library(look_up(hier, c, kind, member))
}

/// Whether a look-up ends in the library.
fn is_library(at: MethodAt) -> bool
    ensures { IsTrue result ↔ (at ≡ Library) }
{
    at == MethodAt::Library
}

/// Whether no program class has the method that is looked up from the class of a name on.
pub(crate) fn finds_nothing(hier: &Hier, class: &Name, name: &Name, desc: &Name) -> bool
    ensures { IsTrue result ↔ FindsFrom hier.now class.now name.now desc.now Library }
{
    law_one_answer();
    find_from(hier, class, name, desc) == MethodAt::Library
}

/// Refuses a call of reflection, and then one that starts a thread.
pub(crate) fn check_call(
    alloc: Global,
    hier: &Hier,
    c: ClassId,
    kind: CallKind,
    member: &MemberRef,
) -> Result<(), OpFault>
    requires { c.0 < length hier.now }
    ensures no_reflection { OnOk result (is_reflective member.now ≡ false) }
    ensures no_thread { OnOk result (StartsThread hier.now c.0 kind member.now → ⊥) }
    ensures refused { IfErr result (UnlessMemory (RefusesCall hier.now c.0 kind member.now)) }
{
    if is_reflective(member) {
        return Err(OpFault::Reflection);
    }
    let thread = Name::of(alloc, b"java/lang/Thread")?;
    if starts_thread(hier, &thread, c, kind, member) {
        return Err(OpFault::ThreadStart);
    }
    Ok(())
}
