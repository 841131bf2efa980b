ghost use Rattle.std.specs.Prelude.{◌≡◌, ◌<◌, ◌↔◌, length, IsTrue, Some};
ghost use Rattle.ja_base.specs.AccessFlags.{acc_super};
ghost use Rattle.ja_ir.specs.Lookup.{has_flag};
ghost use Rattle.ja_supertypes.specs.LibraryTypes.{IsNearest};
ghost use Rattle.ja_operations.specs.Targets.{FindsFrom, IsProperSuperclass, GoesAbove, BeginsAt, FindsSpecial, LooksUp, IsFound};

use crate::MemberRef;
use ja_base::access_flags::SUPER;
use ja_base::{ClassId, Name};
use ja_hier::Hier;
use ja_ir::{CallKind, MethodAt};
use ja_supertypes::law_one_list;

/// Where the look-up of a method ends that begins at the class of a name.
pub(crate) fn find_from(hier: &Hier, class: &Name, name: &Name, desc: &Name) -> MethodAt
    ensures { FindsFrom hier.now class.now name.now desc.now result }
{
    match hier.class_named(class) {
        Some(class) => hier.find_method(class, name, desc),
        None => MethodAt::Library,
    }
}

/// Whether a library class is the nearest library superclass of a class.
fn is_nearest(hier: &Hier, c: ClassId, name: &Name) -> bool
    requires { c.0 < length hier.now }
    ensures { IsTrue result ↔ IsNearest hier.now c.0 name.now }
{
    law_one_list();
    match hier.library_superclass(c) {
        Some(nearest) => *nearest == *name,
        None => false,
    }
}

/// Whether a name is that of a proper superclass of a class.
fn is_proper_superclass(hier: &Hier, c: ClassId, name: &Name) -> bool
    requires { c.0 < length hier.now }
    ensures { IsTrue result ↔ IsProperSuperclass hier.now c.0 name.now }
{
    if name.bytes() == b"java/lang/Object".as_slice() {
        return true;
    }
    match hier.class_named(name) {
        Some(class) => hier.is_superclass(c, class),
        None => is_nearest(hier, c, name),
    }
}

/// Whether the class has the flag ACC_SUPER (JVM specification table 4.1-A).
fn has_super_flag(flags: u32) -> bool
    ensures { result ≡ has_flag flags acc_super }
{
    flags & u32::from(SUPER) != 0
}

/// Whether a special call in a class begins above it, as far as its direct superclass is not asked.
fn goes_above(hier: &Hier, c: ClassId, member: &MemberRef) -> bool
    requires { c.0 < length hier.now }
    ensures { IsTrue result ↔ GoesAbove hier.now c.0 member.now }
{
    if member.name.bytes() == b"<init>".as_slice() {
        return false;
    }
    if !has_super_flag(hier.heads().at(u64::from(c.0)).flags) {
        return false;
    }
    is_proper_superclass(hier, c, &member.class)
}

/// The class at which the look-up of a special call in a class begins.
fn beginning<'a>(hier: &'a Hier, c: ClassId, member: &'a MemberRef) -> &'a Name
    requires { c.0 < length hier.now }
    ensures { BeginsAt hier.now c.0 member.now result.now }
{
    if !goes_above(hier, c, member) {
        return &member.class;
    }
    match &hier.heads().at(u64::from(c.0)).superclass {
        Some(class) => class,
        None => &member.class,
    }
}

/// Where the look-up of a special call in a class ends.
fn find_special(hier: &Hier, c: ClassId, member: &MemberRef) -> MethodAt
    requires { c.0 < length hier.now }
    ensures { FindsSpecial hier.now c.0 member.now (Some result) }
{
    let class = beginning(hier, c, member);
    find_from(hier, class, &member.name, &member.desc)
}

/// Where the look-up of a call in a class ends, before a receiver decides.
pub(crate) fn look_up(hier: &Hier, c: ClassId, kind: CallKind, member: &MemberRef) -> MethodAt
    requires { c.0 < length hier.now }
    ensures { LooksUp hier.now c.0 member.now kind result }
{
    match kind {
        CallKind::Special => find_special(hier, c, member),
        _ => find_from(hier, &member.class, &member.name, &member.desc),
    }
}

/// What a call in a class finds before it is made.
pub(crate) fn found_by(
    hier: &Hier,
    c: ClassId,
    kind: CallKind,
    member: &MemberRef,
) -> Option<MethodAt>
    requires { c.0 < length hier.now }
    ensures { IsFound hier.now c.0 member.now kind result }
{
    match kind {
        CallKind::Static => Some(find_from(hier, &member.class, &member.name, &member.desc)),
        CallKind::Special => Some(find_special(hier, c, member)),
        _ => None,
    }
}
