ghost use Rattle.std.specs.Prelude.{◌≡◌, ◌+◌, ◌<◌, ◌≤◌, ◌^◌, ◌↔◌, ℕ, Some, None, IfNone, IfSome, IsTrue, length, position, slice_get, sum_by, take};
ghost use Rattle.ja_hier.specs.declared.starts.Member.TheVariants.{Method};
ghost use Rattle.ja_hier.specs.Members.{count_of};
ghost use Rattle.ja_heads.specs.Entries as specs;
ghost use Rattle.ja_heads.specs.Entries.{CanBeMade, Enters, EntersOnObject, EntersStatic, HasLibraryType, IsForClass, is_entry_point};
ghost use Rattle.ja_base.specs.Limit.{max_numbered};

use ja_base::{ClassId, MethodId, Name};
use ja_hier::Hier;
use ja_ir::{ClassHead, HeadMethod, MethodAt, is_abstract, is_static};
use ja_lib::EntryRow;

/// The method that a row makes an entry of a class, whose methods are numbered from `first` on.
pub(crate) fn entering(
    hier: &Hier,
    class: ClassId,
    head: &ClassHead,
    first: u32,
    row: &EntryRow,
) -> Option<MethodId>
    requires found { slice_get hier.now class.0 ≡ Some head.now }
    requires first { first ≡ sum_by (count_of Method) (take class.0 hier.now) }
    requires few { first + length head.now.methods ≤ max_numbered }
    ensures some { IfSome result (λ m. Enters hier.now class.0 head.now row.now m.0) }
    ensures none { IfNone result ((m : ℕ) → Enters hier.now class.0 head.now row.now m → ⊥) }
{
    if row.is_static {
        entering_static(hier, class, head, first, row)
    } else {
        entering_on_object(hier, class, head, row)
    }
}

/// The method that a row of static methods makes an entry of a class.
fn entering_static(
    hier: &Hier,
    class: ClassId,
    head: &ClassHead,
    first: u32,
    row: &EntryRow,
) -> Option<MethodId>
    requires first { first ≡ sum_by (count_of Method) (take class.0 hier.now) }
    requires few { first + length head.now.methods ≤ max_numbered }
    ensures some { IfSome result (λ m. EntersStatic hier.now class.0 head.now row.now m.0) }
    ensures none { IfNone result ((m : ℕ) → EntersStatic hier.now class.0 head.now row.now m → ⊥) }
{
    if !is_for_class(row, head) {
        return None;
    }
    match entry_point(head.methods.as_slice(), &row.method, &row.desc) {
        None => None,
        Some(place) => Some(MethodId(first + place as u32)),
    }
}

/// Whether a row is for every class, or for this one.
fn is_for_class(row: &EntryRow, head: &ClassHead) -> bool
    ensures { IsTrue result ↔ IsForClass row.now head.now }
{
    row.class.bytes() == b"*".as_slice() || row.class == head.name
}

/// The place of the first static method of a name and descriptor that has code.
fn entry_point(methods: &[HeadMethod], name: &Name, desc: &Name) -> Option<usize>
    ensures value { result ≡ position (is_entry_point name.now desc.now) methods.now }
    ensures within { IfSome result (λ k. k < length methods.now) }
{
    methods.iter().position(|method| {
        method.name == *name
            && (method.desc == *desc && (is_static(method.flags) && !is_abstract(method.flags)))
    })
}

/// The method that a row of instance methods makes an entry of a class.
fn entering_on_object(
    hier: &Hier,
    class: ClassId,
    head: &ClassHead,
    row: &EntryRow,
) -> Option<MethodId>
    requires found { slice_get hier.now class.0 ≡ Some head.now }
    ensures some { IfSome result (λ m. EntersOnObject hier.now class.0 head.now row.now m.0) }
    ensures none { IfNone result ((m : ℕ) → EntersOnObject hier.now class.0 head.now row.now m → ⊥) }
{
    if !has_library_type(hier, class, &row.class) || !can_be_made(head) {
        return None;
    }
    match hier.select(class, &row.method, &row.desc) {
        MethodAt::Program(method) => Some(method),
        MethodAt::Abstract(_) | MethodAt::Library => None,
    }
}

/// Whether a name is one of the library types of a class.
fn has_library_type(hier: &Hier, class: ClassId, name: &Name) -> bool
    requires { class.0 < length hier.now }
    ensures { IsTrue result ↔ HasLibraryType hier.now class.0 name.now }
{
    hier.library_types(class).as_slice().contains(name)
}

/// Whether a class declares a constructor without parameters that has code.
fn can_be_made(head: &ClassHead) -> bool
    ensures { IsTrue result ↔ CanBeMade head.now }
{
    head.methods.as_slice().iter().any(is_maker)
}

/// Whether a method makes an object ready without arguments, and has code.
fn is_maker(method: &HeadMethod) -> bool
    ensures { result ≡ specs.is_maker method.now }
{
    method.name.bytes() == b"<init>".as_slice()
        && (method.desc.bytes() == b"()V".as_slice()
            && (!is_static(method.flags) && !is_abstract(method.flags)))
}
