ghost use Rattle.std.specs.Prelude.{◌≡◌, ℕ, ◌<◌, ◌↔◌, Some, codes, is_some, length, map, slice_get, IsTrue, IfErr, IfSome, IfNone, OnOk};
ghost use Rattle.ja_ir.specs.declared.head.HeadMethod.{HeadMethod};
ghost use Rattle.ja_hier.specs.declared.starts.Member.TheVariants.{Method};
ghost use Rattle.ja_supertypes.specs.Faults.{IsFirst, IsNowhere};
ghost use Rattle.ja_hier.specs.Faults.{IsFault, IsCrossing, Hides, Crosses, CrossesPackage};
ghost use Rattle.ja_hier.specs.InnerIndex.{first_place, is_hidden, member_names, HasPlaces, HidesAt, IsHiddenAmong, IsIndexed};

use crate::HierFault;
use crate::above::fewer;
use crate::flags::{is_package_private, is_virtual};
use crate::package::same_package;
use crate::tables::Tables;
use ja_base::{Name, NumbersByName};
use ja_ir::{ClassHead, HeadMethod, HeadMethods};

/// Refuses a method that redeclares a package-private method of a superclass in another package.
pub fn check_packages(tables: &Tables) -> Result<(), HierFault>
    requires { IsIndexed tables.now }
    ensures ok { OnOk result (IsNowhere (IsCrossing tables.now.classes)) }
    ensures err { IfErr result (IsFault tables.now.classes) }
{
    for class in 0..tables.classes.heads().len() {
        if let Some(method) = crossing_method(tables, class as u32) {
            return Err(HierFault::CrossPackage {
                class: class as u32,
                method,
            });
        }
    }
    Ok(())
}

/// The first method of a class that redeclares a package-private method of another package.
fn crossing_method(tables: &Tables, class: u32) -> Option<u32>
    requires indexed { IsIndexed tables.now }
    requires inside { class < length tables.now.classes }
    ensures some { IfSome result (λ k. IsFirst (CrossesPackage tables.now.classes class) k) }
    ensures none { IfNone result ((k : ℕ) → CrossesPackage tables.now.classes class k → ⊥) }
{
    let head = tables.classes.heads().at(class as u64);
    let methods = head.methods.as_slice();
    for k in 0..methods.len() {
        if crosses(tables, class, head, &methods[k]) {
            return Some(k as u32);
        }
    }
    None
}

/// Whether a method of a class redeclares a package-private method of a superclass in another package.
fn crosses(tables: &Tables, class: u32, head: &ClassHead, method: &HeadMethod) -> bool
    requires indexed { IsIndexed tables.now }
    requires found { slice_get tables.now.classes class ≡ Some head.now }
    ensures { IsTrue result ↔ Crosses tables.now.classes class head.now method.now }
{
    if !is_virtual(method.flags) {
        return false;
    }
    if is_constructor(method) {
        return false;
    }
    let declaring = tables.methods.classes.at(&method.name);
    let listed = fewer(&tables.classes, class, declaring);
    for other in listed {
        if hides_at(tables, class, head, method, *other as u32) {
            return true;
        }
    }
    false
}

/// Whether the other class is a superclass that hides a method of a class.
fn hides_at(tables: &Tables, class: u32, head: &ClassHead, method: &HeadMethod, other: u32) -> bool
    requires indexed { IsIndexed tables.now }
    requires inside { class < length tables.now.classes }
    requires other_inside { other < length tables.now.classes }
    ensures { IsTrue result ↔ HidesAt tables.now.classes class head.now method.now other }
{
    tables.classes.is_superclass(class, other)
        && hides(
            head,
            tables.classes.heads().at(other as u64),
            tables.methods.places.at(other as u64),
            method,
        )
}

/// Whether a class in another package, whose methods have these places, declares a package-private method
/// that the method redeclares.
fn hides(head: &ClassHead, above: &ClassHead, places: &NumbersByName, method: &HeadMethod) -> bool
    requires { HasPlaces (member_names Method above.now) places.now }
    ensures { IsTrue result ↔ Hides head.now above.now method.now }
{
    !same_package(&head.name, &above.name)
        && !is_constructor(method)
        && declares_hidden(&above.methods, places, method)
}

/// Whether the method is a constructor (JVM specification 2.9.1).
fn is_constructor(method: &HeadMethod) -> bool
    ensures { IsTrue result ↔ (method.now.name ≡ codes "<init>") }
{
    method.name.bytes() == b"<init>".as_slice()
}

/// Whether one of the methods, which have these places, is package-private and has the name and
/// descriptor.
fn declares_hidden(methods: &HeadMethods, places: &NumbersByName, method: &HeadMethod) -> bool
    requires { HasPlaces (map (λ (hidden : HeadMethod). hidden.name) methods.now) places.now }
    ensures { IsTrue result ↔ IsHiddenAmong methods.now method.now }
{
    has_hidden(methods, places.at(&method.name), &method.desc)
}

/// Whether there is a package-private method of this descriptor at one of the places.
fn has_hidden(methods: &HeadMethods, places: &[u64], desc: &Name) -> bool
    ensures { result ≡ is_some (first_place (is_hidden desc.now) methods.now places.now) }
{
    for place in places {
        if is_hidden_at(methods, desc, *place) {
            return true;
        }
    }
    false
}

/// Whether there is a package-private method of this descriptor at a place.
fn is_hidden_at(methods: &HeadMethods, desc: &Name, place: u64) -> bool
    ensures { result ≡ is_hidden desc.now (slice_get methods.now place) }
{
    if place >= methods.len() {
        return false;
    }
    let method = methods.at(place);
    method.desc == *desc && is_package_private(method.flags)
}
