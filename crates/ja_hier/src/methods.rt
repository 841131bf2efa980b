ghost use Rattle.std.specs.Prelude.{◌≡◌, ℕ, ◌<◌, ◌↔◌, false, Some, None, length, slice_get, sum_by, take, IsTrue, IfSome, IfNone};
ghost use Rattle.ja_hier.specs.declared.starts.Member.TheVariants.{Method};
ghost use Rattle.ja_hier.specs.Members.{count_of};
ghost use Rattle.ja_base.specs.Index.{numbers_at};
ghost use Rattle.ja_hier.specs.declared.skip.Skip.TheVariants.{NoDefault};
ghost use Rattle.ja_hier.specs.InnerIndex.{first_place, is_method, Covers, Inherits, IsLowest, IsIndexed, IsSomeCandidate, IsSomePlace, IsOverridden, Overrides, IsSomeLeft, IsOtherLeft, IsLeftNumber};
ghost use Rattle.ja_supertypes.specs.Supertypes.{IsSuperclass};
ghost use Rattle.ja_hier.specs.LookUps.{method_in, method_number, answer_at, ClassSearch, FindsDefault, Finds};

use crate::above::{fewer, is_below};
use crate::flags::skips;
use crate::skip::Skip;
use crate::tables::Tables;
use ja_base::{MethodId, Name};
use ja_ir::{HeadMethods, MethodAt, is_abstract};

/// Whether there is a method of this descriptor at a place, which the look-up does not pass over.
fn is_method_at(methods: &HeadMethods, skip: Skip, desc: &Name, place: u64) -> bool
    ensures { result ≡ is_method skip desc.now (slice_get methods.now place) }
{
    if place >= methods.len() {
        return false;
    }
    let method = methods.at(place);
    method.desc == *desc && !skips(skip, method.flags)
}

/// The first of the places at which there is a method of this descriptor that the look-up does not pass
/// over.
fn first_method(methods: &HeadMethods, places: &[u64], skip: Skip, desc: &Name) -> Option<usize>
    ensures { result ≡ first_place (is_method skip desc.now) methods.now places.now }
{
    for place in places {
        if is_method_at(methods, skip, desc, *place) {
            return Some(*place as usize);
        }
    }
    None
}

/// The place of the first method of this name and descriptor that a class itself declares and the
/// look-up does not pass over.
fn method_in(tables: &Tables, skip: Skip, class: u32, name: &Name, desc: &Name) -> Option<usize>
    requires indexed { IsIndexed tables.now }
    requires inside { class < length tables.now.classes }
    ensures { result ≡ method_in tables.now.classes skip name.now desc.now class }
{
    let methods = &tables.classes.heads().at(class as u64).methods;
    let places = tables.methods.places.at(class as u64).at(name);
    first_method(methods, places, skip, desc)
}

/// The number of the methods that the classes before one declare.
pub(crate) fn first_of(tables: &Tables, class: u32) -> u64
    requires indexed { IsIndexed tables.now }
    requires inside { class < length tables.now.classes }
    ensures { result ≡ sum_by (count_of Method) (take class tables.now.classes) }
{
    *tables.method_starts.at(class as u64)
}

/// The number of a method that a class declares at a place.
fn method_number(
    tables: &Tables,
    skip: Skip,
    class: u32,
    place: usize,
    name: &Name,
    desc: &Name,
) -> MethodId
    requires indexed { IsIndexed tables.now }
    requires inside { class < length tables.now.classes }
    requires declared { method_in tables.now.classes skip name.now desc.now class ≡ Some place }
    ensures { result ≡ record { 0 = method_number tables.now.classes class place } }
{
    MethodId((tables.method_starts.at(class as u64) + place as u64) as u32)
}

/// A method that a class declares at a place, as an answer.
fn answer(
    tables: &Tables,
    skip: Skip,
    class: u32,
    place: usize,
    name: &Name,
    desc: &Name,
) -> MethodAt
    requires indexed { IsIndexed tables.now }
    requires inside { class < length tables.now.classes }
    requires declared { method_in tables.now.classes skip name.now desc.now class ≡ Some place }
    ensures { result ≡ answer_at tables.now.classes class place }
{
    let number = method_number(tables, skip, class, place, name, desc);
    let methods = tables.classes.heads().at(class as u64).methods.as_slice();
    if is_abstract(methods[place].flags) {
        MethodAt::Abstract(number)
    } else {
        MethodAt::Program(number)
    }
}

/// Whether another class is a superclass of a class and declares the method.
fn inherits(tables: &Tables, skip: Skip, class: u32, other: u32, name: &Name, desc: &Name) -> bool
    requires indexed { IsIndexed tables.now }
    requires inside { class < length tables.now.classes }
    requires other_inside { other < length tables.now.classes }
    ensures { IsTrue result ↔ Inherits tables.now.classes skip name.now desc.now class other }
{
    tables.classes.is_superclass(class, other)
        && method_in(tables, skip, other, name, desc).is_some()
}

/// The nearest superclass of a class that declares the method, among listed classes.
fn nearest(
    tables: &Tables,
    skip: Skip,
    class: u32,
    name: &Name,
    desc: &Name,
    listed: &[u64],
) -> Option<u32>
    requires indexed { IsIndexed tables.now }
    requires inside { class < length tables.now.classes }
    requires covers { Covers tables.now.classes class (numbers_at tables.now.methods.classes name.now) listed.now }
    ensures some { IfSome result (IsLowest (Inherits tables.now.classes skip name.now desc.now class) (IsSuperclass tables.now.classes)) }
    ensures none { IfNone result ((d : ℕ) → Inherits tables.now.classes skip name.now desc.now class d → ⊥) }
{
    let mut nearest = None;
    for other in listed {
        let other = *other as u32;
        if is_below(&tables.classes, other, nearest)
            && inherits(tables, skip, class, other, name, desc)
        {
            nearest = Some(other);
        }
    }
    nearest
}

/// Where the search for a method in a class and its program superclasses upwards ends.
fn class_search(
    tables: &Tables,
    skip: Skip,
    class: u32,
    name: &Name,
    desc: &Name,
    listed: &[u64],
) -> Option<MethodAt>
    requires indexed { IsIndexed tables.now }
    requires inside { class < length tables.now.classes }
    requires covers { Covers tables.now.classes class (numbers_at tables.now.methods.classes name.now) listed.now }
    ensures { ClassSearch tables.now.classes skip name.now desc.now class result }
{
    if let Some(place) = method_in(tables, skip, class, name, desc) {
        return Some(answer(tables, skip, class, place, name, desc));
    }
    let Some(above) = nearest(tables, skip, class, name, desc, listed) else {
        return None;
    };
    match method_in(tables, skip, above, name, desc) {
        // The nearest superclass declares it.
        None => None,
        Some(place) => Some(answer(tables, skip, above, place, name, desc)),
    }
}

/// Whether an interface declares a method with code.
fn declares(tables: &Tables, interface: u32, name: &Name, desc: &Name) -> bool
    requires indexed { IsIndexed tables.now }
    requires inside { interface < length tables.now.classes }
    ensures { IsTrue result ↔ IsSomePlace (method_in tables.now.classes NoDefault name.now desc.now interface) }
{
    method_in(tables, Skip::NoDefault, interface, name, desc).is_some()
}

/// Whether a class may inherit a method with code of this interface.
fn is_candidate(tables: &Tables, class: u32, interface: u32, name: &Name, desc: &Name) -> bool
    requires indexed { IsIndexed tables.now }
    requires inside { class < length tables.now.classes }
    requires interface_inside { interface < length tables.now.classes }
    ensures { IsTrue result ↔ IsSomeCandidate tables.now.classes name.now desc.now class interface }
{
    tables.classes.is_superinterface(class, interface) && declares(tables, interface, name, desc)
}

/// Whether the class may inherit a method with code of the other interface, which is a subinterface of
/// this one.
fn overrides(
    tables: &Tables,
    class: u32,
    other: u32,
    interface: u32,
    name: &Name,
    desc: &Name,
) -> bool
    requires indexed { IsIndexed tables.now }
    requires inside { class < length tables.now.classes }
    requires other_inside { other < length tables.now.classes }
    requires interface_inside { interface < length tables.now.classes }
    ensures { IsTrue result ↔ Overrides tables.now.classes name.now desc.now class other interface }
{
    is_candidate(tables, class, other, name, desc)
        && tables.classes.is_superinterface(other, interface)
}

/// Whether another method that the class inherits comes from a subinterface of this interface.
fn is_overridden(
    tables: &Tables,
    class: u32,
    interface: u32,
    name: &Name,
    desc: &Name,
    listed: &[u64],
) -> bool
    requires indexed { IsIndexed tables.now }
    requires inside { class < length tables.now.classes }
    requires interface_inside { interface < length tables.now.classes }
    requires covers { Covers tables.now.classes class (numbers_at tables.now.methods.classes name.now) listed.now }
    ensures { IsTrue result ↔ IsOverridden tables.now.classes name.now desc.now class interface }
{
    for other in listed {
        if overrides(tables, class, *other as u32, interface, name, desc) {
            return true;
        }
    }
    false
}

/// Whether the class inherits a method with code of this superinterface, which no subinterface of it
/// overrides.
fn is_left(
    tables: &Tables,
    class: u32,
    interface: u32,
    name: &Name,
    desc: &Name,
    listed: &[u64],
) -> bool
    requires indexed { IsIndexed tables.now }
    requires inside { class < length tables.now.classes }
    requires interface_inside { interface < length tables.now.classes }
    requires covers { Covers tables.now.classes class (numbers_at tables.now.methods.classes name.now) listed.now }
    ensures { IsTrue result ↔ IsSomeLeft tables.now.classes name.now desc.now class interface }
{
    is_candidate(tables, class, interface, name, desc)
        && !is_overridden(tables, class, interface, name, desc, listed)
}

/// The first interface of which a method is left.
fn first_left(tables: &Tables, class: u32, name: &Name, desc: &Name, listed: &[u64]) -> Option<u32>
    requires indexed { IsIndexed tables.now }
    requires inside { class < length tables.now.classes }
    requires covers { Covers tables.now.classes class (numbers_at tables.now.methods.classes name.now) listed.now }
    ensures some { IfSome result (IsSomeLeft tables.now.classes name.now desc.now class) }
    ensures none { IfNone result ((i : ℕ) → IsSomeLeft tables.now.classes name.now desc.now class i → ⊥) }
{
    for interface in listed {
        if is_left(tables, class, *interface as u32, name, desc, listed) {
            return Some(*interface as u32);
        }
    }
    None
}

/// Whether a method of another interface than this one is left, which is the other one.
fn is_other_left(
    tables: &Tables,
    class: u32,
    interface: u32,
    other: u32,
    name: &Name,
    desc: &Name,
    listed: &[u64],
) -> bool
    requires indexed { IsIndexed tables.now }
    requires inside { class < length tables.now.classes }
    requires other_inside { other < length tables.now.classes }
    requires covers { Covers tables.now.classes class (numbers_at tables.now.methods.classes name.now) listed.now }
    ensures left { IsTrue result → IsSomeLeft tables.now.classes name.now desc.now class other }
    ensures apart { IsTrue result → interface ≡ other → ⊥ }
    ensures same { result ≡ false → IsSomeLeft tables.now.classes name.now desc.now class other → other ≡ interface }
{
    if other == interface {
        return false;
    }
    is_left(tables, class, other, name, desc, listed)
}

/// Whether a method of no other interface is left.
fn is_alone(
    tables: &Tables,
    class: u32,
    interface: u32,
    name: &Name,
    desc: &Name,
    listed: &[u64],
) -> bool
    requires indexed { IsIndexed tables.now }
    requires inside { class < length tables.now.classes }
    requires covers { Covers tables.now.classes class (numbers_at tables.now.methods.classes name.now) listed.now }
    ensures alone { IsTrue result → (i : ℕ) → IsSomeLeft tables.now.classes name.now desc.now class i → i ≡ interface }
    ensures others { result ≡ false → IsOtherLeft tables.now.classes name.now desc.now class interface }
{
    for other in listed {
        if is_other_left(tables, class, interface, *other as u32, name, desc, listed) {
            return false;
        }
    }
    true
}

/// The one method with code that the class inherits from its superinterfaces, where exactly one is left.
fn default_method(
    tables: &Tables,
    class: u32,
    name: &Name,
    desc: &Name,
    listed: &[u64],
) -> Option<MethodId>
    requires indexed { IsIndexed tables.now }
    requires inside { class < length tables.now.classes }
    requires covers { Covers tables.now.classes class (numbers_at tables.now.methods.classes name.now) listed.now }
    ensures some { IfSome result (λ m. FindsDefault tables.now.classes name.now desc.now class (Some m.0)) }
    ensures none { IfNone result (FindsDefault tables.now.classes name.now desc.now class None) }
{
    let Some(interface) = first_left(tables, class, name, desc, listed) else {
        return None;
    };
    if is_alone(tables, class, interface, name, desc, listed) {
        left_method(tables, class, interface, name, desc)
    } else {
        None
    }
}

/// The method that is left of an interface.
fn left_method(
    tables: &Tables,
    class: u32,
    interface: u32,
    name: &Name,
    desc: &Name,
) -> Option<MethodId>
    requires indexed { IsIndexed tables.now }
    requires left { IsSomeLeft tables.now.classes name.now desc.now class interface }
    ensures some { IfSome result (λ m. IsLeftNumber tables.now.classes name.now desc.now interface m.0) }
    ensures none { IfNone result ⊥ }
{
    let skip = Skip::NoDefault;
    match method_in(tables, skip, interface, name, desc) {
        None => None,
        Some(place) => Some(method_number(tables, skip, interface, place, name, desc)),
    }
}

/// Where the look-up of a method that is named in a class ends.
pub fn find(tables: &Tables, skip: Skip, class: u32, name: &Name, desc: &Name) -> MethodAt
    requires indexed { IsIndexed tables.now }
    requires inside { class < length tables.now.classes }
    ensures { Finds tables.now.classes skip name.now desc.now class result }
{
    let declaring = tables.methods.classes.at(name);
    if declaring.is_empty() {
        return MethodAt::Library;
    }
    let listed = fewer(&tables.classes, class, declaring);
    match class_search(tables, skip, class, name, desc, listed) {
        Some(found) => found,
        None => match default_method(tables, class, name, desc, listed) {
            Some(method) => MethodAt::Program(method),
            None => MethodAt::Library,
        },
    }
}
