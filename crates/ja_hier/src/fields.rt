ghost use Rattle.std.specs.Prelude.{◌≡◌, ℕ, ◌<◌, ◌↔◌, ◌+◌, [], ◌∷◌, Some, None, length, slice_get, IsTrue, IfSome, IfNone};
ghost use Rattle.ja_base.specs.Index.{numbers_at};
ghost use Rattle.ja_hier.specs.InnerIndex.{first_place, is_field, Covers, DeclaresFor, IsBetween, IsIndexed, IsLowest, IsNowhereOn, IsStraight, LeadsOn, Meets};
ghost use Rattle.ja_supertypes.specs.Supertypes.{IsSupertype};
ghost use Rattle.ja_hier.specs.LookUps.{field_in, field_number, FieldSearch, FindsField};
ghost use Rattle.ja_hier.specs.InnerIndex.{IsDeclaredAbove};

use crate::FieldAt;
use crate::above::{fewer, has_above};
use crate::hier::is_at_or_above;
use crate::tables::Tables;
use ja_base::{FieldId, Name};
use ja_ir::HeadFields;
use ja_supertypes::Classes;

/// Whether there is a field of this descriptor at a place.
fn is_field_at(fields: &HeadFields, desc: &Name, place: u64) -> bool
    ensures { result ≡ is_field desc.now (slice_get fields.now place) }
{
    if place >= fields.len() {
        return false;
    }
    fields.at(place).desc == *desc
}

/// The first of the places at which there is a field of this descriptor.
fn first_field(fields: &HeadFields, places: &[u64], desc: &Name) -> Option<usize>
    ensures { result ≡ first_place (is_field desc.now) fields.now places.now }
{
    for place in places {
        if is_field_at(fields, desc, *place) {
            return Some(*place as usize);
        }
    }
    None
}

/// The place of the first field of this name and descriptor that a class itself declares.
fn field_in(tables: &Tables, class: u32, name: &Name, desc: &Name) -> Option<usize>
    requires indexed { IsIndexed tables.now }
    requires inside { class < length tables.now.classes }
    ensures { result ≡ field_in tables.now.classes name.now desc.now class }
{
    let fields = &tables.classes.heads().at(class as u64).fields;
    let places = tables.fields.places.at(class as u64).at(name);
    first_field(fields, places, desc)
}

/// The number of a field that a class declares at a place.
fn field_number(tables: &Tables, class: u32, place: usize, name: &Name, desc: &Name) -> FieldId
    requires indexed { IsIndexed tables.now }
    requires inside { class < length tables.now.classes }
    requires declared { field_in tables.now.classes name.now desc.now class ≡ Some place }
    ensures { result ≡ record { 0 = field_number tables.now.classes class place } }
{
    FieldId((tables.field_starts.at(class as u64) + place as u64) as u32)
}

/// Whether another class is a class or above it, and declares the field.
fn declares_for(tables: &Tables, class: u32, other: u32, name: &Name, desc: &Name) -> bool
    requires indexed { IsIndexed tables.now }
    requires inside { class < length tables.now.classes }
    requires other_inside { other < length tables.now.classes }
    ensures { IsTrue result ↔ DeclaresFor tables.now.classes name.now desc.now class other }
{
    is_at_or_above(&tables.classes, class, other) && field_in(tables, other, name, desc).is_some()
}

/// Whether a class at or above this one declares the field.
fn is_declared_above(tables: &Tables, class: u32, name: &Name, desc: &Name, listed: &[u64]) -> bool
    requires indexed { IsIndexed tables.now }
    requires inside { class < length tables.now.classes }
    requires covers { Covers tables.now.classes class (numbers_at tables.now.fields.classes name.now) listed.now }
    ensures { IsTrue result ↔ IsDeclaredAbove tables.now.classes name.now desc.now class }
{
    if field_in(tables, class, name, desc).is_some() {
        return true;
    }
    for other in listed {
        if declares_for(tables, class, *other as u32, name, desc) {
            return true;
        }
    }
    false
}

/// The first direct supertype of a class at or above which the field is declared.
fn next_above(tables: &Tables, class: u32, name: &Name, desc: &Name, listed: &[u64]) -> Option<u32>
    requires indexed { IsIndexed tables.now }
    requires inside { class < length tables.now.classes }
    requires covers { Covers tables.now.classes class (numbers_at tables.now.fields.classes name.now) listed.now }
    requires elsewhere { field_in tables.now.classes name.now desc.now class ≡ None }
    ensures some { IfSome result (λ next. LeadsOn tables.now.classes name.now desc.now class next) }
    ensures none { IfNone result (IsDeclaredAbove tables.now.classes name.now desc.now class → ⊥) }
{
    let supertypes = tables.classes.direct_supertypes(class).as_slice();
    for next in supertypes {
        if is_declared_above(tables, *next as u32, name, desc, listed) {
            return Some(*next as u32);
        }
    }
    None
}

/// Whether another class is a proper supertype of a class, and a third one is at or above it.
fn is_between(classes: &Classes, class: u32, fork: u32, other: u32) -> bool
    requires inside { class < length classes.now }
    requires fork_inside { fork < length classes.now }
    requires other_inside { other < length classes.now }
    ensures { IsTrue result ↔ IsBetween classes.now class fork other }
{
    classes.is_supertype(class, other) && is_at_or_above(classes, other, fork)
}

/// Whether another class lies between two classes and declares the field.
fn meets(tables: &Tables, class: u32, fork: u32, other: u32, name: &Name, desc: &Name) -> bool
    requires indexed { IsIndexed tables.now }
    requires inside { class < length tables.now.classes }
    requires fork_inside { fork < length tables.now.classes }
    requires other_inside { other < length tables.now.classes }
    ensures { IsTrue result ↔ Meets tables.now.classes name.now desc.now class fork other }
{
    is_between(&tables.classes, class, fork, other) && field_in(tables, other, name, desc).is_some()
}

/// The lowest class above this one that declares the field, on a way up without a choice.
fn lowest_above(
    tables: &Tables,
    class: u32,
    fork: u32,
    name: &Name,
    desc: &Name,
    listed: &[u64],
) -> Option<u32>
    requires indexed { IsIndexed tables.now }
    requires inside { class < length tables.now.classes }
    requires straight { IsStraight tables.now.classes class fork }
    requires covers { Covers tables.now.classes class (numbers_at tables.now.fields.classes name.now) listed.now }
    ensures some { IfSome result (IsLowest (Meets tables.now.classes name.now desc.now class fork) (IsSupertype tables.now.classes)) }
    ensures none { IfNone result ((e : ℕ) → Meets tables.now.classes name.now desc.now class fork e → ⊥) }
{
    let mut lowest = None;
    for other in listed {
        let other = *other as u32;
        if has_above(&tables.classes, other, lowest)
            && meets(tables, class, fork, other, name, desc)
        {
            lowest = Some(other);
        }
    }
    lowest
}

/// The field that the search finds on a way up without a choice.
fn straight_field(
    tables: &Tables,
    class: u32,
    fork: u32,
    name: &Name,
    desc: &Name,
    listed: &[u64],
) -> Option<FieldId>
    requires indexed { IsIndexed tables.now }
    requires inside { class < length tables.now.classes }
    requires straight { IsStraight tables.now.classes class fork }
    requires covers { Covers tables.now.classes class (numbers_at tables.now.fields.classes name.now) listed.now }
    ensures some { IfSome result (λ f. FieldSearch tables.now.classes name.now desc.now (class ∷ []) (Some f.0)) }
    ensures none { IfNone result (IsNowhereOn tables.now.classes name.now desc.now class fork) }
{
    if let Some(place) = field_in(tables, class, name, desc) {
        return Some(field_number(tables, class, place, name, desc));
    }
    let Some(lowest) = lowest_above(tables, class, fork, name, desc, listed) else {
        return None;
    };
    match field_in(tables, lowest, name, desc) {
        // The lowest class declares it.
        None => None,
        Some(place) => Some(field_number(tables, lowest, place, name, desc)),
    }
}

/// The class at which the way up from a class forks or ends.
fn fork_at(tables: &Tables, class: u32) -> u32
    requires indexed { IsIndexed tables.now }
    requires inside { class < length tables.now.classes }
    ensures straight { IsStraight tables.now.classes class result }
    ensures inside { result < length tables.now.classes }
{
    *tables.forks.at(class as u64) as u32
}

/// Where the look-up of a field that is named in a class ends.
pub fn find_field(tables: &Tables, class: u32, name: &Name, desc: &Name) -> FieldAt
    requires indexed { IsIndexed tables.now }
    requires inside { class < length tables.now.classes }
    ensures { FindsField tables.now.classes name.now desc.now class result }
{
    let declaring = tables.fields.classes.at(name);
    let listed = fewer(&tables.classes, class, declaring);
    if is_declared_above(tables, class, name, desc, listed) {
        return FieldAt::Program(declared_field(tables, class, name, desc, listed));
    }
    if tables.classes.has_library_supertype(class) {
        FieldAt::Library
    } else {
        FieldAt::Missing
    }
}

/// The field that the look-up finds where some class at or above this one declares it: the search goes
/// from one class at which the way up forks to the next.
fn declared_field(tables: &Tables, class: u32, name: &Name, desc: &Name, listed: &[u64]) -> FieldId
    requires indexed { IsIndexed tables.now }
    requires inside { class < length tables.now.classes }
    requires covers { Covers tables.now.classes class (numbers_at tables.now.fields.classes name.now) listed.now }
    requires declared { IsDeclaredAbove tables.now.classes name.now desc.now class }
    ensures { FieldSearch tables.now.classes name.now desc.now (class ∷ []) (Some result.0) }
{
    let mut at = class;
    loop {
        let fork = fork_at(tables, at);
        if let Some(field) = straight_field(tables, at, fork, name, desc, listed) {
            return field;
        }
        let Some(next) = next_above(tables, fork, name, desc, listed) else {
            // Some class above declares it, so the way up does not end here.
            return FieldId(0);
        };
        at = next;
    }
}
