ghost use Rattle.std.specs.Prelude.{◌≡◌, ◌<◌, ◌↔◌, Bool, List, ℕ, IfOk, IsTrue, OnOk, length, true};
ghost use Rattle.std.specs.List.{list_any};
ghost use Rattle.ja_machine.specs.Marks as marks;
ghost use Rattle.ja_machine.specs.Reach as reach;
ghost use Rattle.ja_machine.specs.Reach.{IsClosed, IsInside, IsTainted, Reaches};
ghost use Rattle.ja_machine.specs.InnerSearch as search;
ghost use Rattle.ja_machine.specs.InnerSearch.{meets_fields, meets_object, meets_place, meets_places, meets_value};
ghost use Rattle.ja_base.specs.Limit.{max_categories};

use crate::{FieldValue, Heap, Object, Value};
use ja_base::Memory;
use std::alloc::Global;

/// Whether the object at `b` is reached from the object at `a` by no or more links through fields and
/// bags. The time is linear in the heap's size.
pub fn reaches(alloc: Global, h: &Heap, a: u64, b: u64) -> Result<bool, Memory>
    requires closed { IsClosed h.now }
    requires from { a < length h.now }
    requires to { b < length h.now }
    ensures { IfOk result (λ answer. IsTrue answer ↔ Reaches h.now a b) }
{
    let seen = reached(alloc, h, a)?;
    Ok(seen[b as usize])
}

/// Whether a value is tainted in category `c`: it is a primitive with a mark of the category, or a
/// reference from which an object is reached that has one, or has such a primitive in a field. The time
/// is linear in the heap's size.
pub fn tainted(alloc: Global, h: &Heap, v: &Value, c: u32) -> Result<bool, Memory>
    requires closed { IsClosed h.now }
    requires inside { IsInside h.now v.now }
    requires category { c < max_categories }
    ensures { IfOk result (λ answer. IsTrue answer ↔ IsTainted c h.now v.now) }
{
    match v {
        Value::Prim(mark) => Ok(has(*mark, c)),
        Value::Null => Ok(false),
        Value::Ref(place) => {
            let seen = reached(alloc, h, *place)?;
            Ok(is_any_marked(h.as_slice(), seen.as_slice(), c))
        }
    }
}

/// Whether some object has a mark of category `c` whose flag is set.
fn is_any_marked(objects: &[Object], flags: &[bool], c: u32) -> bool
    requires { c < max_categories }
    ensures { result ≡ search.is_any_marked c objects.now flags.now }
{
    objects
        .iter()
        .zip(flags)
        .any(|(object, flag)| *flag && is_marked(object, c))
}

/// Whether an object has a mark of category `c`, or a primitive with one in a field.
fn is_marked(object: &Object, c: u32) -> bool
    requires { c < max_categories }
    ensures { result ≡ reach.is_marked c object.now }
{
    let in_field = has_marked_field(object.fields.as_slice(), c);
    has(object.mark, c) || in_field
}

/// Whether one of the fields has a primitive with a mark of category `c`.
fn has_marked_field(fields: &[FieldValue], c: u32) -> bool
    requires { c < max_categories }
    ensures { result ≡ list_any (λ field. marks.has (reach.mark_of field.value) c) fields.now }
{
    fields.iter().any(|field| has(mark_of(&field.value), c))
}

/// The marks of a primitive value.
fn mark_of(value: &Value) -> u8
    ensures { result ≡ reach.mark_of value.now }
{
    match value {
        Value::Prim(mark) => *mark,
        Value::Null | Value::Ref(_) => 0,
    }
}

/// Whether category `c` is among these marks.
fn has(mark: u8, c: u32) -> bool
    requires { c < max_categories }
    ensures { result ≡ marks.has mark c }
{
    (mark >> c) & 1 == 1
}

/// For each object whether it is reached from the one at this place.
fn reached(alloc: Global, h: &Heap, place: u64) -> Result<Vec<bool>, Memory>
    requires closed { IsClosed h.now }
    requires inside { place < length h.now }
    ensures size { IfOk result (λ flags. length flags.items ≡ length h.now) }
    ensures exact { IfOk result (λ flags. search.Tells h.now place flags.items) }
{
    let mut search = Search::begin(alloc, h.len(), place)?;
    while let Some(next) = search.work.pop() {
        search.meet_object(h.at(next))?;
    }
    let Search { flags, work: _ } = search;
    Ok(flags)
}

/// A search through a heap.
#[derive(Drop)]
struct Search {
    /// For each object whether it was seen.
    flags: Vec<bool>,
    /// The places of objects that were seen and are still to be looked at.
    work: Vec<u64>,
}

impl Search {
    ghost use Rattle.ja_machine.specs.InnerSeen.{seen_by};

    /// A search in a heap of `size` objects that has met one place.
    fn begin(alloc: Global, size: u64, place: u64) -> Result<Search, Memory>
        ensures { IfOk result (λ it. seen_by it ≡ search.begun size place) }
    {
        let flags = Vec::from_elem(alloc, false, size as usize)?;
        let mut search = Search {
            flags,
            work: Vec::new(alloc),
        };
        search.meet(place)?;
        Ok(search)
    }

    /// Meets a place.
    fn meet(&mut self, place: u64) -> Result<(), Memory>
        ensures { OnOk result (seen_by self.new ≡ meets_place place (seen_by self.old)) }
    {
        let index = place as usize;
        if index < self.flags.len() && !self.flags[index] {
            self.work.push(place)?;
            self.flags[index] = true;
        }
        Ok(())
    }

    /// Meets the place to which a value refers.
    fn meet_value(&mut self, value: &Value) -> Result<(), Memory>
        ensures { OnOk result (seen_by self.new ≡ meets_value value.now (seen_by self.old)) }
    {
        match value {
            Value::Ref(place) => self.meet(*place),
            Value::Prim(_) | Value::Null => Ok(()),
        }
    }

    /// Meets the places to which fields refer.
    fn meet_fields(&mut self, fields: &[FieldValue]) -> Result<(), Memory>
        ensures { OnOk result (seen_by self.new ≡ meets_fields fields.now (seen_by self.old)) }
    {
        for field in fields {
            self.meet_value(&field.value)?;
        }
        Ok(())
    }

    /// Meets places.
    fn meet_places(&mut self, places: &[u64]) -> Result<(), Memory>
        ensures { OnOk result (seen_by self.new ≡ meets_places places.now (seen_by self.old)) }
    {
        for place in places {
            self.meet(*place)?;
        }
        Ok(())
    }

    /// Looks at an object: meets the places to which its links lead.
    fn meet_object(&mut self, object: &Object) -> Result<(), Memory>
        ensures { OnOk result (seen_by self.new ≡ meets_object object.now (seen_by self.old)) }
    {
        self.meet_fields(object.fields.as_slice())?;
        self.meet_places(object.bag.as_slice())
    }
}
