//! For each name of a member the classes that declare one, and its places in each class.
ghost use Rattle.std.specs.Prelude.{◌≡◌, ◌<◌, ◌∷◌, [], Some, slice_get, Contains, IsTrue, IfOk, OnOk};
ghost use Rattle.ja_hier.specs.InnerIndex.{member_names, ArePlaces, HasPlaces, IsIndexOf, IsNoted};
ghost use Rattle.ja_hier.specs.Members.{count_of};

use crate::starts::{Member, count_of};
use ja_base::{Memory, Name, NumbersByName, Seq};
use ja_ir::ClassHead;
use std::alloc::Global;

/// The name of the member of a kind that a class declares at a place.
fn name_of<'a>(member: Member, head: &'a ClassHead, place: u64) -> &'a Name
    requires { place < count_of member head.now }
    ensures { slice_get (member_names member head.now) place ≡ Some result.now }
{
    match member {
        Member::Field => &head.fields.at(place).name,
        Member::Method => &head.methods.at(place).name,
    }
}

/// The members of a kind by name.
#[derive(Drop)]
pub struct MembersByName {
    /// For each name the classes that declare a member of it.
    pub classes: NumbersByName,
    /// For each class the places of its members by name.
    pub places: Seq<NumbersByName>,
}

/// The members of a kind by name.
pub fn members_by_name(
    alloc: Global,
    heads: &[ClassHead],
    member: Member,
) -> Result<MembersByName, Memory>
    ensures classes { IfOk result (λ members. IsIndexOf member heads.now members.classes) }
    ensures places { IfOk result (λ members. ArePlaces member heads.now members.places) }
{
    let classes = classes_by_member(alloc, heads, member)?;
    let places = places_by_class(alloc, heads, member)?;
    Ok(MembersByName { classes, places })
}

/// For each name the classes that declare a member of a kind.
fn classes_by_member(
    alloc: Global,
    heads: &[ClassHead],
    member: Member,
) -> Result<NumbersByName, Memory>
    ensures { IfOk result (IsIndexOf member heads.now) }
{
    let mut index = NumbersByName::new(alloc);
    for (class, head) in heads.iter().enumerate() {
        note_class(&mut index, alloc, head, member, class as u64)?;
    }
    Ok(index)
}

/// Notes a class for each member of a kind that it declares.
fn note_class(
    index: &mut NumbersByName,
    alloc: Global,
    head: &ClassHead,
    member: Member,
    class: u64,
) -> Result<(), Memory>
    ensures { OnOk result (IsNoted class (member_names member head.now) index.old index.new) }
{
    for place in 0..count_of(member, head) {
        note_once(index, alloc, name_of(member, head, place), class)?;
    }
    Ok(())
}

/// Notes a class for a name, unless it is the last one that is noted for it.
fn note_once(
    index: &mut NumbersByName,
    alloc: Global,
    name: &Name,
    class: u64,
) -> Result<(), Memory>
    ensures { OnOk result (IsNoted class (name.now ∷ []) index.old index.new) }
{
    if is_last(index.at(name), class) {
        return Ok(());
    }
    index.note(alloc, name, class)?;
    Ok(())
}

/// Whether the class is the last of these.
fn is_last(classes: &[u64], class: u64) -> bool
    ensures { IsTrue result → Contains classes.now class }
{
    match classes.last() {
        None => false,
        Some(last) => *last == class,
    }
}

/// For each class the places of its members of a kind by name.
fn places_by_class(
    alloc: Global,
    heads: &[ClassHead],
    member: Member,
) -> Result<Seq<NumbersByName>, Memory>
    ensures { IfOk result (ArePlaces member heads.now) }
{
    let mut places = Seq::new(alloc);
    for head in heads {
        let index = places_by_name(alloc, head, member)?;
        places.push(index)?;
    }
    Ok(places)
}

/// For each name the places of the members of a kind that a class declares.
fn places_by_name(alloc: Global, head: &ClassHead, member: Member) -> Result<NumbersByName, Memory>
    ensures { IfOk result (HasPlaces (member_names member head.now)) }
{
    let mut index = NumbersByName::new(alloc);
    for place in 0..count_of(member, head) {
        index.note(alloc, name_of(member, head, place), place)?;
    }
    Ok(index)
}
