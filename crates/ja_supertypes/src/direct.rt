ghost use Rattle.std.specs.Prelude.{◌≡◌, ℕ, ◌<◌, ◌≤◌, ◌^◌, ◌↔◌, ◌++◌, [], length, map, filter_map, option_to_list, All, Contains, IfOk, OnOk};
ghost use Rattle.ja_ir.specs.declared.head.ClassHead.{ClassHead};
ghost use Rattle.ja_sets.specs.Sets.{Has};
ghost use Rattle.ja_supertypes.specs.Supertypes.{place_of, place_of_some};
ghost use Rattle.ja_supertypes.specs.InnerRows.{AreSets, IsSetOf};
ghost use Rattle.ja_base.specs.Limit.{max_numbered};

use indexmap::IndexSet;
use ja_base::{Memory, Name, Numbers, Seq};
use ja_ir::ClassHead;
use ja_sets::TokenSet;
use std::alloc::Global;

/// The first place of a name.
fn place_of(names: &IndexSet<Name>, name: &Name) -> Option<u32>
    requires { length names.now.keys ≤ max_numbered }
    ensures { result ≡ place_of names.now.keys name.now }
{
    match names.get_index_of(name) {
        Some(place) => Some(place as u32),
        None => None,
    }
}

/// The place of the direct superclass of each class, where it is a program class.
pub fn superclass_places(
    alloc: Global,
    heads: &[ClassHead],
    names: &IndexSet<Name>,
) -> Result<Seq<Option<u32>>, Memory>
    requires { length names.now.keys ≤ max_numbered }
    ensures { IfOk result (λ list. list ≡ map (λ (head : ClassHead). place_of_some names.now.keys head.superclass) heads.now) }
{
    let mut places = Seq::new(alloc);
    for head in heads {
        places.push(superclass_place(names, head))?;
    }
    Ok(places)
}

fn superclass_place(names: &IndexSet<Name>, head: &ClassHead) -> Option<u32>
    requires { length names.now.keys ≤ max_numbered }
    ensures { result ≡ place_of_some names.now.keys head.now.superclass }
{
    match &head.superclass {
        None => None,
        Some(name) => place_of(names, name),
    }
}

/// The places of the program classes among the direct superinterfaces of each class, in declared order.
pub fn interface_places(
    alloc: Global,
    heads: &[ClassHead],
    names: &IndexSet<Name>,
) -> Result<Seq<Numbers>, Memory>
    requires { length names.now.keys ≤ max_numbered }
    ensures { IfOk result (λ list. list ≡ map (λ (head : ClassHead). filter_map (place_of names.now.keys) head.interfaces) heads.now) }
{
    let mut places = Seq::new(alloc);
    for head in heads {
        places.push(places_of(alloc, head.interfaces.as_slice(), names)?)?;
    }
    Ok(places)
}

/// Adds the place, if there is one, at the end.
fn push_some(places: &mut Numbers, place: Option<u32>) -> Result<(), Memory>
    ensures { OnOk result (places.new ≡ places.old ++ option_to_list place) }
{
    match place {
        None => Ok(()),
        Some(place) => places.push(place as u64),
    }
}

/// The places of the program classes among these, in the same order.
fn places_of(alloc: Global, listed: &[Name], names: &IndexSet<Name>) -> Result<Numbers, Memory>
    requires { length names.now.keys ≤ max_numbered }
    ensures { IfOk result (λ list. list ≡ filter_map (place_of names.now.keys) listed.now) }
{
    let mut places = Seq::new(alloc);
    for name in listed {
        push_some(&mut places, place_of(names, name))?;
    }
    Ok(places)
}

/// The places of the direct supertypes of each class that are program classes: its superinterfaces in
/// declared order, then its superclass.
pub fn supertype_places(
    alloc: Global,
    heads: &[ClassHead],
    names: &IndexSet<Name>,
) -> Result<Seq<Numbers>, Memory>
    requires { length names.now.keys ≤ max_numbered }
    ensures { IfOk result (λ list. list ≡ map (λ (head : ClassHead). filter_map (place_of names.now.keys) head.interfaces ++ option_to_list (place_of_some names.now.keys head.superclass)) heads.now) }
{
    let mut places = Seq::new(alloc);
    for head in heads {
        let mut own = places_of(alloc, head.interfaces.as_slice(), names)?;
        push_some(&mut own, superclass_place(names, head))?;
        places.push(own)?;
    }
    Ok(places)
}

/// For each list of places the set of what it lists.
pub fn sets_of(alloc: Global, lists: &[Numbers], len: u32) -> Result<Vec<TokenSet>, Memory>
    requires { All (λ places. All (λ place. place < len) places) lists.now }
    ensures { IfOk result (λ sets. AreSets lists.now len sets.items) }
{
    let mut sets = Vec::new(alloc);
    for places in lists {
        sets.push(set_of(alloc, places.as_slice(), len)?)?;
    }
    Ok(sets)
}

fn set_of(alloc: Global, places: &[u64], len: u32) -> Result<TokenSet, Memory>
    requires { All (λ place. place < len) places.now }
    ensures { IfOk result (λ set. IsSetOf places.now len set) }
{
    let mut set = TokenSet::new(alloc, len)?;
    for place in places {
        set.add(*place as u32);
    }
    Ok(set)
}
