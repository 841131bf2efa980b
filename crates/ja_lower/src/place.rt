ghost use Rattle.std.specs.Prelude.{◌≡◌, ◌<◌, ◌≤◌, ◌^◌, zero, suc, Some, IfOk, OnOk, length, slice_get, sum_by};
ghost use Rattle.ja_class.specs.Meaning.{ClassSpelled};
ghost use Rattle.ja_hier.specs.declared.starts.Member.TheVariants.{Method as OfMethods};
ghost use Rattle.ja_hier.specs.Members.{count_of};
ghost use Rattle.ja_lower.specs.Program.{heads_of};
ghost use Rattle.ja_lower.specs.InnerPlaces.{PlacesFrom, PlacesUpTo};
ghost use Rattle.ja_base.specs.Limit.{max_numbered};

use ja_base::{Memory, Seq};
use ja_class::Class;
use std::alloc::Global;

/// A method that a class declares, by their numbers.
#[derive(Clone, Copy)]
pub(crate) struct Place {
    pub class: u32,
    pub method: u32,
}

/// The methods of the classes, in the order of the classes and, in one class, as declared.
pub(crate) fn places_of(alloc: Global, classes: &[Class]) -> Result<Seq<Place>, Memory>
    requires few { length classes.now ≤ max_numbered }
    requires numbered { sum_by (count_of OfMethods) (heads_of classes.now) ≤ max_numbered }
    ensures { IfOk result (PlacesFrom classes.now zero zero) }
{
    let mut places = Seq::new(alloc);
    for c in 0..classes.len() {
        add_places(&mut places, classes, c as u32)?;
    }
    Ok(places)
}

/// Adds the methods of a class.
fn add_places(places: &mut Seq<Place>, classes: &[Class], c: u32) -> Result<(), Memory>
    requires numbered { sum_by (count_of OfMethods) (heads_of classes.now) ≤ max_numbered }
    requires inside { c < length classes.now }
    requires so_far { PlacesUpTo classes.now c zero places.old }
    ensures { OnOk result (PlacesUpTo classes.now (suc c) zero places.new) }
{
    let class = &classes[c as usize];
    for m in 0..class.head.methods.len() {
        places.push(Place {
            class: c,
            method: m as u32,
        })?;
    }
    Ok(())
}
