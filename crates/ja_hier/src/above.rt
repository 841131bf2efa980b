//! The choice among classes that declare a member, by their bits.
ghost use Rattle.std.specs.Prelude.{ℕ, ◌<◌, ◌↔◌, length, Contains, IfSome, IsTrue};
ghost use Rattle.ja_hier.specs.InnerIndex.{Covers, IsBelow};
ghost use Rattle.ja_supertypes.specs.Supertypes.{IsSuperclass, IsSupertype};

use ja_supertypes::Classes;

/// Where to look for those supertypes of a class that are listed: in the list, or in all its
/// supertypes, where these are fewer.
pub fn fewer<'a>(classes: &'a Classes, class: u32, listed: &'a [u64]) -> &'a [u64]
    requires inside { class < length classes.now }
    requires listed_inside { (d : ℕ) → Contains listed.now d → d < length classes.now }
    ensures { Covers classes.now class listed.now result.now }
{
    let supertypes = classes.supertypes(class).as_slice();
    if supertypes.len() < listed.len() {
        supertypes
    } else {
        listed
    }
}

/// Whether a class has the nearest one so far among its superclasses, where there is one.
pub fn is_below(classes: &Classes, class: u32, nearest: Option<u32>) -> bool
    requires inside { class < length classes.now }
    requires nearest_inside { IfSome nearest (λ d. d < length classes.now) }
    ensures { IsTrue result ↔ IsBelow (IsSuperclass classes.now) nearest class }
{
    match nearest {
        None => true,
        Some(nearest) => classes.is_superclass(class, nearest),
    }
}

/// Whether a class has the lowest one so far among its supertypes, where there is one.
pub fn has_above(classes: &Classes, class: u32, lowest: Option<u32>) -> bool
    requires inside { class < length classes.now }
    requires lowest_inside { IfSome lowest (λ d. d < length classes.now) }
    ensures { IsTrue result ↔ IsBelow (IsSupertype classes.now) lowest class }
{
    match lowest {
        None => true,
        Some(lowest) => classes.is_supertype(class, lowest),
    }
}
