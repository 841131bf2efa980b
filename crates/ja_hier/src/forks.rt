//! Ways up the supertypes of a class on which there is no choice.
ghost use Rattle.std.specs.Prelude.{◌≡◌, ℕ, ◌∷◌, [], ◌<◌, ◌≤◌, ◌^◌, length, IfOk, IfSome};
ghost use Rattle.ja_hier.specs.InnerIndex.{AreForks, IsStraight};
ghost use Rattle.ja_supertypes.specs.Faults.{AreClasses};
ghost use Rattle.ja_supertypes.specs.Supertypes.{supertypes_of};
ghost use Rattle.ja_base.specs.Limit.{max_numbered};

use ja_base::{Memory, Numbers, Seq};
use ja_supertypes::Classes;
use std::alloc::Global;

/// For each class the first at or above it that has no or several direct supertypes.
pub fn forks(alloc: Global, classes: &Classes) -> Result<Numbers, Memory>
    requires few { length classes.now ≤ max_numbered }
    requires valid { AreClasses classes.now }
    ensures { IfOk result (AreForks classes.now) }
{
    let mut forks = Seq::new(alloc);
    for class in 0..classes.heads().len() {
        let fork = fork_of(classes, class as u32);
        forks.push(fork as u64)?;
    }
    Ok(forks)
}

fn fork_of(classes: &Classes, class: u32) -> u32
    requires few { length classes.now ≤ max_numbered }
    requires valid { AreClasses classes.now }
    requires inside { class < length classes.now }
    ensures { IsStraight classes.now class result }
{
    let mut at = class;
    while let Some(next) = only_supertype(classes, at) {
        at = next;
    }
    at
}

/// The direct supertype of a class that has just one.
fn only_supertype(classes: &Classes, class: u32) -> Option<u32>
    requires few { length classes.now ≤ max_numbered }
    requires inside { class < length classes.now }
    ensures { IfSome result (λ d. supertypes_of classes.now class ≡ d ∷ []) }
{
    let supertypes = classes.direct_supertypes(class).as_slice();
    if supertypes.len() == 1 {
        Some(supertypes[0] as u32)
    } else {
        None
    }
}
