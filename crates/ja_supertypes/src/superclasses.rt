ghost use Rattle.std.specs.Prelude.{◌≡◌, ◌<◌, ◌≤◌, ◌^◌, length, IfOk};
ghost use Rattle.ja_supertypes.specs.Faults.{IsCyclic, IsNowhere};
ghost use Rattle.ja_supertypes.specs.InnerIndex.{superclass_places, AreTops, HasJust, IsTop, Shows};
ghost use Rattle.ja_supertypes.specs.Supertypes.{IsSuperclass};
ghost use Rattle.ja_base.specs.Limit.{max_numbered};

use ja_base::{Memory, Numbers, Seq};
use ja_ir::ClassHead;
use ja_sets::TokenSet;
use std::alloc::Global;

/// The proper superclasses of each class.
pub fn superclass_sets(
    alloc: Global,
    heads: &[ClassHead],
    superclasses: &[Option<u32>],
) -> Result<Vec<TokenSet>, Memory>
    requires few { length heads.now ≤ max_numbered }
    requires superclasses { superclasses.now ≡ superclass_places heads.now }
    requires acyclic { IsNowhere (IsCyclic heads.now) }
    ensures { IfOk result (λ sets. Shows heads.now (IsSuperclass heads.now) sets.items) }
{
    let mut sets = Vec::new(alloc);
    for class in 0..heads.len() {
        let set = superclass_set(alloc, heads, superclasses, class as u32)?;
        sets.push(set)?;
    }
    Ok(sets)
}

fn superclass_set(
    alloc: Global,
    heads: &[ClassHead],
    superclasses: &[Option<u32>],
    class: u32,
) -> Result<TokenSet, Memory>
    requires few { length heads.now ≤ max_numbered }
    requires superclasses { superclasses.now ≡ superclass_places heads.now }
    requires acyclic { IsNowhere (IsCyclic heads.now) }
    requires inside { class < length heads.now }
    ensures { IfOk result (λ set. HasJust (IsSuperclass heads.now class) (length heads.now) set) }
{
    let mut set = TokenSet::new(alloc, heads.len() as u32)?;
    let mut at = superclasses[class as usize];
    while let Some(superclass) = at {
        set.add(superclass);
        at = superclasses[superclass as usize];
    }
    Ok(set)
}

/// For each class the last class on the way up its superclasses.
pub fn tops(
    alloc: Global,
    heads: &[ClassHead],
    superclasses: &[Option<u32>],
) -> Result<Numbers, Memory>
    requires few { length heads.now ≤ max_numbered }
    requires superclasses { superclasses.now ≡ superclass_places heads.now }
    requires acyclic { IsNowhere (IsCyclic heads.now) }
    ensures { IfOk result (AreTops heads.now) }
{
    let mut tops = Seq::new(alloc);
    for class in 0..heads.len() {
        let top = top_of(heads, superclasses, class as u32);
        tops.push(top as u64)?;
    }
    Ok(tops)
}

fn top_of(heads: &[ClassHead], superclasses: &[Option<u32>], class: u32) -> u32
    requires superclasses { superclasses.now ≡ superclass_places heads.now }
    requires acyclic { IsNowhere (IsCyclic heads.now) }
    requires inside { class < length heads.now }
    ensures { IsTop heads.now class result }
{
    let mut top = class;
    while let Some(superclass) = superclasses[top as usize] {
        top = superclass;
    }
    top
}
