ghost use Rattle.std.specs.Prelude.{◌≡◌, ℕ, ◌<◌, ◌≤◌, ◌^◌, ◌⊎◌, ◌↔◌, ◌∷◌, ◌++◌, if◌then◌else◌, [], length, map, slice_index_or, All, Contains, IfOk, IsTrue, OnOk};
ghost use Rattle.ja_ir.specs.declared.head.ClassHead.{ClassHead};
ghost use Rattle.ja_sets.specs.Sets.{Has};
ghost use Rattle.ja_supertypes.specs.InnerRows.{IsGathered, AreGathered, AreMembers, IsMembers};

use indexmap::IndexSet;
use ja_base::{Flags, Memory, Name, Numbers, Seq};
use ja_ir::ClassHead;
use ja_sets::TokenSet;
use std::alloc::Global;

/// The members of each set, as lists.
pub fn members(alloc: Global, sets: &[TokenSet], len: u32) -> Result<Seq<Numbers>, Memory>
    requires { All (λ set. length set ≡ len) sets.now }
    ensures { IfOk result (λ lists. AreMembers sets.now lists) }
{
    let mut lists = Seq::new(alloc);
    for set in sets {
        let list = members_of(alloc, set, len)?;
        lists.push(list)?;
    }
    Ok(lists)
}

/// Adds a number at the end, where it is wanted.
fn push_if(list: &mut Numbers, wanted: bool, number: u32) -> Result<(), Memory>
    ensures { OnOk result (list.new ≡ list.old ++ (if wanted then number ∷ [] else [])) }
{
    if wanted {
        list.push(number as u64)
    } else {
        Ok(())
    }
}

fn members_of(alloc: Global, set: &TokenSet, len: u32) -> Result<Numbers, Memory>
    requires { length set.now ≡ len }
    ensures { IfOk result (IsMembers set.now) }
{
    let mut list = Seq::new(alloc);
    for d in 0..len {
        let wanted = set.contains(d);
        push_if(&mut list, wanted, d)?;
    }
    Ok(list)
}

/// For each class the union of its own set and those of the classes above it.
pub fn gather(
    alloc: Global,
    own: &[TokenSet],
    supers: &[Numbers],
    len: u32,
) -> Result<Vec<TokenSet>, Memory>
    requires sizes { length own.now ≡ length supers.now }
    requires widths { All (λ set. length set ≡ len) own.now }
    requires inside { All (λ list. All (λ d. d < length own.now) list) supers.now }
    ensures { IfOk result (λ sets. AreGathered own.now supers.now len sets.items) }
{
    let mut sets = Vec::new(alloc);
    for class in 0..supers.len() {
        let set = gathered(alloc, own, class, supers[class].as_slice(), len)?;
        sets.push(set)?;
    }
    Ok(sets)
}

fn gathered(
    alloc: Global,
    own: &[TokenSet],
    class: usize,
    supers: &[u64],
    len: u32,
) -> Result<TokenSet, Memory>
    requires class { class < length own.now }
    requires widths { All (λ set. length set ≡ len) own.now }
    requires inside { All (λ d. d < length own.now) supers.now }
    ensures { IfOk result (λ set. IsGathered own.now class supers.now len set) }
{
    let mut set = TokenSet::new(alloc, len)?;
    set.join(&own[class]);
    for above in supers {
        set.join(&own[*above as usize]);
    }
    Ok(set)
}
