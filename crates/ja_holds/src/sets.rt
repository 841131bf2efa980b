ghost use Rattle.std.specs.Prelude.{◌≡◌, ◌⊎◌, ◌↔◌, ℕ, ◌≤◌, ◌<◌, [], length, replicate, slice_index_or, slice_set, true, IfOk, IfSome, IfNone};
ghost use Rattle.ja_sets.specs.Sets.{Has, Lacks, IsNext};
ghost use Rattle.ja_facts.specs.ClassTables.{no_members};
ghost use Rattle.ja_holds.specs.Inner.{row, Gains};
ghost use Rattle.ja_holds.specs.Sized.{AreSets};

use ja_base::Memory;
use ja_facts::Rows;
use ja_sets::TokenSet;
use std::alloc::Global;

/// So many empty sets of numbers below `n`.
pub fn empty_sets(alloc: Global, count: u64, n: u32) -> Result<Rows<TokenSet>, Memory>
    ensures { IfOk result (λ rows. rows ≡ replicate count (no_members n)) }
{
    let mut rows = Rows::new(alloc);
    for _i in 0..count {
        rows.push(TokenSet::new(alloc, n)?)?;
    }
    Ok(rows)
}

/// The least member below `n` of a set from a place on, if there is one.
pub fn next_below(set: &TokenSet, from: u32, n: u32) -> Option<u32>
    ensures next { IfSome result (IsNext set.now from) }
    ensures below { IfSome result (λ x. x < n) }
    ensures none { IfNone result ((y : ℕ) → from ≤ y → y < n → Lacks set.now y) }
{
    match set.next_from(from) {
        Some(x) => { if x < n { Some(x) } else { None } }
        None => None,
    }
}

/// Adds the members below `n` of another set to a set of numbers below `n`.
pub fn add_members(to: &mut TokenSet, n: u32, set: &TokenSet)
    requires { length to.old ≡ n }
    ensures size { length to.new ≡ n }
    ensures has { (x : ℕ) → Has to.new x ↔ (Has to.old x ⊎ (Has set.now x × (x < n))) }
{
    let mut from = 0;
    for _i in 0..n {
        match next_below(set, from, n) {
            Some(x) => {
                to.add(x);
                from = x + 1;
            }
            None => break,
        }
    }
}

/// Adds a number to one of several sets.
pub fn add_at(rows: &mut Rows<TokenSet>, i: u32, x: u32)
    requires inside { i < length rows.old }
    requires below { x < length (row rows.old i) }
    ensures { rows.new ≡ slice_set rows.old i (slice_set (row rows.old i) x true) }
{
    rows.at_mut(i as u64).add(x);
}

/// Adds the members below `n` of another set to one of several sets of numbers below `n`.
pub fn add_members_at(rows: &mut Rows<TokenSet>, count: u64, i: u32, n: u32, set: &TokenSet)
    requires sets { AreSets count n rows.old }
    requires inside { i < count }
    ensures sets { AreSets count n rows.new }
    ensures gains { Gains i (λ x. Has set.now x × (x < n)) rows.old rows.new }
{
    add_members(rows.at_mut(i as u64), n, set);
}
