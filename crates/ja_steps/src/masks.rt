ghost use Rattle.std.specs.Prelude.{◌≡◌, ◌*◌, ◌+◌, ◌≤◌, ◌&&◌, ℕ, nat_lt, IsTrue, Some};
ghost use Rattle.ja_base.specs.Limit.{last_variable};
ghost use Rattle.ja_steps.specs.Inner.{has, is_any, is_same, HasAllowed, AreMasks, IsMoveOf, IsKept};

use crate::case::{allows_in, is_any, is_listed, is_same};
use crate::parts::Part;
use ja_join::{Masks, Move};

/// The mask of the cases that say, or do not say, that one of the counted values is true.
pub(crate) fn starting(cases: u32, any: bool) -> u32
    requires { cases ≤ 32 }
    ensures { (case : ℕ) → has result case ≡ (nat_lt case cases && is_same any (is_any case)) }
{
    let mut mask = 0;
    for case in 0..cases {
        if is_same(any, is_any(case)) {
            mask |= 1 << case;
        }
    }
    mask
}

/// The mask of the cases in which a place may have these truths.
fn allowed(sources: &[u32], part: &Part, cases: u32, before: bool, after: bool) -> u32
    requires { cases ≤ 32 }
    ensures { HasAllowed sources.now part.now cases before after result }
{
    let mut mask = 0;
    for case in 0..cases {
        if allows_in(sources, part, case, before, after) {
            mask |= 1 << case;
        }
    }
    mask
}

/// The masks of a place where it has these truths.
fn masks(sources: &[u32], part: &Part, cases: u32, before: bool, after: bool) -> Masks
    requires { cases ≤ 32 }
    ensures { AreMasks sources.now part.now cases before after result }
{
    let seen = allowed(sources, part, cases, before, after);
    if part.counted && before {
        Masks {
            waiting: 0,
            seen,
            sees: seen,
        }
    } else {
        Masks {
            waiting: seen,
            seen,
            sees: 0,
        }
    }
}

/// The move of a place.
pub(crate) fn move_of(sources: &[u32], part: &Part, cases: u32) -> Move
    requires cases { cases ≤ 32 }
    requires small { 4 * part.now.place + 1 ≤ last_variable }
    ensures { IsMoveOf sources.now cases part.now result }
{
    Move {
        variable: 4 * part.place + 1,
        forgets: false,
        told: None,
        low_low: masks(sources, part, cases, false, false),
        low_high: masks(sources, part, cases, false, true),
        high_low: masks(sources, part, cases, true, false),
        high_high: masks(sources, part, cases, true, true),
    }
}

/// Whether a place is that of a number.
fn is_place(place: Option<u32>, number: u32) -> bool
    ensures { IsTrue result → place ≡ Some number }
{
    match place {
        Some(place) => place == number,
        None => false,
    }
}

/// Whether a clause keeps its spot, of which nothing else is asked.
pub(crate) fn is_kept(sources: &[u32], part: &Part) -> bool
    ensures { IsTrue result → IsKept sources.now part.now }
{
    part.exact
        && !part.always
        && is_place(part.one, part.place)
        && !part.ranged
        && !part.counted
        && !is_listed(sources, part.place)
}
