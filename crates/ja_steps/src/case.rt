ghost use Rattle.std.specs.Prelude.{◌≡◌, ◌/◌, ◌&&◌};
ghost use Rattle.ja_work.specs.Clauses as clauses;
ghost use Rattle.ja_steps.specs.Inner as parts;

use crate::parts::Part;

/// Whether a place is listed.
pub(crate) fn is_listed(sources: &[u32], place: u32) -> bool
    ensures { result ≡ parts.is_listed sources.now place }
{
    sources.iter().any(|source| *source == place)
}

/// The truth that a case says of one of the listed places.
fn guessed(sources: &[u32], code: u32, place: u32) -> bool
    ensures { result ≡ parts.guessed sources.now code place }
{
    let mut left = code;
    for source in sources {
        if *source == place {
            return left % 2 == 1;
        }
        left = left / 2;
    }
    false
}

/// Whether both truths are the same.
pub(crate) fn is_same(one: bool, other: bool) -> bool
    ensures { result ≡ parts.is_same one other }
{
    if one { other } else { !other }
}

/// Whether in a case one of the counted values is true.
pub(crate) fn is_any(case: u32) -> bool
    ensures { result ≡ parts.is_any case }
{
    case % 2 == 1
}

/// In a case, the truth that the clause's one spot had, where the spot of the place itself had this one.
fn one_value(sources: &[u32], case: u32, part: &Part, before: bool) -> bool
    ensures { result ≡ parts.one_value sources.now case part.now.place part.now.one before }
{
    match part.one {
        Some(place) if place == part.place => before,
        Some(place) => guessed(sources, case / 2, place),
        None => false,
    }
}

/// In a case, where the clause lets its spot be true.
fn bound_in(sources: &[u32], part: &Part, case: u32, before: bool) -> bool
    ensures { result ≡ parts.bound_in sources.now part.now case before }
{
    part.always || one_value(sources, case, part, before) || part.ranged && is_any(case)
}

/// Whether what the case says of a place is so.
fn agrees(sources: &[u32], part: &Part, case: u32, before: bool) -> bool
    ensures { result ≡ parts.agrees sources.now part.now case before }
{
    if is_listed(sources, part.place) && !is_same(before, guessed(sources, case / 2, part.place)) {
        return false;
    }
    !(part.counted && before) || is_any(case)
}

/// Whether a spot that is true exactly, or at most, where a bound is may have this truth.
fn fits_as(exact: bool, bound: bool, after: bool) -> bool
    ensures { result ≡ clauses.fits_as exact bound after }
{
    match (exact, bound) {
        (true, true) => after,
        (true, false) => !after,
        (false, true) => true,
        (false, false) => !after,
    }
}

/// Whether in a case a place may have these truths.
pub(crate) fn allows_in(sources: &[u32], part: &Part, case: u32, before: bool, after: bool) -> bool
    ensures { result ≡ parts.allows_in sources.now part.now case before after }
{
    agrees(sources, part, case, before)
        && fits_as(part.exact, bound_in(sources, part, case, before), after)
}
