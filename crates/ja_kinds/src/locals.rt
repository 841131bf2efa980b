ghost use Rattle.std.specs.Prelude.{◌≡◌, ◌+◌, ◌≤◌, length, IfOk};
ghost use Rattle.ja_base.specs.Kind.{words_of};
ghost use Rattle.ja_kinds.specs.Frame.{same_kind, cut_kind, cut, written, stored};
ghost use Rattle.ja_kinds.specs.Effect.{holds};

use crate::state::KindList;
use ja_base::{Kind, Memory};
use std::alloc::Global;

/// Whether two kinds are one.
pub(crate) fn same_kind(kind: Kind, other: Kind) -> bool
    ensures { result ≡ same_kind kind other }
{
    match kind {
        Kind::P1 => matches!(other, Kind::P1),
        Kind::P2 => matches!(other, Kind::P2),
        Kind::R => matches!(other, Kind::R),
        Kind::T => matches!(other, Kind::T),
    }
}

/// Whether the local at a place holds a usable value of a kind, all words of which are there.
pub(crate) fn holds(locals: &[Kind], place: u64, kind: Kind) -> bool
    ensures { result ≡ holds locals.now place kind }
{
    let count = locals.len() as u64;
    if place >= count || count - place < u64::from(kind.words()) {
        return false;
    }
    same_kind(locals[place as usize], kind) && !same_kind(kind, Kind::T)
}

/// What a kind is where a value is stored over its second word.
fn cut_kind(kind: Kind) -> Kind
    ensures { result ≡ cut_kind kind }
{
    match kind {
        Kind::P1 => Kind::P1,
        Kind::P2 => Kind::T,
        Kind::R => Kind::R,
        Kind::T => Kind::T,
    }
}

/// Cuts the value, if it has two words, that begins right before a place.
fn cut(locals: &mut [Kind], place: usize)
    requires { place ≤ length locals.old }
    ensures { locals.new ≡ cut place locals.old }
{
    if place == 0 {
        return;
    }
    locals[place - 1] = cut_kind(locals[place - 1]);
}

/// Writes the words of a value at a place.
fn write(locals: &mut [Kind], place: usize, kind: Kind)
    requires { place + words_of kind ≤ length locals.old }
    ensures { locals.new ≡ written place kind locals.old }
{
    match kind {
        Kind::P1 => locals[place] = Kind::P1,
        Kind::P2 => {
            locals[place] = Kind::P2;
            locals[place + 1] = Kind::T;
        }
        Kind::R => locals[place] = Kind::R,
        Kind::T => locals[place] = Kind::T,
    }
}

/// The locals after a value of a kind is stored at a place. A value of two words that it cuts is not usable any more.
pub(crate) fn stored(
    alloc: Global,
    place: u64,
    kind: Kind,
    locals: &[Kind],
) -> Result<KindList, Memory>
    requires { place + words_of kind ≤ length locals.now }
    ensures { IfOk result (λ after. after ≡ stored place kind locals.now) }
{
    let mut after = Vec::from_slice(alloc, locals)?;
    cut(after.as_mut_slice(), place as usize);
    write(after.as_mut_slice(), place as usize, kind);
    Ok(KindList::from_vec(after))
}
