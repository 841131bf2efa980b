ghost use Rattle.std.specs.Prelude.{◌≡◌, [], ◌∷◌, IfOk, Option};
ghost use Rattle.ja_base.specs.declared.java_type.Kind.{Kind};
ghost use Rattle.ja_kinds.specs.declared.effect.Effect.TheVariants.{Loads, Stores, Counts, Leaves};
ghost use Rattle.ja_kinds.specs.Frame.{words};
ghost use Rattle.ja_kinds.specs.Effect.{needed, given, is_wrong_depth, kinds_in, may_return, with_stack, turned};
ghost use Rattle.ja_kinds.specs.Solution.{accepted};

use crate::effect::Effect;
use crate::frame::Frame;
use crate::locals::{holds, same_kind, stored};
use crate::stack::{exchanged, joined, moved_words, rearranged, top_words, under_words, words};
use crate::state::{KindList, KindState};
use ja_base::{Kind, Memory};
use std::alloc::Global;

/// The words of a value, if there is one.
fn words_in(kind: Option<Kind>) -> u64
    ensures { result ≡ words (kinds_in kind) }
{
    match kind {
        Some(kind) => u64::from(kind.words()),
        None => 0,
    }
}

/// The words that an effect needs on the stack.
pub(crate) fn needed(effect: &Effect) -> u64
    ensures { result ≡ needed effect.now }
{
    match effect {
        Effect::Loads(_, _) => 0,
        Effect::Stores(kind, _) => u64::from(kind.words()),
        Effect::Counts(_) => 0,
        Effect::Moves(how) => under_words(*how) + top_words(*how),
        Effect::Exchanges { taken, pushed: _ } => words(taken.as_slice()),
        Effect::Leaves(kind) => words_in(*kind),
    }
}

/// The words that it puts in their place.
pub(crate) fn given(effect: &Effect) -> u64
    ensures { result ≡ given effect.now }
{
    match effect {
        Effect::Loads(kind, _) => u64::from(kind.words()),
        Effect::Stores(_, _) => 0,
        Effect::Counts(_) => 0,
        Effect::Moves(how) => moved_words(*how),
        Effect::Exchanges { taken: _, pushed } => words(pushed.as_slice()),
        Effect::Leaves(_) => 0,
    }
}

/// Whether fewer words are on the stack than an effect needs, or more than the frame has, before or after.
pub(crate) fn is_wrong_depth(max_stack: u32, effect: &Effect, stack: &[Kind]) -> bool
    ensures { result ≡ is_wrong_depth max_stack effect.now stack.now }
{
    let most = u64::from(max_stack);
    let there = words(stack);
    let needs = needed(effect);
    if there > most || there < needs {
        return true;
    }
    // What is left is within max_stack, so that the sum says whether there is room.
    given(effect) > most - (there - needs)
}

/// A list of one kind.
pub(crate) fn one(alloc: Global, kind: Kind) -> Result<KindList, Memory>
    ensures { IfOk result (λ list. list ≡ kind ∷ []) }
{
    let mut list = KindList::new(alloc);
    list.push(kind)?;
    Ok(list)
}

/// The list of a kind, if there is one.
pub(crate) fn list_of(alloc: Global, kind: Option<Kind>) -> Result<KindList, Memory>
    ensures { IfOk result (λ list. list ≡ kinds_in kind) }
{
    match kind {
        Some(kind) => one(alloc, kind),
        None => Ok(KindList::new(alloc)),
    }
}

/// A copy of a list.
pub(crate) fn copy(alloc: Global, list: &KindList) -> Result<KindList, Memory>
    ensures { IfOk result (λ copied. copied ≡ list.now) }
{
    let items = Vec::from_slice(alloc, list.as_slice())?;
    Ok(KindList::from_vec(items))
}

/// These locals with a stack, where there is one.
fn with_stack(
    alloc: Global,
    locals: &KindList,
    stack: Option<KindList>,
) -> Result<Option<KindState>, Memory>
    ensures { IfOk result (λ after. after ≡ with_stack locals.now stack) }
{
    match stack {
        None => Ok(None),
        Some(stack) => {
            let locals = copy(alloc, locals)?;
            Ok(Some(KindState { locals, stack }))
        }
    }
}

/// Whether a method that returns a value of this kind, or none, may end with that.
fn may_return(returns: Option<Kind>, kind: Option<Kind>) -> bool
    ensures { result ≡ may_return returns kind }
{
    match returns {
        None => kind.is_none(),
        Some(returned) => match kind {
            None => false,
            Some(kind) => same_kind(returned, kind),
        },
    }
}

/// After a local is pushed.
fn loaded(
    alloc: Global,
    kind: Kind,
    place: u64,
    state: &KindState,
) -> Result<Option<KindState>, Memory>
    ensures { (returns : Option Kind) → IfOk result (λ after. after ≡ turned returns (Loads kind place) state.now) }
{
    if !holds(state.locals.as_slice(), place, kind) {
        return Ok(None);
    }
    let pushed = one(alloc, kind)?;
    let stack = joined(alloc, state.stack.as_slice(), pushed.as_slice())?;
    with_stack(alloc, &state.locals, Some(stack))
}

/// After a value is popped into a local.
fn popped(
    alloc: Global,
    kind: Kind,
    place: u64,
    state: &KindState,
) -> Result<Option<KindState>, Memory>
    ensures { (returns : Option Kind) → IfOk result (λ after. after ≡ turned returns (Stores kind place) state.now) }
{
    let count = state.locals.len();
    if place >= count || count - place < u64::from(kind.words()) {
        return Ok(None);
    }
    let taken = one(alloc, kind)?;
    let stack = exchanged(
        alloc,
        taken.as_slice(),
        KindList::new(alloc).as_slice(),
        state.stack.as_slice(),
    )?;
    let locals = stored(alloc, place, kind, state.locals.as_slice())?;
    with_stack(alloc, &locals, stack)
}

/// After an int local is used where it stands.
fn counted(alloc: Global, place: u64, state: &KindState) -> Result<Option<KindState>, Memory>
    ensures { (returns : Option Kind) → IfOk result (λ after. after ≡ turned returns (Counts place) state.now) }
{
    if !holds(state.locals.as_slice(), place, Kind::P1) {
        return Ok(None);
    }
    let stack = copy(alloc, &state.stack)?;
    with_stack(alloc, &state.locals, Some(stack))
}

/// After the end of a method that returns a value of a kind, or none.
fn left(
    alloc: Global,
    returns: Option<Kind>,
    kind: Option<Kind>,
    state: &KindState,
) -> Result<Option<KindState>, Memory>
    ensures { IfOk result (λ after. after ≡ turned returns (Leaves kind) state.now) }
{
    if !may_return(returns, kind) {
        return Ok(None);
    }
    let taken = list_of(alloc, kind)?;
    let stack = exchanged(
        alloc,
        taken.as_slice(),
        KindList::new(alloc).as_slice(),
        state.stack.as_slice(),
    )?;
    with_stack(alloc, &state.locals, stack)
}

/// The locals and the stack after an effect; none where it needs others.
pub(crate) fn turned(
    alloc: Global,
    returns: Option<Kind>,
    effect: &Effect,
    state: &KindState,
) -> Result<Option<KindState>, Memory>
    ensures { IfOk result (λ after. after ≡ turned returns effect.now state.now) }
{
    match effect {
        Effect::Loads(kind, place) => loaded(alloc, *kind, *place, state),
        Effect::Stores(kind, place) => popped(alloc, *kind, *place, state),
        Effect::Counts(place) => counted(alloc, *place, state),
        Effect::Moves(how) => {
            let stack = rearranged(alloc, *how, state.stack.as_slice())?;
            with_stack(alloc, &state.locals, stack)
        }
        Effect::Exchanges { taken, pushed } => {
            let stack = exchanged(
                alloc,
                taken.as_slice(),
                pushed.as_slice(),
                state.stack.as_slice(),
            )?;
            with_stack(alloc, &state.locals, stack)
        }
        Effect::Leaves(kind) => left(alloc, returns, *kind, state),
    }
}

/// The locals and the stack after an effect, where a frame takes it.
pub(crate) fn accepted(
    alloc: Global,
    frame: &Frame,
    effect: &Effect,
    state: &KindState,
) -> Result<Option<KindState>, Memory>
    ensures { IfOk result (λ after. after ≡ accepted frame.now effect.now state.now) }
{
    if is_wrong_depth(frame.max_stack, effect, state.stack.as_slice()) {
        return Ok(None);
    }
    turned(alloc, frame.returns, effect, state)
}
