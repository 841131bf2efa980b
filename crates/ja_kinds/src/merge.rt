ghost use Rattle.std.specs.Prelude.{◌≡◌, length, IfOk};
ghost use Rattle.ja_kinds.specs.declared.state.State.TheVariants.{Known};
ghost use Rattle.ja_kinds.specs.InnerMerge.{are_below, is_below, met_kind, met, merge};

use crate::locals::same_kind;
use crate::stack::same_kinds;
use crate::state::{KindList, KindState, State};
use crate::step::copy;
use ja_base::{Kind, Memory};
use std::alloc::Global;

/// Whether each local of one list may be taken for that of another.
fn are_below(kinds: &[Kind], others: &[Kind]) -> bool
    ensures { result ≡ are_below kinds.now others.now }
{
    if kinds.len() != others.len() {
        return false;
    }
    for i in 0..kinds.len() {
        if !same_kind(kinds[i], others[i]) && !same_kind(others[i], Kind::T) {
            return false;
        }
    }
    true
}

/// Whether one state says as much as another, or more.
pub(crate) fn is_below(state: &State, other: &State) -> bool
    ensures { result ≡ is_below state.now other.now }
{
    match state {
        State::Unreached => true,
        State::Known(state) => match other {
            State::Unreached => false,
            State::Known(other) => {
                are_below(state.locals.as_slice(), other.locals.as_slice())
                    && same_kinds(state.stack.as_slice(), other.stack.as_slice())
            }
            State::Clash => true,
        },
        State::Clash => matches!(other, State::Clash),
    }
}

/// The kind of two merged locals.
fn met_kind(kind: Kind, other: Kind) -> Kind
    ensures { result ≡ met_kind kind other }
{
    if same_kind(kind, other) {
        kind
    } else {
        Kind::T
    }
}

/// Two lists of as many locals merged.
fn met(alloc: Global, kinds: &[Kind], others: &[Kind]) -> Result<KindList, Memory>
    requires { length kinds.now ≡ length others.now }
    ensures { IfOk result (λ list. list ≡ met kinds.now others.now) }
{
    let mut list = KindList::new(alloc);
    for i in 0..kinds.len() {
        list.push(met_kind(kinds[i], others[i]))?;
    }
    Ok(list)
}

/// A copy of what is known.
fn copy_known(alloc: Global, state: &KindState) -> Result<State, Memory>
    ensures { IfOk result (λ copied. copied ≡ Known state.now) }
{
    let locals = copy(alloc, &state.locals)?;
    let stack = copy(alloc, &state.stack)?;
    Ok(State::Known(KindState { locals, stack }))
}

/// A copy of a state.
fn copy_state(alloc: Global, state: &State) -> Result<State, Memory>
    ensures { IfOk result (λ copied. copied ≡ state.now) }
{
    match state {
        State::Unreached => Ok(State::Unreached),
        State::Known(state) => copy_known(alloc, state),
        State::Clash => Ok(State::Clash),
    }
}

/// What is known on two ways, merged.
fn merge_known(alloc: Global, state: &KindState, other: &KindState) -> Result<State, Memory>
    ensures { IfOk result (λ merged. merged ≡ merge (Known state.now) (Known other.now)) }
{
    if state.locals.len() != other.locals.len() {
        return Ok(State::Clash);
    }
    if !same_kinds(state.stack.as_slice(), other.stack.as_slice()) {
        return Ok(State::Clash);
    }
    let locals = met(alloc, state.locals.as_slice(), other.locals.as_slice())?;
    let stack = copy(alloc, &state.stack)?;
    Ok(State::Known(KindState { locals, stack }))
}

/// What is known where two ways meet.
pub(crate) fn merge(alloc: Global, state: &State, other: &State) -> Result<State, Memory>
    ensures { IfOk result (λ merged. merged ≡ merge state.now other.now) }
{
    match state {
        State::Unreached => copy_state(alloc, other),
        State::Known(state) => match other {
            State::Unreached => copy_known(alloc, state),
            State::Known(other) => merge_known(alloc, state, other),
            State::Clash => Ok(State::Clash),
        },
        State::Clash => Ok(State::Clash),
    }
}
