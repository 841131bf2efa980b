ghost use Rattle.std.specs.Prelude.{◌≡◌, ℕ, ◌+◌, ◌<◌, ◌≤◌, ◌∷◌, [], true, false, ◌&&◌, nat_le, nat_lt, length, IfOk};
ghost use Rattle.ja_base.specs.declared.java_type.Kind.TheVariants.{R};
ghost use Rattle.ja_kinds.specs.declared.state.State.TheVariants.{Known};
ghost use Rattle.ja_kinds.specs.Effect.{IsOneOf, LeadsTo, targets_of};
ghost use Rattle.ja_code.specs.Behaviour.{goes_on, branches};
ghost use Rattle.ja_kinds.specs.Solution.{HandledAt, after, thrown};
ghost use Rattle.ja_kinds.specs.InnerSolving.{state_at, IsWide, AreWide, Catches, Hands, Sweeps};

use crate::effect::Effect;
use crate::frame::Frame;
use crate::merge::{is_below, merge};
use crate::state::{KindState, State};
use crate::step::{accepted, copy, one};
use ja_base::{Kind, Memory};
use ja_code::{Behaviour, Code, RawHandler, RawInstr};
use ja_pool::Pool;
use std::alloc::Global;

/// Hands a state to a place, if it is one of the code, and says whether what is known there changes; then
/// the place is marked.
pub(crate) fn raise(
    alloc: Global,
    max_locals: u32,
    states: &mut [State],
    dirty: &mut [bool],
    place: u64,
    state: &State,
) -> Result<bool, Memory>
    requires states { AreWide max_locals states.old }
    requires dirty { length dirty.old ≡ length states.old }
    requires state { IsWide max_locals state.now }
    ensures { IfOk result (Hands max_locals (λ p. p ≡ place) state.now states.old states.new dirty.old dirty.new) }
{
    if place >= states.len() as u64 {
        return Ok(false);
    }
    let at = place as usize;
    if is_below(state, &states[at]) {
        return Ok(false);
    }
    let merged = merge(alloc, &states[at], state)?;
    states[at] = merged;
    dirty[at] = true;
    Ok(true)
}

/// Hands a state to some places.
fn raise_all(
    alloc: Global,
    max_locals: u32,
    states: &mut [State],
    dirty: &mut [bool],
    places: &[u64],
    state: &State,
) -> Result<bool, Memory>
    requires states { AreWide max_locals states.old }
    requires dirty { length dirty.old ≡ length states.old }
    requires state { IsWide max_locals state.now }
    ensures { IfOk result (Hands max_locals (λ p. IsOneOf p places.now) state.now states.old states.new dirty.old dirty.new) }
{
    let mut changed = false;
    for place in places {
        let rose = raise(alloc, max_locals, states, dirty, *place, state)?;
        changed |= rose;
    }
    Ok(changed)
}

/// What an instruction hands on: to the places where it may go next, and to its handlers, where it has any.
#[derive(Drop)]
pub(crate) struct Outcome {
    pub after: State,
    pub thrown: State,
}

/// What is known at a handler of an instruction that takes this state; nothing is copied where none is
/// there.
fn exception(alloc: Global, covered: bool, state: &KindState) -> Result<State, Memory>
    ensures { covered ≡ true → IfOk result (λ s. s ≡ Known (record { locals = state.now.locals; stack = R ∷ [] })) }
{
    if !covered {
        return Ok(State::Unreached);
    }
    let locals = copy(alloc, &state.locals)?;
    let stack = one(alloc, Kind::R)?;
    Ok(State::Known(KindState { locals, stack }))
}

/// What an instruction hands on where this is known before it.
fn outcome_known(
    alloc: Global,
    frame: &Frame,
    effect: &Effect,
    covered: bool,
    state: &KindState,
) -> Result<Outcome, Memory>
    ensures after { IfOk result (λ h. h.after ≡ after frame.now effect.now (Known state.now)) }
    ensures thrown { covered ≡ true → IfOk result (λ h. h.thrown ≡ thrown frame.now effect.now (Known state.now)) }
{
    let turned = accepted(alloc, frame, effect, state)?;
    match turned {
        None => Ok(Outcome {
            after: State::Clash,
            thrown: State::Clash,
        }),
        Some(turned) => {
            let thrown = exception(alloc, covered, state)?;
            Ok(Outcome {
                after: State::Known(turned),
                thrown,
            })
        }
    }
}

/// What an instruction hands on in this state.
fn outcome_of(
    alloc: Global,
    frame: &Frame,
    effect: &Effect,
    covered: bool,
    state: &State,
) -> Result<Outcome, Memory>
    ensures after { IfOk result (λ h. h.after ≡ after frame.now effect.now state.now) }
    ensures thrown { covered ≡ true → IfOk result (λ h. h.thrown ≡ thrown frame.now effect.now state.now) }
{
    match state {
        State::Unreached => Ok(Outcome {
            after: State::Unreached,
            thrown: State::Unreached,
        }),
        State::Known(known) => outcome_known(alloc, frame, effect, covered, known),
        State::Clash => Ok(Outcome {
            after: State::Clash,
            thrown: State::Clash,
        }),
    }
}

/// What an instruction hands on in the state at its place.
pub(crate) fn outcome_at(
    alloc: Global,
    frame: &Frame,
    effect: &Effect,
    covered: bool,
    states: &[State],
    pc: u32,
) -> Result<Outcome, Memory>
    ensures after { IfOk result (λ h. h.after ≡ after frame.now effect.now (state_at states.now pc)) }
    ensures thrown { covered ≡ true → IfOk result (λ h. h.thrown ≡ thrown frame.now effect.now (state_at states.now pc)) }
{
    if pc as usize >= states.len() {
        return outcome_of(alloc, frame, effect, covered, &State::Unreached);
    }
    outcome_of(alloc, frame, effect, covered, &states[pc as usize])
}

/// Hands a state to the targets of an instruction.
fn raise_targets(
    alloc: Global,
    max_locals: u32,
    states: &mut [State],
    dirty: &mut [bool],
    instr: &RawInstr,
    behaviour: Behaviour,
    state: &State,
) -> Result<bool, Memory>
    requires states { AreWide max_locals states.old }
    requires dirty { length dirty.old ≡ length states.old }
    requires state { IsWide max_locals state.now }
    ensures { IfOk result (Hands max_locals (λ p. IsOneOf p (targets_of behaviour instr.now)) state.now states.old states.new dirty.old dirty.new) }
{
    if !behaviour.branches() {
        return Ok(false);
    }
    raise_all(
        alloc,
        max_locals,
        states,
        dirty,
        instr.operands.as_slice(),
        state,
    )
}

/// Hands a state to the next instruction, where it may come after this one.
fn raise_next(
    alloc: Global,
    max_locals: u32,
    states: &mut [State],
    dirty: &mut [bool],
    instr: &RawInstr,
    behaviour: Behaviour,
    state: &State,
) -> Result<bool, Memory>
    requires states { AreWide max_locals states.old }
    requires dirty { length dirty.old ≡ length states.old }
    requires state { IsWide max_locals state.now }
    ensures { IfOk result (Hands max_locals (λ p. (goes_on behaviour ≡ true) × (p ≡ instr.now.pc + instr.now.length)) state.now states.old states.new dirty.old dirty.new) }
{
    if !behaviour.goes_on() {
        return Ok(false);
    }
    let next = u64::from(instr.pc) + u64::from(instr.length);
    raise(alloc, max_locals, states, dirty, next, state)
}

/// Hands a state to each place where the normal end of an instruction leads.
pub(crate) fn raise_after(
    alloc: Global,
    max_locals: u32,
    states: &mut [State],
    dirty: &mut [bool],
    instr: &RawInstr,
    behaviour: Behaviour,
    state: &State,
) -> Result<bool, Memory>
    requires states { AreWide max_locals states.old }
    requires dirty { length dirty.old ≡ length states.old }
    requires state { IsWide max_locals state.now }
    ensures { IfOk result (Hands max_locals (λ p. LeadsTo instr.now behaviour p) state.now states.old states.new dirty.old dirty.new) }
{
    let branched = raise_targets(alloc, max_locals, states, dirty, instr, behaviour, state)?;
    let went_on = raise_next(alloc, max_locals, states, dirty, instr, behaviour, state)?;
    Ok(branched | went_on)
}

/// Whether the range of an entry of the exception table has the pc.
fn covers(row: RawHandler, pc: u32) -> bool
    ensures test { result ≡ (nat_le row.start pc && nat_lt pc row.end) }
    ensures inside { result ≡ true → (row.start ≤ pc) × (pc < row.end) }
    ensures outside { result ≡ false → (place : ℕ) → Catches row pc place → ⊥ }
{
    u32::from(row.start) <= pc && pc < u32::from(row.end)
}

/// Whether an instruction has a handler.
pub(crate) fn is_covered(rows: &[RawHandler], pc: u32) -> bool
    ensures { result ≡ false → (place : ℕ) → HandledAt rows.now pc place → ⊥ }
{
    for row in rows {
        if covers(*row, pc) {
            return true;
        }
    }
    false
}

/// Hands a state to the handler of an entry of the exception table, where its range has the pc.
fn raise_handler(
    alloc: Global,
    max_locals: u32,
    states: &mut [State],
    dirty: &mut [bool],
    row: RawHandler,
    pc: u32,
    state: &State,
) -> Result<bool, Memory>
    requires states { AreWide max_locals states.old }
    requires dirty { length dirty.old ≡ length states.old }
    requires state { IsWide max_locals state.now }
    ensures { IfOk result (Hands max_locals (λ p. Catches row pc p) state.now states.old states.new dirty.old dirty.new) }
{
    if !covers(row, pc) {
        return Ok(false);
    }
    raise(
        alloc,
        max_locals,
        states,
        dirty,
        u64::from(row.handler),
        state,
    )
}

/// Hands a state to each handler whose range has the pc.
pub(crate) fn raise_handlers(
    alloc: Global,
    max_locals: u32,
    states: &mut [State],
    dirty: &mut [bool],
    rows: &[RawHandler],
    pc: u32,
    state: &State,
) -> Result<bool, Memory>
    requires states { AreWide max_locals states.old }
    requires dirty { length dirty.old ≡ length states.old }
    requires state { IsWide max_locals state.now }
    ensures { IfOk result (Hands max_locals (λ p. HandledAt rows.now pc p) state.now states.old states.new dirty.old dirty.new) }
{
    let mut changed = false;
    for row in rows {
        let rose = raise_handler(alloc, max_locals, states, dirty, *row, pc, state)?;
        changed |= rose;
    }
    Ok(changed)
}
