ghost use Rattle.std.specs.Prelude.{◌≡◌, length, IfOk};
ghost use Rattle.ja_kinds.specs.Frame.{parameter_words};
ghost use Rattle.ja_kinds.specs.Solution.{is_narrow, falls_off, is_too_large, fault_at};
ghost use Rattle.ja_kinds.specs.InnerSolving.{state_at, IsFaultAt, IsFirstOf};
ghost use Rattle.ja_kinds.specs.declared.state.State.TheVariants.{Known};

use crate::effect::Effect;
use crate::fault::KindFault;
use crate::frame::Frame;
use crate::reading::effect_of;
use crate::stack::words;
use crate::state::{KindState, State};
use crate::step::{is_wrong_depth, turned};
use ja_base::{MAX_FRAME_VALUES, Memory};
use ja_code::{Behaviour, RawInstr};
use ja_pool::Pool;
use std::alloc::Global;

/// Whether the parameters do not fit the locals, at the first instruction.
fn is_narrow(frame: &Frame, pc: u32) -> bool
    ensures { result ≡ is_narrow frame.now pc }
{
    pc == 0 && u64::from(frame.max_locals) < words(frame.parameters.as_slice())
}

/// Whether an instruction goes on past the end of the code.
fn falls_off(frame: &Frame, instr: &RawInstr, behaviour: Behaviour) -> bool
    ensures { result ≡ falls_off frame.now instr.now behaviour }
{
    let next = u64::from(instr.pc) + u64::from(instr.length);
    behaviour.goes_on() && next == u64::from(frame.size)
}

/// Whether the locals and the stack have too many words together.
pub(crate) fn is_too_large(frame: &Frame) -> bool
    ensures { result ≡ is_too_large frame.now }
{
    u64::from(frame.max_locals) + u64::from(frame.max_stack) > u64::from(MAX_FRAME_VALUES)
}

/// The first fault of an instruction where this is known before it.
fn fault_known(
    alloc: Global,
    frame: &Frame,
    instr: &RawInstr,
    behaviour: Behaviour,
    effect: &Effect,
    state: &KindState,
) -> Result<Option<KindFault>, Memory>
    ensures { IfOk result (λ fault. fault ≡ fault_at frame.now instr.now behaviour effect.now (Known state.now)) }
{
    let pc = instr.pc;
    if is_wrong_depth(frame.max_stack, effect, state.stack.as_slice()) {
        return Ok(Some(KindFault::StackDepth { pc }));
    }
    let after = turned(alloc, frame.returns, effect, state)?;
    if after.is_none() || is_narrow(frame, pc) {
        return Ok(Some(KindFault::KindClash { pc }));
    }
    if falls_off(frame, instr, behaviour) {
        return Ok(Some(KindFault::FallsOff { pc }));
    }
    Ok(None)
}

/// The first fault of an instruction in a state.
fn fault_at(
    alloc: Global,
    frame: &Frame,
    instr: &RawInstr,
    behaviour: Behaviour,
    effect: &Effect,
    state: &State,
) -> Result<Option<KindFault>, Memory>
    ensures { IfOk result (λ fault. fault ≡ fault_at frame.now instr.now behaviour effect.now state.now) }
{
    match state {
        State::Unreached => Ok(None),
        State::Known(known) => fault_known(alloc, frame, instr, behaviour, effect, known),
        State::Clash => Ok(Some(KindFault::KindClash { pc: instr.pc })),
    }
}

/// The first fault of an instruction, in the state at its place.
fn fault_in(
    alloc: Global,
    pool: &Pool,
    frame: &Frame,
    instr: &RawInstr,
    states: &[State],
) -> Result<Option<KindFault>, Memory>
    ensures { IfOk result (IsFaultAt pool.now frame.now (state_at states.now) instr.now) }
{
    if instr.pc as usize >= states.len() {
        return Ok(None);
    }
    let Some(behaviour) = instr.opcode.behaviour() else {
        return Ok(None);
    };
    let found = effect_of(alloc, pool, instr, behaviour)?;
    let Some(effect) = found else {
        return Ok(None);
    };
    fault_at(
        alloc,
        frame,
        instr,
        behaviour,
        &effect,
        &states[instr.pc as usize],
    )
}

/// The first fault of instructions in their order.
pub(crate) fn first_fault(
    alloc: Global,
    pool: &Pool,
    frame: &Frame,
    instrs: &[RawInstr],
    states: &[State],
) -> Result<Option<KindFault>, Memory>
    ensures { IfOk result (IsFirstOf pool.now frame.now (state_at states.now) instrs.now) }
{
    for instr in instrs {
        let found = fault_in(alloc, pool, frame, instr, states)?;
        if let Some(fault) = found {
            return Ok(Some(fault));
        }
    }
    Ok(None)
}
