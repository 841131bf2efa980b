ghost use Rattle.std.specs.Prelude.{◌≡◌, ◌⊎◌, ◌+◌, ◌<◌, ◌^◌, List, Option, IfOk, IfErr, MatchResult};
ghost use Rattle.ja_kinds.specs.declared.fault.KindFault.{KindFault};
ghost use Rattle.ja_kinds.specs.declared.fault.KindFault.TheVariants as faults;
ghost use Rattle.ja_kinds.specs.declared.state.KindState.{KindState};
ghost use Rattle.ja_kinds.specs.Solution.{IsFault};
ghost use Rattle.ja_kinds.specs.Answer.{HasCode, known_of, known_at, AreKindsOf, IsFaultOf};
ghost use Rattle.ja_kinds.specs.InnerSolving.{state_at, AreApart, AreKindsIn};

use crate::fault::KindFault;
use crate::frame::Frame;
use crate::judge::{first_fault, is_too_large};
use crate::known::Kinds;
use crate::method::frame_of;
use crate::state::{KindState, State};
use crate::step::copy;
use crate::sweep::solve;
use ja_base::{Memory, Seq};
use ja_class::Class;
use ja_code::{Code, RawInstr};
use ja_pool::Pool;
use std::alloc::Global;

/// A copy of the locals and the stack, where they are known.
fn known_of(alloc: Global, state: &State) -> Result<Option<KindState>, Memory>
    ensures { IfOk result (λ known. known ≡ known_of state.now) }
{
    match state {
        State::Unreached => Ok(None),
        State::Known(known) => {
            let locals = copy(alloc, &known.locals)?;
            let stack = copy(alloc, &known.stack)?;
            Ok(Some(KindState { locals, stack }))
        }
        State::Clash => Ok(None),
    }
}

/// The same of the state at a place.
fn known_in(alloc: Global, states: &[State], pc: u32) -> Result<Option<KindState>, Memory>
    ensures { IfOk result (λ known. known ≡ known_of (state_at states.now pc)) }
{
    if pc as usize >= states.len() {
        return Ok(None);
    }
    known_of(alloc, &states[pc as usize])
}

/// What is known before each of some instructions, where it is reached.
fn known_at(
    alloc: Global,
    states: &[State],
    instrs: &[RawInstr],
) -> Result<Seq<Option<KindState>>, Memory>
    ensures { IfOk result (λ known. known ≡ known_at (state_at states.now) instrs.now) }
{
    let mut all = Seq::new(alloc);
    for instr in instrs {
        let known = known_in(alloc, states, instr.pc)?;
        all.push(known)?;
    }
    Ok(all)
}

/// What is known before each instruction of code, or its first fault.
fn judged(alloc: Global, pool: &Pool, code: &Code, frame: &Frame) -> Result<Kinds, KindFault>
    requires some { 0 < frame.now.size }
    requires fits { frame.now.max_locals + frame.now.max_stack < 2 ^ 32 }
    requires apart { AreApart code.now.instrs }
    ensures ok { IfOk result (AreKindsIn pool.now code.now frame.now) }
    ensures fault { IfErr result (λ found. (found ≡ faults.Memory) ⊎ IsFault pool.now code.now frame.now found) }
{
    if is_too_large(frame) {
        return Err(KindFault::FrameSize {
            values: frame.max_locals + frame.max_stack,
        });
    }
    let states = solve(alloc, pool, code, frame)?;
    let instrs = code.instrs.as_slice();
    let found = first_fault(alloc, pool, frame, instrs, states.as_slice())?;
    if let Some(fault) = found {
        return Err(fault);
    }
    let states = known_at(alloc, states.as_slice(), instrs)?;
    Ok(Kinds::of(states))
}

/// The kinds of the locals and of the values on the stack before each instruction of a method of a class
/// (JVM specification 2.6, 4.10.1), which has code.
///
/// They are the least solution: unequal locals that meet are not usable, and unequal stacks that meet clash.
/// A fault is the first: `FrameSize`, where the locals and the stack have more than 512 words together; else
/// that of the first instruction that is reached and has one, `StackDepth` before `KindClash` before
/// `FallsOff`.
pub fn kinds(alloc: Global, class: &Class, m: u32) -> Result<Kinds, KindFault>
    requires { HasCode class.now m }
    // What is answered are the kinds.
    ensures ok { IfOk result (AreKindsOf class.now m) }
    // The kinds are answered where there are any, unless memory runs out.
    ensures only { (kinds : List (Option KindState)) → AreKindsOf class.now m kinds →
        MatchResult result (λ found. found ≡ kinds) (λ fault. fault ≡ faults.Memory) }
    // An error is the first fault, or want of memory.
    ensures fault { IfErr result (λ found. (found ≡ faults.Memory) ⊎ IsFaultOf class.now m found) }
    // The first fault is the error, unless memory runs out.
    ensures first { (fault : KindFault) → IsFaultOf class.now m fault →
        MatchResult result (λ _. ⊥) (λ found. (found ≡ faults.Memory) ⊎ (found ≡ fault)) }
{
    let head = class.head.methods.at(u64::from(m));
    let method = class.methods.at(u64::from(m));
    let Some(code) = &method.code else {
        unreachable!();
    };
    let frame = frame_of(alloc, head, method, code)?;
    judged(alloc, &class.pool, code, &frame)
}
