ghost use Rattle.std.specs.Prelude.{◌≡◌, ◌<◌, length, replicate, IfOk};
ghost use Rattle.ja_kinds.specs.declared.state.State.TheVariants.{Unreached};
ghost use Rattle.ja_pool.specs.Table.{Table};
ghost use Rattle.ja_code.specs.declared.code.Code.{Code};
ghost use Rattle.ja_kinds.specs.Effect.{IsOneOf};
ghost use Rattle.ja_kinds.specs.Solution.{IsLeast};
ghost use Rattle.ja_kinds.specs.InnerSolving.{state_at, AreWide, AreApart, AreClean, Spreads, Visits, Sweeps, AreOnTheWay};

use crate::entry::entry_state;
use crate::frame::Frame;
use crate::reading::effect_of;
use crate::solve::{is_covered, outcome_at, raise, raise_after, raise_handlers};
use crate::state::State;
use ja_base::Memory;
use ja_code::{Code, RawInstr};
use ja_pool::Pool;
use std::alloc::Global;

/// Hands on what an instruction hands on, and says whether what is known changes.
fn spread(
    alloc: Global,
    pool: &Pool,
    code: &Code,
    frame: &Frame,
    instr: &RawInstr,
    states: &mut [State],
    dirty: &mut [bool],
) -> Result<bool, Memory>
    requires states { AreWide frame.now.max_locals states.old }
    requires dirty { length dirty.old ≡ length states.old }
    requires size { length states.old ≡ frame.now.size }
    ensures { IfOk result (Spreads pool.now code.now frame.now instr.now states.old states.new dirty.old dirty.new) }
{
    let Some(behaviour) = instr.opcode.behaviour() else {
        return Ok(false);
    };
    let found = effect_of(alloc, pool, instr, behaviour)?;
    let Some(effect) = found else {
        return Ok(false);
    };
    let rows = code.handlers.as_slice();
    let covered = is_covered(rows, instr.pc);
    let outcome = outcome_at(alloc, frame, &effect, covered, states, instr.pc)?;
    let most = frame.max_locals;
    let went_on = raise_after(alloc, most, states, dirty, instr, behaviour, &outcome.after)?;
    if !covered {
        return Ok(went_on);
    }
    let threw = raise_handlers(alloc, most, states, dirty, rows, instr.pc, &outcome.thrown)?;
    Ok(went_on | threw)
}

/// Unmarks an instruction, and hands on what it hands on, if it is marked.
fn visit(
    alloc: Global,
    pool: &Pool,
    code: &Code,
    frame: &Frame,
    instr: &RawInstr,
    states: &mut [State],
    dirty: &mut [bool],
) -> Result<bool, Memory>
    requires states { AreWide frame.now.max_locals states.old }
    requires dirty { length dirty.old ≡ length states.old }
    requires size { length states.old ≡ frame.now.size }
    requires apart { AreApart code.now.instrs }
    requires member { IsOneOf instr.now code.now.instrs }
    requires clean { AreClean pool.now code.now frame.now states.old dirty.old }
    ensures { IfOk result (Visits pool.now code.now frame.now instr.now states.old states.new dirty.old dirty.new) }
{
    let pc = instr.pc as usize;
    if pc >= dirty.len() {
        return Ok(false);
    }
    if !dirty[pc] {
        return Ok(false);
    }
    dirty[pc] = false;
    spread(alloc, pool, code, frame, instr, states, dirty)
}

/// Visits each instruction in pc order, and says whether what is known changes.
fn sweep(
    alloc: Global,
    pool: &Pool,
    code: &Code,
    frame: &Frame,
    states: &mut [State],
    dirty: &mut [bool],
) -> Result<bool, Memory>
    requires states { AreWide frame.now.max_locals states.old }
    requires dirty { length dirty.old ≡ length states.old }
    requires size { length states.old ≡ frame.now.size }
    requires apart { AreApart code.now.instrs }
    requires clean { AreClean pool.now code.now frame.now states.old dirty.old }
    ensures { IfOk result (Sweeps pool.now code.now frame.now code.now.instrs states.old states.new dirty.old dirty.new) }
{
    let mut changed = false;
    for instr in code.instrs.as_slice() {
        let rose = visit(alloc, pool, code, frame, instr, states, dirty)?;
        changed |= rose;
    }
    Ok(changed)
}

/// A list of places that nothing leads to.
fn unreached(alloc: Global, size: u32) -> Result<Vec<State>, Memory>
    ensures { IfOk result (λ states. states.items ≡ replicate size Unreached) }
{
    let mut states = Vec::new(alloc);
    for _ in 0..size {
        states.push(State::Unreached)?;
    }
    Ok(states)
}

/// Marks the start of the code, where the entry leads.
fn enter(
    alloc: Global,
    frame: &Frame,
    states: &mut [State],
    dirty: &mut [bool],
) -> Result<bool, Memory>
    requires some { 0 < frame.now.size }
    requires states { states.old ≡ replicate frame.now.size Unreached }
    requires dirty { length dirty.old ≡ length states.old }
    ensures { (pool : Table) (code : Code) → IfOk result (λ _. AreOnTheWay pool code frame.now states.new dirty.new) }
{
    let entry = entry_state(alloc, frame)?;
    raise(alloc, frame.max_locals, states, dirty, 0, &entry)
}

/// Sweeps over the code until nothing changes.
fn settle(
    alloc: Global,
    pool: &Pool,
    code: &Code,
    frame: &Frame,
    states: &mut [State],
    dirty: &mut [bool],
) -> Result<(), Memory>
    requires way { AreOnTheWay pool.now code.now frame.now states.old dirty.old }
    requires apart { AreApart code.now.instrs }
    ensures least { IfOk result (λ _. IsLeast pool.now code.now frame.now (state_at states.new)) }
    ensures size { IfOk result (λ _. length states.new ≡ length states.old) }
{
    let mut changed = true;
    while changed {
        changed = sweep(alloc, pool, code, frame, states, dirty)?;
    }
    Ok(())
}

/// The same from the entry on.
fn fill(
    alloc: Global,
    pool: &Pool,
    code: &Code,
    frame: &Frame,
    states: &mut [State],
    dirty: &mut [bool],
) -> Result<(), Memory>
    requires some { 0 < frame.now.size }
    requires apart { AreApart code.now.instrs }
    requires states { states.old ≡ replicate frame.now.size Unreached }
    requires dirty { length dirty.old ≡ length states.old }
    ensures least { IfOk result (λ _. IsLeast pool.now code.now frame.now (state_at states.new)) }
    ensures size { IfOk result (λ _. length states.new ≡ frame.now.size) }
{
    let _entered = enter(alloc, frame, states, dirty)?;
    settle(alloc, pool, code, frame, states, dirty)
}

/// What is known at each place of the code: the least solution.
pub(crate) fn solve(
    alloc: Global,
    pool: &Pool,
    code: &Code,
    frame: &Frame,
) -> Result<Vec<State>, Memory>
    requires some { 0 < frame.now.size }
    requires apart { AreApart code.now.instrs }
    ensures { IfOk result (λ states. IsLeast pool.now code.now frame.now (state_at states.items)) }
{
    let mut states = unreached(alloc, frame.size)?;
    let mut dirty = vec![in alloc; false; frame.size as usize]?;
    fill(
        alloc,
        pool,
        code,
        frame,
        states.as_mut_slice(),
        dirty.as_mut_slice(),
    )?;
    Ok(states)
}
