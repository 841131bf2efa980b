ghost use Rattle.std.specs.Prelude.{◌≡◌, ◌++◌, IfOk};
ghost use Rattle.ja_kinds.specs.Frame.{filled, parameter_words, entry_locals};
ghost use Rattle.ja_kinds.specs.Solution.{entry_state};

use crate::frame::Frame;
use crate::state::{KindList, KindState, State};
use ja_base::{Kind, Memory};
use std::alloc::Global;

/// Adds the words that a value of a kind fills.
fn fill(words: &mut Vec<Kind>, kind: Kind) -> Result<(), Memory>
    ensures { IfOk result (λ _. words.new.items ≡ words.old.items ++ filled kind) }
{
    match kind {
        Kind::P2 => words.extend_from_slice(&[Kind::P2, Kind::T])?,
        _ => words.push(kind)?,
    }
    Ok(())
}

/// The words that parameters fill.
fn parameter_words(alloc: Global, parameters: &[Kind]) -> Result<Vec<Kind>, Memory>
    ensures { IfOk result (λ words. words.items ≡ parameter_words parameters.now) }
{
    let mut words = Vec::new(alloc);
    for kind in parameters {
        fill(&mut words, *kind)?;
    }
    Ok(words)
}

/// The locals at the start.
fn entry_locals(alloc: Global, max_locals: u32, parameters: &[Kind]) -> Result<KindList, Memory>
    ensures { IfOk result (λ locals. locals ≡ entry_locals max_locals parameters.now) }
{
    let mut locals = parameter_words(alloc, parameters)?;
    let unusable = Vec::from_elem(alloc, Kind::T, max_locals as usize)?;
    locals.extend_from_slice(unusable.as_slice())?;
    locals.truncate(max_locals as usize);
    Ok(KindList::from_vec(locals))
}

/// What is known at the start.
pub(crate) fn entry_state(alloc: Global, frame: &Frame) -> Result<State, Memory>
    ensures { IfOk result (λ state. state ≡ entry_state frame.now) }
{
    let locals = entry_locals(alloc, frame.max_locals, frame.parameters.as_slice())?;
    Ok(State::Known(KindState {
        locals,
        stack: KindList::new(alloc),
    }))
}
