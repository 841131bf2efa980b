ghost use Rattle.std.specs.Prelude.{◌≡◌, map, length, IfOk, IsTrue, option_copied};
ghost use Rattle.std.specs.List.{list_all};
ghost use Rattle.ja_kinds.specs.Frame.{top};
ghost use Rattle.ja_operations.specs.Shuffles.{have_words, first_move, move_on, move_after, no_move, shuffle_of};
ghost use Rattle.ja_operations.specs.InnerMoves.{move_seen, is_short};

use ja_base::{Kind, Memory, Numbers};
use ja_code::Rearrangement;
use ja_ir::Op;
use ja_kinds::KindState;
use std::alloc::Global;

/// A way to move values: the words of those that are taken, from the bottom, and which of them are
/// pushed, in order.
#[derive(Clone, Copy)]
pub(crate) struct WayToMove<'a> {
    takes: &'a [u64],
    pushes: &'a [u64],
}

/// Whether values have these words.
fn have_words(values: &[Kind], words: &[u64]) -> bool
    ensures { result ≡ have_words values.now words.now }
{
    if values.len() != words.len() {
        return false;
    }
    for place in 0..values.len() {
        if u64::from(values[place].words()) != words[place] {
            return false;
        }
    }
    true
}

/// Whether the topmost values of the stack have these words.
fn takes_from(stack: &[Kind], takes: &[u64]) -> bool
    ensures { result ≡ have_words (top (length takes.now) stack.now) takes.now }
{
    let (_, topmost) = stack.split_at(stack.len().saturating_sub(takes.len()));
    have_words(topmost, takes)
}

/// The operation of a move.
fn shuffle(alloc: Global, step: WayToMove<'_>) -> Result<Op, Memory>
    requires { IsTrue (is_short (move_seen step)) }
    ensures { IfOk result (λ op. op ≡ shuffle_of (move_seen step.entry)) }
{
    let pushes = Numbers::copy_of(alloc, step.pushes)?;
    Ok(Op::Shuffle {
        pops: step.takes.len() as u32,
        pushes,
    })
}

/// The first of the moves that is possible on the stack; where none is, one that moves nothing.
fn first_move(alloc: Global, stack: &[Kind], steps: &[WayToMove<'_>]) -> Result<Op, Memory>
    requires { IsTrue (list_all (λ step. is_short (move_seen step)) steps.now) }
    ensures { IfOk result (λ op. op ≡ shuffle_of (first_move stack.now (map move_seen steps.now))) }
{
    for step in steps {
        if takes_from(stack, step.takes) {
            return shuffle(alloc, *step);
        }
    }
    nothing(alloc)
}

/// The operation of a move that moves nothing.
fn nothing(alloc: Global) -> Result<Op, Memory>
    ensures { IfOk result (λ op. op ≡ shuffle_of no_move) }
{
    Ok(Op::Shuffle {
        pops: 0,
        pushes: Numbers::new(alloc),
    })
}

/// How an instruction that moves words moves values on this stack.
fn move_on(alloc: Global, how: Rearrangement, stack: &[Kind]) -> Result<Op, Memory>
    ensures { IfOk result (λ op. op ≡ shuffle_of (move_on how stack.now)) }
{
    match how {
        Rearrangement::Pop => first_move(alloc, stack, &[step(&[1], &[])]),
        Rearrangement::Pop2 => { first_move(alloc, stack, &[step(&[1, 1], &[]), step(&[2], &[])]) }
        Rearrangement::Dup => first_move(alloc, stack, &[step(&[1], &[0, 0])]),
        Rearrangement::DupX1 => first_move(alloc, stack, &[step(&[1, 1], &[1, 0, 1])]),
        Rearrangement::DupX2 => first_move(
            alloc,
            stack,
            &[step(&[1, 1, 1], &[2, 0, 1, 2]), step(&[2, 1], &[1, 0, 1])],
        ),
        Rearrangement::Dup2 => first_move(
            alloc,
            stack,
            &[step(&[1, 1], &[0, 1, 0, 1]), step(&[2], &[0, 0])],
        ),
        Rearrangement::Dup2X1 => first_move(
            alloc,
            stack,
            &[
                step(&[1, 1, 1], &[1, 2, 0, 1, 2]),
                step(&[1, 2], &[1, 0, 1]),
            ],
        ),
        Rearrangement::Dup2X2 => first_move(
            alloc,
            stack,
            &[
                step(&[1, 1, 1, 1], &[2, 3, 0, 1, 2, 3]),
                step(&[1, 1, 2], &[2, 0, 1, 2]),
                step(&[2, 1, 1], &[1, 2, 0, 1, 2]),
                step(&[2, 2], &[1, 0, 1]),
            ],
        ),
        Rearrangement::Swap => first_move(alloc, stack, &[step(&[1, 1], &[1, 0])]),
    }
}

/// A move that takes values of these words and pushes these of them.
fn step<'a>(takes: &'a [u64], pushes: &'a [u64]) -> WayToMove<'a>
    ensures { move_seen result ≡ record { takes = takes.now; pushes = pushes.now } }
{
    WayToMove { takes, pushes }
}

/// The shuffle of an instruction, by what is known before it.
pub(crate) fn shuffle_after(
    alloc: Global,
    how: Rearrangement,
    before: Option<&KindState>,
) -> Result<Op, Memory>
    ensures { IfOk result (λ op. op ≡ shuffle_of (move_after how (option_copied before.entry))) }
{
    match before {
        Some(before) => move_on(alloc, how, before.stack.as_slice()),
        None => nothing(alloc),
    }
}
