ghost use Rattle.std.specs.Prelude.{◌≡◌, ◌++◌, IfOk};
ghost use Rattle.ja_kinds.specs.Frame.{same_kinds, words, top, under};
ghost use Rattle.ja_kinds.specs.Effect.{top_words, under_words, moved, moved_words, exchanged, block, rearranged};

use crate::locals::same_kind;
use crate::state::KindList;
use ja_base::{Kind, Memory};
use ja_code::Rearrangement;
use std::alloc::Global;

/// Whether two lists have the same kinds.
pub(crate) fn same_kinds(kinds: &[Kind], others: &[Kind]) -> bool
    ensures { result ≡ same_kinds kinds.now others.now }
{
    if kinds.len() != others.len() {
        return false;
    }
    for i in 0..kinds.len() {
        if !same_kind(kinds[i], others[i]) {
            return false;
        }
    }
    true
}

/// The words of values.
pub(crate) fn words(values: &[Kind]) -> u64
    ensures { result ≡ words values.now }
{
    let mut total = 0;
    for kind in values {
        total += u64::from(kind.words());
    }
    total
}

/// The values under so many on top, and those on top.
fn split(stack: &[Kind], count: usize) -> (&[Kind], &[Kind])
    ensures low { result.0.now ≡ under count stack.now }
    ensures high { result.1.now ≡ top count stack.now }
{
    stack.split_at(stack.len().saturating_sub(count))
}

/// One list behind another.
pub(crate) fn joined(alloc: Global, front: &[Kind], back: &[Kind]) -> Result<KindList, Memory>
    ensures { IfOk result (λ list. list ≡ front.now ++ back.now) }
{
    let mut list = Vec::from_slice(alloc, front)?;
    list.extend_from_slice(back)?;
    Ok(KindList::from_vec(list))
}

/// The stack with values of some kinds in place of those on top; none where these are of other kinds.
pub(crate) fn exchanged(
    alloc: Global,
    taken: &[Kind],
    pushed: &[Kind],
    stack: &[Kind],
) -> Result<Option<KindList>, Memory>
    ensures { IfOk result (λ after. after ≡ exchanged taken.now pushed.now stack.now) }
{
    let (low, high) = split(stack, taken.len());
    if !same_kinds(high, taken) {
        return Ok(None);
    }
    let after = joined(alloc, low, pushed)?;
    Ok(Some(after))
}

/// The words of so many values on top.
fn top_words_of(stack: &[Kind], count: usize) -> u64
    ensures { result ≡ words (top count stack.now) }
{
    let (_, high) = split(stack, count);
    words(high)
}

/// How many values on top take so many words, 0 to 2; none where that would split a value.
fn block(stack: &[Kind], count: u64) -> Option<usize>
    ensures { result ≡ block count stack.now }
{
    if top_words_of(stack, 0) == count {
        return Some(0);
    }
    if top_words_of(stack, 1) == count {
        return Some(1);
    }
    if top_words_of(stack, 2) == count {
        return Some(2);
    }
    None
}

/// The words of the block that is moved from the top.
pub(crate) fn top_words(how: Rearrangement) -> u64
    ensures { result ≡ top_words how }
{
    match how {
        Rearrangement::Pop => 1,
        Rearrangement::Pop2 => 2,
        Rearrangement::Dup => 1,
        Rearrangement::DupX1 => 1,
        Rearrangement::DupX2 => 1,
        Rearrangement::Dup2 => 2,
        Rearrangement::Dup2X1 => 2,
        Rearrangement::Dup2X2 => 2,
        Rearrangement::Swap => 1,
    }
}

/// The words of the block under it that is moved too.
pub(crate) fn under_words(how: Rearrangement) -> u64
    ensures { result ≡ under_words how }
{
    match how {
        Rearrangement::Pop => 0,
        Rearrangement::Pop2 => 0,
        Rearrangement::Dup => 0,
        Rearrangement::DupX1 => 1,
        Rearrangement::DupX2 => 2,
        Rearrangement::Dup2 => 0,
        Rearrangement::Dup2X1 => 1,
        Rearrangement::Dup2X2 => 2,
        Rearrangement::Swap => 1,
    }
}

/// The words that are pushed in place of both.
pub(crate) fn moved_words(how: Rearrangement) -> u64
    ensures { result ≡ moved_words how }
{
    match how {
        Rearrangement::Pop => 0,
        Rearrangement::Pop2 => 0,
        Rearrangement::Dup => 2,
        Rearrangement::DupX1 => 3,
        Rearrangement::DupX2 => 4,
        Rearrangement::Dup2 => 4,
        Rearrangement::Dup2X1 => 5,
        Rearrangement::Dup2X2 => 6,
        Rearrangement::Swap => 2,
    }
}

/// The upper block, the lower one, and the upper one again.
fn copied(alloc: Global, lower: &[Kind], upper: &[Kind]) -> Result<KindList, Memory>
    ensures { IfOk result (λ list. list ≡ upper.now ++ (lower.now ++ upper.now)) }
{
    let both = joined(alloc, lower, upper)?;
    joined(alloc, upper, both.as_slice())
}

/// What is pushed in place of the two blocks.
fn moved(
    alloc: Global,
    how: Rearrangement,
    lower: &[Kind],
    upper: &[Kind],
) -> Result<KindList, Memory>
    ensures { IfOk result (λ list. list ≡ moved how lower.now upper.now) }
{
    match how {
        Rearrangement::Pop => Ok(KindList::new(alloc)),
        Rearrangement::Pop2 => Ok(KindList::new(alloc)),
        Rearrangement::Dup => copied(alloc, lower, upper),
        Rearrangement::DupX1 => copied(alloc, lower, upper),
        Rearrangement::DupX2 => copied(alloc, lower, upper),
        Rearrangement::Dup2 => copied(alloc, lower, upper),
        Rearrangement::Dup2X1 => copied(alloc, lower, upper),
        Rearrangement::Dup2X2 => copied(alloc, lower, upper),
        Rearrangement::Swap => joined(alloc, upper, lower),
    }
}

/// The stack after words are moved; none where that would split a value.
pub(crate) fn rearranged(
    alloc: Global,
    how: Rearrangement,
    stack: &[Kind],
) -> Result<Option<KindList>, Memory>
    ensures { IfOk result (λ after. after ≡ rearranged how stack.now) }
{
    let Some(upper) = block(stack, top_words(how)) else {
        return Ok(None);
    };
    let (rest, high) = split(stack, upper);
    let Some(lower) = block(rest, under_words(how)) else {
        return Ok(None);
    };
    let (low, middle) = split(rest, lower);
    let pushed = moved(alloc, how, middle, high)?;
    let after = joined(alloc, low, pushed.as_slice())?;
    Ok(Some(after))
}
