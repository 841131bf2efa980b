ghost use Rattle.std.specs.Prelude.{◌≡◌, ◌<◌, ◌↔◌, ◌⊎◌, ℕ, false, length, IfOk, IsTrue};
ghost use Rattle.ja_sets.specs.Sets.{Has, Lacks};
ghost use Rattle.ja_network.specs.Cells.{empty_state, Gains};

use crate::cell::Action;
use ja_base::{Memory, Seq};
use ja_sets::TokenSet;
use std::alloc::Global;

/// What a cell has.
#[derive(Drop)]
pub struct CellState {
    /// Its tokens.
    pub has: TokenSet,
    /// Those of them that have not been worked on.
    pub fresh: TokenSet,
    /// What is done with each token.
    pub links: Seq<Action>,
    /// Whether the cell waits for its turn.
    pub queued: bool,
}

/// A cell without tokens and links, for tokens below `n`.
pub(crate) fn empty_state(alloc: Global, n: u32) -> Result<CellState, Memory>
    ensures { IfOk result (λ state. state ≡ empty_state n) }
{
    let has = TokenSet::new(alloc, n)?;
    let fresh = TokenSet::new(alloc, n)?;
    Ok(CellState {
        has,
        fresh,
        links: Seq::new(alloc),
        queued: false,
    })
}

/// Gives a cell a token, and says whether it is fresh.
pub(crate) fn gain_one(state: &mut CellState, token: u32) -> bool
    requires has { token < length state.old.has }
    requires fresh { token < length state.old.fresh }
    ensures gained { Gains state.old state.new (λ t. t ≡ token) }
    ensures new { IsTrue result ↔ Lacks state.old.has token }
{
    let new = state.has.add(token);
    if new {
        state.fresh.add(token);
    }
    new
}

/// Gives a cell each token of a set below `n`, and says whether one is fresh.
pub(crate) fn gain(state: &mut CellState, n: u32, set: &TokenSet) -> bool
    requires has { length state.old.has ≡ n }
    requires fresh { length state.old.fresh ≡ n }
    requires set { length set.now ≡ n }
    ensures gained { Gains state.old state.new (Has set.now) }
    ensures old { result ≡ false → (t : ℕ) → Has set.now t → Has state.old.has t }
{
    let mut changed = false;
    let mut from = 0;
    for _i in 0..n {
        match set.next_from(from) {
            Some(token) => {
                changed |= gain_one(state, token);
                from = token + 1;
            }
            None => break,
        }
    }
    changed
}
