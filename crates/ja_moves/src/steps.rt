ghost use Rattle.std.specs.Prelude.{◌≡◌, ℕ, ◌<◌, [], slice_index_or};
ghost use Rattle.ja_sets.specs.Sets.{Has, HasPair};
ghost use Rattle.ja_matrix.specs.Matrices.{IsTable};
ghost use Rattle.ja_moves.specs.Carrying.{IsMove, AreBelow, Meets, IsCarried};
ghost use Rattle.ja_moves.specs.Growing.{Grows};

use crate::marks::mark;
use ja_matrix::Matrix;

/// A name before a step, and one that has its places after it; or two names that meet.
#[derive(Clone, Copy)]
pub struct Move {
    pub from: u32,
    pub to: u32,
}

// Makes two names meet, if the one met before the step what is moved to the other.
fn carry_move(
    whole: &Matrix,
    count: u32,
    from: u32,
    to: u32,
    step: Move,
    after: &mut Matrix,
) -> bool
    requires whole { IsTable count count whole.now }
    requires after { IsTable count count after.old }
    requires from { from < count }
    requires to { to < count }
    requires step_from { step.from < count }
    requires step_to { step.to < count }
    ensures { Grows count count after.old after.new result (λ c d. (c ≡ to) × (d ≡ step.to) × HasPair whole.now from step.from) }
{
    if !whole.has(from, step.from) {
        return false;
    }
    mark(after, count, count, to, step.to)
}

// Joins the row of a name after a step with what a name before it meets and is moved.
fn carry_row(
    whole: &Matrix,
    count: u32,
    kept: &Matrix,
    moves: &[Move],
    from: u32,
    to: u32,
    after: &mut Matrix,
) -> bool
    requires whole { IsTable count count whole.now }
    requires kept { IsTable 1 count kept.now }
    requires moves { AreBelow count moves.now }
    requires after { IsTable count count after.old }
    requires from { from < count }
    requires to { to < count }
    ensures { Grows count count after.old after.new result (λ c d. (c ≡ to) × Meets (slice_index_or kept.now 0 []) moves.now whole.now from d) }
{
    let mut changed = after.join_kept(to, whole, from, kept);
    for k in 0..moves.len() {
        changed |= carry_move(whole, count, from, to, moves[k], after);
    }
    changed
}

// Carries the row of a name, if it is kept.
fn carry_own(
    whole: &Matrix,
    count: u32,
    kept: &Matrix,
    moves: &[Move],
    a: u32,
    after: &mut Matrix,
) -> bool
    requires whole { IsTable count count whole.now }
    requires kept { IsTable 1 count kept.now }
    requires moves { AreBelow count moves.now }
    requires after { IsTable count count after.old }
    requires name { a < count }
    ensures { Grows count count after.old after.new result (λ c d. (c ≡ a) × Has (slice_index_or kept.now 0 []) a × Meets (slice_index_or kept.now 0 []) moves.now whole.now a d) }
{
    if !kept.has(0, a) {
        return false;
    }
    carry_row(whole, count, kept, moves, a, a, after)
}

// Carries the rows of the names that are kept.
fn carry_kept(whole: &Matrix, count: u32, kept: &Matrix, moves: &[Move], after: &mut Matrix) -> bool
    requires whole { IsTable count count whole.now }
    requires kept { IsTable 1 count kept.now }
    requires moves { AreBelow count moves.now }
    requires after { IsTable count count after.old }
    ensures { Grows count count after.old after.new result (λ c d. Has (slice_index_or kept.now 0 []) c × Meets (slice_index_or kept.now 0 []) moves.now whole.now c d) }
{
    let mut changed = false;
    for a in 0..count {
        changed |= carry_own(whole, count, kept, moves, a, after);
    }
    changed
}

// Carries the rows of the names that are moved.
fn carry_moved(
    whole: &Matrix,
    count: u32,
    kept: &Matrix,
    moves: &[Move],
    after: &mut Matrix,
) -> bool
    requires whole { IsTable count count whole.now }
    requires kept { IsTable 1 count kept.now }
    requires moves { AreBelow count moves.now }
    requires after { IsTable count count after.old }
    ensures { Grows count count after.old after.new result (λ c d. (a : ℕ) × IsMove moves.now a c × Meets (slice_index_or kept.now 0 []) moves.now whole.now a d) }
{
    let mut changed = false;
    for k in 0..moves.len() {
        let step = moves[k];
        changed |= carry_row(whole, count, kept, moves, step.from, step.to, after);
    }
    changed
}

/// Joins the pairs after a step with those before it, where a name comes to the names that keep its
/// places; says whether something is new.
///
/// `kept` has one row: the names that stay as they are. `moves` says which others have which places.
pub fn carry(whole: &Matrix, count: u32, kept: &Matrix, moves: &[Move], after: &mut Matrix) -> bool
    requires whole { IsTable count count whole.now }
    requires kept { IsTable 1 count kept.now }
    requires moves { AreBelow count moves.now }
    requires after { IsTable count count after.old }
    ensures { Grows count count after.old after.new result (IsCarried (slice_index_or kept.now 0 []) moves.now whole.now) }
{
    let mut changed = carry_kept(whole, count, kept, moves, after);
    changed |= carry_moved(whole, count, kept, moves, after);
    changed
}
