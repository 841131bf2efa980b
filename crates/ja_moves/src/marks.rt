ghost use Rattle.std.specs.Prelude.{◌≡◌, ◌⊎◌, ◌<◌, length};
ghost use Rattle.ja_matrix.specs.Matrices.{IsTable};
ghost use Rattle.ja_moves.specs.Carrying.{IsMove, AreBelow};
ghost use Rattle.ja_moves.specs.Growing.{Grows};

use crate::steps::Move;
use ja_matrix::Matrix;

/// Makes a table of so many rows and columns true in a row and a column, and says whether it was false
/// there.
pub fn mark(table: &mut Matrix, rows: u32, columns: u32, a: u32, b: u32) -> bool
    requires table { IsTable rows columns table.old }
    requires row { a < rows }
    requires column { b < columns }
    ensures { Grows rows columns table.old table.new result (λ c d. (c ≡ a) × (d ≡ b)) }
{
    if table.has(a, b) {
        return false;
    }
    table.add(a, b);
    true
}

/// Makes the names of each pair of a list meet, and says whether something is new.
pub fn meet(fresh: &[Move], count: u32, after: &mut Matrix) -> bool
    requires fresh { AreBelow count fresh.now }
    requires after { IsTable count count after.old }
    ensures { Grows count count after.old after.new result (λ c d. IsMove fresh.now c d ⊎ IsMove fresh.now d c) }
{
    let mut changed = false;
    for k in 0..fresh.len() {
        let pair = fresh[k];
        changed |= mark(after, count, count, pair.from, pair.to);
        changed |= mark(after, count, count, pair.to, pair.from);
    }
    changed
}
