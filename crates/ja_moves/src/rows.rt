ghost use Rattle.std.specs.Prelude.{◌≡◌, ◌↔◌, ℕ, ◌<◌, ◌≤◌, [], slice_index_or};
ghost use Rattle.ja_sets.specs.Sets.{HasPair};
ghost use Rattle.ja_matrix.specs.Matrices.{IsTable, Gains};
ghost use Rattle.ja_moves.specs.Carrying.{IsGathered};

use ja_matrix::Matrix;

/// Adds to a row the kept names that meet a name of a range.
pub fn gather(whole: &Matrix, count: u32, from: u32, to: u32, kept: &Matrix, row: &mut Matrix)
    requires whole { IsTable count count whole.now }
    requires kept { IsTable 1 count kept.now }
    requires row { IsTable 1 count row.old }
    requires order { from ≤ to }
    requires range { to ≤ count }
    ensures gains { Gains row.old row.new (λ c d. (c ≡ 0) × IsGathered (slice_index_or kept.now 0 []) whole.now from to d) }
    ensures shape { IsTable 1 count row.new }
{
    for a in from..to {
        row.join_kept(0, whole, a, kept);
    }
}

/// Makes a table the same as another one of so many rows and columns.
pub fn take(table: &mut Matrix, rows: u32, columns: u32, other: &Matrix)
    requires table { IsTable rows columns table.old }
    requires other { IsTable rows columns other.now }
    ensures same { (a b : ℕ) → HasPair table.new a b ↔ HasPair other.now a b }
    ensures shape { IsTable rows columns table.new }
{
    table.clear();
    for a in 0..rows {
        table.join_row(a, other, a);
    }
}
