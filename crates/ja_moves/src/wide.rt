ghost use Rattle.std.specs.Prelude.{◌≡◌, ◌<◌, [], slice_index_or};
ghost use Rattle.ja_sets.specs.Sets.{Has};
ghost use Rattle.ja_matrix.specs.Matrices.{IsTable, Gains};
ghost use Rattle.ja_moves.specs.Carrying.{IsWidened};

use ja_matrix::Matrix;

// Joins a row with the one row of a table where another one has the name of the row.
fn join_if(whole: &mut Matrix, count: u32, a: u32, test: &Matrix, other: &Matrix)
    requires whole { IsTable count count whole.old }
    requires test { IsTable 1 count test.now }
    requires other { IsTable 1 count other.now }
    requires name { a < count }
    ensures gains { Gains whole.old whole.new (λ c d. (c ≡ a) × Has (slice_index_or test.now 0 []) a × Has (slice_index_or other.now 0 []) d) }
    ensures shape { IsTable count count whole.new }
{
    if test.has(0, a) {
        whole.join_row(a, other, 0);
    }
}

/// Makes each name that is affected meet each that is met. Both tables have one row.
pub fn widen(whole: &mut Matrix, count: u32, affected: &Matrix, met: &Matrix)
    requires whole { IsTable count count whole.old }
    requires affected { IsTable 1 count affected.now }
    requires met { IsTable 1 count met.now }
    ensures gains { Gains whole.old whole.new (IsWidened (slice_index_or affected.now 0 []) (slice_index_or met.now 0 [])) }
    ensures shape { IsTable count count whole.new }
{
    for a in 0..count {
        join_if(whole, count, a, affected, met);
        join_if(whole, count, a, met, affected);
    }
}
