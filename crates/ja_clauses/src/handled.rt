ghost use Rattle.std.specs.Prelude.{◌≡◌};
ghost use Rattle.ja_work.specs.Ends as ends;
ghost use Rattle.ja_work.specs.Work as work;

use crate::plain::{moved, never};
use ja_work::{Clause, Spot};

/// What a handler begins with says of a spot: the locals stay, and what was thrown is alone on the stack.
pub fn caught_clause(spot: Spot) -> Clause
    ensures { result ≡ ends.caught_clauses spot }
{
    match spot {
        Spot::Local(local) => moved(Spot::Local(local)),
        Spot::OnStack(0) => moved(Spot::Exc),
        Spot::OnStack(_) => never(),
        Spot::Dirt => moved(Spot::Dirt),
        Spot::Exc => never(),
    }
}

/// The lowest value on the stack of a summary, for a result that lies on so many values, if there is one.
fn result_clause(result_at: Option<u32>) -> Clause
    ensures { result ≡ work.end_clauses result_at (Spot.OnStack 0) }
{
    match result_at {
        Some(top) => moved(Spot::OnStack(top)),
        None => never(),
    }
}

/// What a return says of a spot of the summary, for a result that lies on so many values, if there is one.
pub fn end_clause(result_at: Option<u32>, spot: Spot) -> Clause
    ensures { result ≡ work.end_clauses result_at spot }
{
    match spot {
        Spot::OnStack(0) => result_clause(result_at),
        Spot::Local(_) | Spot::OnStack(_) | Spot::Exc => never(),
        Spot::Dirt => moved(Spot::Dirt),
    }
}

/// What an exceptional end that leaves the method says of a spot of the summary.
pub fn leave_clause(spot: Spot) -> Clause
    ensures { result ≡ work.leave_clauses spot }
{
    match spot {
        Spot::Local(_) | Spot::OnStack(_) => never(),
        Spot::Dirt | Spot::Exc => moved(spot),
    }
}
