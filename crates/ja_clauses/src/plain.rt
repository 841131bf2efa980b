ghost use Rattle.std.specs.Prelude.{◌≡◌};
ghost use Rattle.ja_work.specs.Clauses as clauses;

use ja_work::{Clause, Spot};

/// The spot is always, or never, true.
pub fn constant(truth: bool) -> Clause
    ensures { result ≡ clauses.constant truth }
{
    Clause {
        exact: true,
        always: truth,
        one: None,
        first: 0,
        count: 0,
    }
}

/// The spot is never true.
pub fn never() -> Clause
    ensures { result ≡ clauses.never }
{
    constant(false)
}

/// Nothing is said of the spot.
pub fn anything() -> Clause
    ensures { result ≡ clauses.anything }
{
    Clause {
        exact: false,
        always: true,
        one: None,
        first: 0,
        count: 0,
    }
}

/// The spot is true where that spot was.
pub fn moved(spot: Spot) -> Clause
    ensures { result ≡ clauses.moved spot }
{
    Clause {
        exact: true,
        always: false,
        one: Some(spot),
        first: 0,
        count: 0,
    }
}

/// At most where that spot was.
pub fn at_most(spot: Spot) -> Clause
    ensures { result ≡ clauses.at_most spot }
{
    Clause {
        exact: false,
        always: false,
        one: Some(spot),
        first: 0,
        count: 0,
    }
}
