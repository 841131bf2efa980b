ghost use Rattle.std.specs.Prelude.{◌≡◌};
ghost use Rattle.ja_ir.specs.Operations.{FindsOperands};
ghost use Rattle.ja_work.specs.Clauses.{never};
ghost use Rattle.ja_clauses.specs.Tables.{tests_by};
ghost use Rattle.ja_steps.specs.Ends as ends;

use ja_clauses::{
    Before, Summary, Through, caught_clause, end_clause, exceptional_clause, leave_clause,
    normal_clause, return_clause, throw_clause,
};
use ja_ir::Op;
use ja_work::{Clause, Spot, Way};

/// An end of an instruction, of a way through a method, or of a method.
#[derive(Clone, Copy)]
pub enum End<'a> {
    /// The normal end of an operation before which there are so many values on the stack, at a call that of
    /// its library part.
    Normal(&'a Before<'a>, &'a Op, u32),
    /// The same where nothing true is read of a field.
    Unread(&'a Before<'a>, &'a Op, u32),
    /// An exceptional end of a way.
    Exceptional(Way, &'a Before<'a>, &'a Op, u32),
    /// A method that was entered has returned with this summary, and a result if it answers.
    Returned(&'a Through<'a>, bool, Summary),
    /// A method that was entered has ended by an exception with this summary.
    Thrown(&'a Through<'a>, Summary),
    /// A handler catches what was thrown.
    Caught,
    /// The method returns, with a result that lies on so many values, or without one.
    Answers(Option<u32>),
    /// What was thrown leaves the method.
    Leaves,
}

/// Whether an operation reads a field into a spot.
fn is_read(op: &Op, height: u32, spot: Spot) -> bool
    ensures { result ≡ ends.is_read op.now height spot }
{
    match (op, spot) {
        (Op::GetField(_), Spot::OnStack(place)) => place == height.saturating_sub(1),
        (Op::GetStatic(_), Spot::OnStack(place)) => place == height,
        _ => false,
    }
}

/// A spot that is never true.
fn never() -> Clause
    ensures { result ≡ never }
{
    Clause {
        exact: true,
        always: false,
        one: None,
        first: 0,
        count: 0,
    }
}

/// What the normal end of an operation says of a spot where nothing true is read of a field.
fn unread_clause(before: &Before, op: &Op, height: u32, spot: Spot) -> Clause
    requires { FindsOperands op.now height }
    ensures { result ≡ ends.unread_clauses (tests_by before.now) op.now height spot }
{
    if is_read(op, height, spot) {
        return never();
    }
    normal_clause(before, op, height, spot)
}

/// What an end says of a spot.
pub(crate) fn clause_of(end: &End, spot: Spot) -> Clause
    requires { ends.FindsFor end.now }
    ensures { result ≡ ends.clauses_of end.now spot }
{
    match *end {
        End::Normal(before, op, height) => normal_clause(before, op, height, spot),
        End::Unread(before, op, height) => unread_clause(before, op, height, spot),
        End::Exceptional(way, before, op, height) => {
            exceptional_clause(way, before, op, height, spot)
        }
        End::Returned(through, answers, summary) => {
            return_clause(through, answers, summary, spot)
        }
        End::Thrown(through, summary) => throw_clause(through, summary, spot),
        End::Caught => caught_clause(spot),
        End::Answers(value) => end_clause(value, spot),
        End::Leaves => leave_clause(spot),
    }
}
