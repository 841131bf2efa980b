ghost use Rattle.std.specs.Prelude.{◌≡◌, ◌&&◌, length, nat_eq};
ghost use Rattle.ja_ir.specs.Params as params;
ghost use Rattle.ja_facts.specs.ClassTables.{token_count};
ghost use Rattle.ja_facts.specs.Formulas.{any_below};
ghost use Rattle.ja_facts.specs.Slots.{argument};
ghost use Rattle.ja_work.specs.Clauses as clauses;
ghost use Rattle.ja_explicit.specs.Tables.{items_of};
ghost use Rattle.ja_explicit.specs.InnerWords as words;
ghost use Rattle.ja_explicit.specs.InnerStarts as starts;
ghost use Rattle.ja_explicit.specs.InnerRules as rules;

use crate::params::{param_local, takes_reference};
use crate::rule::{Handing, Opening, Rule};
use crate::stored::param_stores;
use crate::words::stacked_is_true;
use ja_clauses::{caught_clause, exceptional_clause, normal_clause, return_clause, throw_clause};
use ja_facts::param_count;
use ja_ir::Entry;
use ja_work::{Clause, Spot};

// The spot is always, or never, true.
fn constant(truth: bool) -> Clause
    ensures { result ≡ clauses.constant truth }
{
    Clause {
        exact: true,
        always: truth,
        one: None,
        first: 0,
        count: 0,
    }
}

// Nothing is said of the spot.
fn anything() -> Clause
    ensures { result ≡ clauses.anything }
{
    Clause {
        exact: false,
        always: true,
        one: None,
        first: 0,
        count: 0,
    }
}

// Whether a local is the first of a parameter, and the argument for that is true.
fn hands(handing: &Handing, local: u32, k: u32) -> bool
    ensures { result ≡ (nat_eq (params.param_local handing.now.callee.now k) local && (words.says handing.now.caller.now handing.now.word).slot (argument handing.now.under k)) }
{
    let place = handing.under as u64 + k as u64;
    param_local(handing.callee, k as u64) == local as u64
        && stacked_is_true(handing.caller, handing.word, place)
}

// Whether a local is the first of a parameter whose argument is true.
fn is_handed(handing: &Handing, local: u32) -> bool
    ensures { result ≡ any_below (λ k. nat_eq (params.param_local handing.now.callee.now k) local && (words.says handing.now.caller.now handing.now.word).slot (argument handing.now.under k)) handing.now.count }
{
    for k in 0..handing.count {
        if hands(handing, local, k) {
            return true;
        }
    }
    false
}

// What a call says of a spot of the frame of the method that it enters.
fn handed_clause(handing: &Handing, spot: Spot) -> Clause
    ensures { result ≡ words.handed_clauses handing.now.callee.now handing.now.count handing.now.under (words.says handing.now.caller.now handing.now.word) spot }
{
    match spot {
        Spot::Local(local) => constant(is_handed(handing, local)),
        Spot::OnStack(_) | Spot::Dirt | Spot::Exc => constant(false),
    }
}

// Whether a position of an entry is marked.
fn is_marked(entry: &Entry, k: u64) -> bool
    ensures { result ≡ starts.is_marked entry.now k }
{
    entry.marked.as_slice().iter().any(|j| *j == k)
}

// Whether a parameter of an entry may be true.
fn may_be_true(opening: &Opening, k: u32) -> bool
    ensures { result ≡ starts.may_be_true opening.now.program.now opening.now.facts.now (items_of opening.now.table.now) opening.now.entry.now opening.now.method.now k }
{
    if is_marked(opening.entry, k as u64) {
        return true;
    }
    takes_reference(opening.method, k as u64)
        && param_stores(
            opening.program,
            opening.facts,
            opening.table,
            opening.entry.method,
            k,
        )
}

// Whether a local is the first of a parameter, and that may be true.
fn opens(opening: &Opening, local: u32, k: u32) -> bool
    ensures { result ≡ (nat_eq (params.param_local opening.now.method.now k) local && starts.may_be_true opening.now.program.now opening.now.facts.now (items_of opening.now.table.now) opening.now.entry.now opening.now.method.now k) }
{
    param_local(opening.method, k as u64) == local as u64 && may_be_true(opening, k)
}

// Whether a local is the first of a parameter that may be true.
fn is_opened(opening: &Opening, local: u32) -> bool
    ensures { result ≡ any_below (λ k. nat_eq (params.param_local opening.now.method.now k) local && starts.may_be_true opening.now.program.now opening.now.facts.now (items_of opening.now.table.now) opening.now.entry.now opening.now.method.now k) (params.param_count opening.now.method.now) }
{
    let count = param_count(opening.method) as u32;
    for k in 0..count {
        if opens(opening, local, k) {
            return true;
        }
    }
    false
}

// What the environment's call of an entry says of a spot.
fn opened_clause(opening: &Opening, spot: Spot) -> Clause
    ensures { result ≡ words.opened_clauses opening.now.method.now (starts.may_be_true opening.now.program.now opening.now.facts.now (items_of opening.now.table.now) opening.now.entry.now opening.now.method.now) spot }
{
    match spot {
        Spot::Local(local) => {
            if is_opened(opening, local) {
                anything()
            } else {
                constant(false)
            }
        }
        Spot::OnStack(_) | Spot::Dirt | Spot::Exc => constant(false),
    }
}

/// What a rule says of a spot.
pub fn clause_of(rule: &Rule, spot: Spot) -> Clause
    requires { rules.IsReady rule.now }
    ensures { result ≡ rules.clauses_of rule.now spot }
{
    match rule {
        Rule::Normal(here) => normal_clause(&here.before, here.op, here.height, spot),
        Rule::Exceptional(here, way) => {
            exceptional_clause(*way, &here.before, here.op, here.height, spot)
        }
        Rule::Returns(through, answers, summary) => {
            return_clause(through, *answers, *summary, spot)
        }
        Rule::Throws(through, summary) => throw_clause(through, *summary, spot),
        Rule::Caught => caught_clause(spot),
        Rule::Handed(handing) => handed_clause(handing, spot),
        Rule::Opened(opening) => opened_clause(opening, spot),
    }
}
