ghost use Rattle.std.specs.Prelude.{◌≡◌, ◌≢◌, ◌*◌, ◌^◌, ◌≤◌, None, false, IfOk, IfSome, IsTrue, length};
ghost use Rattle.ja_work.specs.Frames as frames;
ghost use Rattle.ja_steps.specs.Ends.{FindsFor, HasRoomFor, clauses_of};
ghost use Rattle.ja_steps.specs.Led.{IsRuleOf};
ghost use Rattle.ja_steps.specs.Wide.{IsWide};
ghost use Rattle.ja_steps.specs.Inner.{AreClauses, IsNewSource, AreListed, IsRange, HasRange, HaveRange, LacksRange, IsMadeOf};

use crate::case::is_listed;
use crate::end::{End, clause_of};
use crate::masks::{is_kept, move_of, starting};
use crate::places::{part_of, place_if, size, spot_at};
use ja_base::Memory;
use ja_join::{Rule, States};
use ja_work::{Clause, Frame};
use std::alloc::Global;

/// So many values on the stack from one on.
#[derive(Clone, Copy)]
pub(crate) struct Range {
    pub(crate) first: u32,
    pub(crate) count: u32,
}

/// The clauses of an end, by the places of their spots.
fn clauses_at(alloc: Global, frame: &Frame, end: &End) -> Result<Vec<Clause>, Memory>
    requires { FindsFor end.now }
    ensures { IfOk result (λ list. AreClauses frame.now (clauses_of end.now) list.items) }
{
    let mut clauses = Vec::new(alloc);
    for place in 0..size(frame) {
        clauses.push(clause_of(end, spot_at(frame, place)))?;
    }
    Ok(clauses)
}

/// The place of another spot that the clause at a place looks at and that is not listed yet, if there is one.
fn new_source(frame: &Frame, sources: &[u32], place: u32, clause: &Clause) -> Option<u32>
    ensures { IsNewSource frame.now sources.now place clause.now result }
{
    match place_if(frame, clause.one) {
        Some(source) if source != place && !is_listed(sources, source) => Some(source),
        _ => None,
    }
}

/// The places of all spots that clauses at other places look at, each once.
fn sources_of(alloc: Global, frame: &Frame, clauses: &[Clause]) -> Result<Vec<u32>, Memory>
    requires { length clauses.now ≡ frames.size frame.now }
    ensures { IfOk result (λ list. AreListed frame.now clauses.now list.items) }
{
    let mut sources = Vec::new(alloc);
    for place in 0..size(frame) {
        if let Some(source) = new_source(frame, &sources, place, &clauses[place as usize]) {
            sources.push(source)?;
        }
    }
    Ok(sources)
}

/// The values on the stack that some clause looks at together; none where no clause does.
fn range_of(clauses: &[Clause]) -> Range
    ensures { IsRange result clauses.now }
{
    for clause in clauses {
        if clause.count != 0 {
            return Range {
                first: clause.first,
                count: clause.count,
            };
        }
    }
    Range { first: 0, count: 0 }
}

/// Whether a clause looks at no values on the stack together, or at these.
fn has_range(range: Range, clause: &Clause) -> bool
    ensures yes { IsTrue result → HasRange range clause.now }
    ensures no { result ≡ false → (clause.now.count ≢ 0) × (clause.now.first ≡ range.first → clause.now.count ≡ range.count → ⊥) }
{
    clause.count == 0 || clause.first == range.first && clause.count == range.count
}

/// Whether all clauses that look at several values on the stack look at these.
fn have_range(range: Range, clauses: &[Clause]) -> bool
    ensures yes { IsTrue result → HaveRange range clauses.now }
    ensures no { result ≡ false → LacksRange range clauses.now }
{
    for clause in clauses {
        if !has_range(range, clause) {
            return false;
        }
    }
    true
}

/// The rule with a move for each place whose clause does not keep its spot.
fn rule_by(
    alloc: Global,
    frame: &Frame,
    clauses: &[Clause],
    sources: &[u32],
    range: Range,
    cases: u32,
) -> Result<Rule, Memory>
    requires counted { length clauses.now ≡ frames.size frame.now }
    requires cases { cases ≤ 32 }
    ensures { IfOk result (IsMadeOf frame.now clauses.now sources.now range cases) }
{
    let start = States {
        waiting: starting(cases, true),
        seen: starting(cases, false),
    };
    let accepted = States {
        waiting: 0,
        seen: u32::MAX,
    };
    let mut rule = Rule::new(alloc, start, accepted);
    for place in 0..size(frame) {
        let clause = &clauses[place as usize];
        let part = part_of(frame, range.first, range.count, place, clause);
        if !is_kept(sources, &part) {
            rule.push(move_of(sources, &part, cases))?;
        }
    }
    Ok(rule)
}

/// How many cases there are for so many places, at most four: what is true at each, and whether some counted
/// value is.
fn case_count(places: usize) -> u32
    requires { places ≤ 4 }
    ensures count { result ≡ 2 * 2 ^ places }
    ensures few { result ≤ 32 }
{
    match places {
        0 => 2,
        1 => 4,
        2 => 8,
        3 => 16,
        _ => 32,
    }
}

/// The rule by which a set of facts is stepped over an end. There is none where clauses look at more than four
/// other spots or at two ranges of values on the stack.
pub fn rule_of(alloc: Global, frame: &Frame, end: &End) -> Result<Option<Rule>, Memory>
    requires finds { FindsFor end.now }
    requires room { HasRoomFor frame.now end.now }
    ensures rule { IfOk result (λ found. IfSome found (IsRuleOf frame.now (clauses_of end.now))) }
    ensures none { IfOk result (λ found. found ≡ None → IsWide frame.now (clauses_of end.now)) }
{
    let clauses = clauses_at(alloc, frame, end)?;
    let sources = sources_of(alloc, frame, &clauses)?;
    let places: &[u32] = &sources;
    let range = range_of(&clauses);
    if places.len() > 4 {
        return Ok(None);
    }
    if !have_range(range, &clauses) {
        return Ok(None);
    }
    let cases = case_count(places.len());
    let rule = rule_by(alloc, frame, &clauses, places, range, cases)?;
    Ok(Some(rule))
}
