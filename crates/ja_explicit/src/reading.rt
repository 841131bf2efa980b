ghost use Rattle.std.specs.Prelude.{◌≡◌, ◌++◌, ◌≤◌, ◌-◌, [], ◌∷◌, length, not, IfOk, OnOk, if◌then◌else◌};
ghost use Rattle.ja_ir.specs.Operations.{FindsOperands};
ghost use Rattle.ja_clauses.specs.Tables.{tests_by};
ghost use Rattle.ja_facts.specs.Slots.{OnStack};
ghost use Rattle.ja_explicit.specs.Given.{value_count, most_values};
ghost use Rattle.ja_explicit.specs.Tables.{items_of};
ghost use Rattle.ja_explicit.specs.InnerSteps as steps;
ghost use Rattle.ja_explicit.specs.InnerWords as words;
ghost use Rattle.ja_explicit.specs.InnerRules.{standing, HasFields};

use crate::item::Item;
use crate::landing::add_at_all;
use crate::rule::{Here, Rule};
use crate::standing::Standing;
use crate::stepping::next_words;
use crate::stored::answers;
use crate::table::Table;
use crate::words::stacked_is_true;
use ja_base::{FieldId, Memory, Seq};
use ja_clauses::may_go_on;
use ja_facts::Facts;
use ja_ir::{Instr, Method, Op, Program};
use std::alloc::Global;

// Whether nothing is true in a word that was read of a field, by what was stored, but cannot be. What was
// read lies over so many values.
fn reads_well(
    p: &Program,
    facts: &Facts,
    table: &Table,
    method: &Method,
    field: FieldId,
    place: u32,
    word: u32,
) -> bool
    requires fields { HasFields p.now facts.now }
    requires narrow { value_count method.now ≤ most_values }
    ensures { result ≡ steps.is_readable (Some field.0) p.now facts.now (items_of table.now) method.now (OnStack place) word }
{
    !stacked_is_true(method, word, place as u64) || answers(p, facts, table, field)
}

// Whether nothing is true in a word that an operation read of a field but cannot be.
fn is_readable(
    p: &Program,
    facts: &Facts,
    table: &Table,
    method: &Method,
    op: &Op,
    height: u32,
    word: u32,
) -> bool
    requires fields { HasFields p.now facts.now }
    requires narrow { value_count method.now ≤ most_values }
    ensures { result ≡ steps.is_readable (steps.read_field op.now) p.now facts.now (items_of table.now) method.now (steps.read_slot op.now height) word }
{
    match op {
        Op::GetField(field) => {
            let place = height.saturating_sub(1);
            reads_well(p, facts, table, method, *field, place, word)
        }
        Op::GetStatic(field) => reads_well(p, facts, table, method, *field, height, word),
        _ => true,
    }
}

// Adds a word to a list, if it is readable.
fn add_readable(
    list: &mut Seq<u32>,
    p: &Program,
    facts: &Facts,
    table: &Table,
    method: &Method,
    op: &Op,
    height: u32,
    word: u32,
) -> Result<(), Memory>
    requires fields { HasFields p.now facts.now }
    requires narrow { value_count method.now ≤ most_values }
    ensures { OnOk result (list.new ≡ list.old ++ (if steps.is_readable (steps.read_field op.now) p.now facts.now (items_of table.now) method.now (steps.read_slot op.now height) word then word ∷ [] else [])) }
{
    if is_readable(p, facts, table, method, op, height, word) {
        list.push(word)
    } else {
        Ok(())
    }
}

// Those of some words that are readable.
fn readable(
    alloc: Global,
    p: &Program,
    facts: &Facts,
    table: &Table,
    method: &Method,
    op: &Op,
    height: u32,
    words: &[u32],
) -> Result<Seq<u32>, Memory>
    requires fields { HasFields p.now facts.now }
    requires narrow { value_count method.now ≤ most_values }
    ensures { IfOk result (λ list. list ≡ steps.passing (steps.is_readable (steps.read_field op.now) p.now facts.now (items_of table.now) method.now (steps.read_slot op.now height)) words.now) }
{
    let mut list = Seq::new(alloc);
    for word in words {
        add_readable(&mut list, p, facts, table, method, op, height, *word)?;
    }
    Ok(list)
}

// The words that the normal end leaves.
fn normal_words(alloc: Global, standing_at: &Standing, here: &Here) -> Result<Seq<u32>, Memory>
    requires { FindsOperands here.now.op.now here.now.height }
    ensures { IfOk result (λ list. list ≡ steps.normal_words (standing standing_at.now) (tests_by here.now.before) here.now.op.now here.now.height) }
{
    if !may_go_on(&here.before, here.op) {
        return Ok(Seq::new(alloc));
    }
    let method = standing_at.method;
    next_words(
        alloc,
        method,
        &Rule::Normal(*here),
        method,
        standing_at.word,
    )
}

/// Adds what follows of the normal end of an instruction.
pub fn add_goes_on(
    alloc: Global,
    out: &mut Seq<Item>,
    p: &Program,
    facts: &Facts,
    table: &Table,
    standing_at: &Standing,
    here: &Here,
    next: &[u64],
) -> Result<(), Memory>
    requires fields { HasFields p.now facts.now }
    requires finds { FindsOperands here.now.op.now here.now.height }
    ensures { OnOk result (out.new ≡ out.old ++ steps.goes_on p.now facts.now (items_of table.now) (standing standing_at.now) (tests_by here.now.before) here.now.op.now here.now.height next.now) }
{
    let words = normal_words(alloc, standing_at, here)?;
    let list = readable(
        alloc,
        p,
        facts,
        table,
        standing_at.method,
        here.op,
        here.height,
        words.as_slice(),
    )?;
    add_at_all(out, standing_at, next, list.as_slice())
}
