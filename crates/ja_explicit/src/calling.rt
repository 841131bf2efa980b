ghost use Rattle.std.specs.Prelude.{◌≡◌, ◌++◌, ◌≤◌, ◌<◌, ◌^◌, ◌+◌, ◌-◌, [], ◌∷◌, Some, Option, length, map, slice_get, OnOk};
ghost use Rattle.ja_ir.specs.declared.method.Method.{Method};
ghost use Rattle.ja_ir.specs.Operations as operations;
ghost use Rattle.ja_ir.specs.Initializing.{inits_of};
ghost use Rattle.ja_tokens.specs.Shapes.{place_meant};
ghost use Rattle.ja_facts.specs.FactTables.{targets_at};
ghost use Rattle.ja_clauses.specs.Tables.{AreShaped};
ghost use Rattle.ja_explicit.specs.Given.{AreNarrow};
ghost use Rattle.ja_explicit.specs.Tables.{items_of};
ghost use Rattle.ja_explicit.specs.InnerSteps as steps;
ghost use Rattle.ja_explicit.specs.InnerRules.{standing, StandsAt};

use crate::item::Item;
use crate::passage::{Passage, add_goes_through};
use crate::rule::{Handing, Rule};
use crate::standing::Standing;
use crate::stepping::next_words;
use crate::table::Table;
use ja_base::{Memory, MethodId, Seq};
use ja_clauses::Through;
use ja_facts::Facts;
use ja_ir::{CallOp, Method, Op, Program, arguments};
use ja_tokens::ThrownTo;
use std::alloc::Global;

// Adds what follows of a class initialiser that may run before an instruction.
fn add_initializes_by(
    alloc: Global,
    out: &mut Seq<Item>,
    p: &Program,
    facts: &Facts,
    table: &Table,
    standing_at: &Standing,
    i: u32,
    height: u32,
    n: MethodId,
) -> Result<(), Memory>
    requires shaped { AreShaped p.now facts.now }
    requires stands { StandsAt p.now standing_at.now i }
    requires callee { n.0 < length p.now.methods }
    ensures { OnOk result (out.new ≡ out.old ++ steps.goes_through (items_of table.now) (standing standing_at.now) (steps.init_passage p.now facts.now standing_at.now.m i height n.0)) }
{
    let way = Passage {
        n: n.0 as u64,
        given: 0,
        through: Through::of(p, facts, MethodId(standing_at.m), i, n, 0, height),
        answers: false,
        next: &[i as u64],
        places: &[],
    };
    add_goes_through(alloc, out, table, standing_at, &way)
}

/// Adds what follows of the class initialisers that may run before an instruction.
pub fn add_initializes(
    alloc: Global,
    out: &mut Seq<Item>,
    p: &Program,
    facts: &Facts,
    table: &Table,
    standing_at: &Standing,
    i: u32,
    height: u32,
    op: &Op,
) -> Result<(), Memory>
    requires shaped { AreShaped p.now facts.now }
    requires stands { StandsAt p.now standing_at.now i }
    ensures { OnOk result (out.new ≡ out.old ++ steps.initializes p.now facts.now (items_of table.now) (standing standing_at.now) i height (inits_of p.now op.now)) }
{
    let _whole = p.methods();
    for n in p.inits_of(op) {
        add_initializes_by(alloc, out, p, facts, table, standing_at, i, height, *n)?;
    }
    Ok(())
}

// Adds what follows of a call of a method with words of its parameters.
fn add_calls_with(
    alloc: Global,
    out: &mut Seq<Item>,
    p: &Program,
    facts: &Facts,
    table: &Table,
    standing_at: &Standing,
    i: u32,
    next: &[u64],
    places: &[ThrownTo],
    call: &CallOp,
    under: u32,
    n: u32,
    words: &[u32],
) -> Result<(), Memory>
    requires shaped { AreShaped p.now facts.now }
    requires stands { StandsAt p.now standing_at.now i }
    requires callee { n < length p.now.methods }
    requires fits { under + operations.arguments call.now < 2 ^ 32 }
    ensures { OnOk result (out.new ≡ out.old ++ steps.calls_with p.now facts.now (items_of table.now) (standing standing_at.now) i next.now (map place_meant places.now) call.now under n words.now) }
{
    let count = arguments(call) as u32;
    let through = Through::of(
        p,
        facts,
        MethodId(standing_at.m),
        i,
        MethodId(n),
        count,
        under,
    );
    for word in words {
        let way = Passage {
            n: n as u64,
            given: *word,
            through,
            answers: call.result.is_some(),
            next,
            places,
        };
        add_goes_through(alloc, out, table, standing_at, &way)?;
    }
    Ok(())
}

// Adds what follows of a call of a method, if that has code.
fn add_calls_method(
    alloc: Global,
    out: &mut Seq<Item>,
    p: &Program,
    facts: &Facts,
    table: &Table,
    standing_at: &Standing,
    i: u32,
    next: &[u64],
    places: &[ThrownTo],
    call: &CallOp,
    under: u32,
    n: u32,
    callee: &Method,
) -> Result<(), Memory>
    requires shaped { AreShaped p.now facts.now }
    requires narrow { AreNarrow p.now }
    requires stands { StandsAt p.now standing_at.now i }
    requires callee { slice_get p.now.methods n ≡ Some callee.now }
    requires fits { under + operations.arguments call.now < 2 ^ 32 }
    ensures { OnOk result (out.new ≡ out.old ++ steps.calls_method p.now facts.now (items_of table.now) (standing standing_at.now) i next.now (map place_meant places.now) call.now under n (Some callee.now)) }
{
    if callee.code.is_empty() {
        return Ok(());
    }
    let rule = Rule::Handed(Handing {
        callee,
        count: arguments(call) as u32,
        under,
        caller: standing_at.method,
        word: standing_at.word,
    });
    let words = next_words(alloc, callee, &rule, standing_at.method, standing_at.word)?;
    add_calls_with(
        alloc,
        out,
        p,
        facts,
        table,
        standing_at,
        i,
        next,
        places,
        call,
        under,
        n,
        words.as_slice(),
    )
}

// Adds what follows of a call of a target, if there is one with code.
fn add_calls_target(
    alloc: Global,
    out: &mut Seq<Item>,
    p: &Program,
    facts: &Facts,
    table: &Table,
    standing_at: &Standing,
    i: u32,
    next: &[u64],
    places: &[ThrownTo],
    call: &CallOp,
    under: u32,
    n: u64,
) -> Result<(), Memory>
    requires shaped { AreShaped p.now facts.now }
    requires narrow { AreNarrow p.now }
    requires stands { StandsAt p.now standing_at.now i }
    requires fits { under + operations.arguments call.now < 2 ^ 32 }
    ensures { OnOk result (out.new ≡ out.old ++ steps.calls_method p.now facts.now (items_of table.now) (standing standing_at.now) i next.now (map place_meant places.now) call.now under n (slice_get p.now.methods n)) }
{
    if n >= p.methods().len() {
        return Ok(());
    }
    let callee = p.methods().at(n);
    add_calls_method(
        alloc,
        out,
        p,
        facts,
        table,
        standing_at,
        i,
        next,
        places,
        call,
        under,
        n as u32,
        callee,
    )
}

// Adds what follows of a call of each of its targets.
fn add_calls_each(
    alloc: Global,
    out: &mut Seq<Item>,
    p: &Program,
    facts: &Facts,
    table: &Table,
    standing_at: &Standing,
    i: u32,
    next: &[u64],
    places: &[ThrownTo],
    call: &CallOp,
    under: u32,
    targets: &[u64],
) -> Result<(), Memory>
    requires shaped { AreShaped p.now facts.now }
    requires narrow { AreNarrow p.now }
    requires stands { StandsAt p.now standing_at.now i }
    requires fits { under + operations.arguments call.now < 2 ^ 32 }
    ensures { OnOk result (out.new ≡ out.old ++ steps.calls_each p.now facts.now (items_of table.now) (standing standing_at.now) i next.now (map place_meant places.now) call.now under targets.now) }
{
    for n in targets {
        add_calls_target(
            alloc,
            out,
            p,
            facts,
            table,
            standing_at,
            i,
            next,
            places,
            call,
            under,
            *n,
        )?;
    }
    Ok(())
}

/// Adds what follows of the targets of an instruction, if it is a call.
pub fn add_calls(
    alloc: Global,
    out: &mut Seq<Item>,
    p: &Program,
    facts: &Facts,
    table: &Table,
    standing_at: &Standing,
    i: u32,
    next: &[u64],
    places: &[ThrownTo],
    op: &Op,
    height: u32,
) -> Result<(), Memory>
    requires shaped { AreShaped p.now facts.now }
    requires narrow { AreNarrow p.now }
    requires stands { StandsAt p.now standing_at.now i }
    requires finds { operations.pops op.now ≤ height }
    ensures { OnOk result (out.new ≡ out.old ++ steps.calls p.now facts.now (items_of table.now) (standing standing_at.now) i next.now (map place_meant places.now) op.now height) }
{
    match op {
        Op::Call(call) => {
            let under = height - arguments(call) as u32;
            let targets = facts.graph.targets(MethodId(standing_at.m), i);
            add_calls_each(
                alloc,
                out,
                p,
                facts,
                table,
                standing_at,
                i,
                next,
                places,
                call,
                under,
                targets.methods.as_slice(),
            )
        }
        _ => Ok(()),
    }
}
