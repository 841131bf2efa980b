ghost use Rattle.std.specs.Prelude.{◌≡◌, ◌++◌, [], IfOk, OnOk, map};
ghost use Rattle.ja_ir.specs.Operations.{FindsOperands};
ghost use Rattle.ja_clauses.specs.Tables.{tests_by};
ghost use Rattle.ja_tokens.specs.Shapes.{place_meant};
ghost use Rattle.ja_explicit.specs.InnerSteps as steps;
ghost use Rattle.ja_explicit.specs.InnerRules.{standing};

use crate::item::Item;
use crate::landing::add_lands_all;
use crate::rule::{Here, Rule};
use crate::standing::Standing;
use crate::stepping::next_words;
use ja_base::{Memory, Seq};
use ja_clauses::may_end;
use ja_tokens::ThrownTo;
use ja_work::Way;
use std::alloc::Global;

// Adds what follows of an exceptional end of a way.
fn add_ends_by(
    alloc: Global,
    out: &mut Seq<Item>,
    standing_at: &Standing,
    here: &Here,
    way: Way,
    places: &[ThrownTo],
) -> Result<(), Memory>
    requires { FindsOperands here.now.op.now here.now.height }
    ensures { OnOk result (out.new ≡ out.old ++ steps.lands_all (standing standing_at.now) (map place_meant places.now) (steps.words_by way (standing standing_at.now) (tests_by here.now.before) here.now.op.now here.now.height)) }
{
    if !may_end(&here.before, here.op, way) {
        return Ok(());
    }
    let method = standing_at.method;
    let rule = Rule::Exceptional(*here, way);
    let words = next_words(alloc, method, &rule, method, standing_at.word)?;
    add_lands_all(alloc, out, standing_at, places, words.as_slice())
}

/// Adds what follows of the exceptional ends of an instruction.
pub fn add_throws(
    alloc: Global,
    out: &mut Seq<Item>,
    standing_at: &Standing,
    here: &Here,
    places: &[ThrownTo],
) -> Result<(), Memory>
    requires { FindsOperands here.now.op.now here.now.height }
    ensures { OnOk result (out.new ≡ out.old ++ steps.throws (standing standing_at.now) (map place_meant places.now) (tests_by here.now.before) here.now.op.now here.now.height) }
{
    add_ends_by(alloc, out, standing_at, here, Way::Clean, places)?;
    add_ends_by(alloc, out, standing_at, here, Way::Thrown, places)?;
    add_ends_by(alloc, out, standing_at, here, Way::InLibrary, places)
}
