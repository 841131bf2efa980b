ghost use Rattle.std.specs.Prelude.{◌≡◌, ◌≤◌, ◌^◌, zero, IfOk, length};
ghost use Rattle.ja_lower.specs.InnerPlaces.{PlacesFrom};
ghost use Rattle.ja_lower.specs.Program.{heads_of};
ghost use Rattle.ja_lower.specs.InnerAnswers.{AnswersFrom, CanAnswer, IsAnswerAt};
ghost use Rattle.ja_base.specs.Limit.{max_numbered};

use crate::place::Place;
use ja_base::{ClassId, Memory, Seq};
use ja_class::Class;
use ja_hier::Hier;
use ja_lib::Table;
use ja_methods::{Lowered, MethodFault, lower_method};
use rayon::prelude::*;
use std::alloc::Global;
use std::thread::Threads;

/// What became of a method.
#[derive(Drop)]
pub(crate) struct Answer {
    pub place: Place,
    pub outcome: Result<Lowered, MethodFault>,
}

/// What becomes of each method, in order. A thread of its own takes `least` methods or more.
///
/// Each answer is that of its method alone, so the schedule of the threads is not seen.
pub(crate) fn answers_of<R: Threads + Sync>(
    rt: &R,
    alloc: Global,
    hier: &Hier,
    classes: &[Class],
    table: &Table,
    places: &Seq<Place>,
    least: usize,
) -> Result<Vec<Answer>, Memory>
    requires heads { hier.now ≡ heads_of classes.now }
    requires few { length classes.now ≤ max_numbered }
    requires places { PlacesFrom classes.now zero zero places.now }
    ensures { IfOk result (λ answers. AnswersFrom table.now classes.now zero zero answers.items) }
{
    let places = places.as_slice();
    let answers = places
        .par_iter()
        .with_min_len(least)
        .map(
            |place: &Place| -> Answer
                requires { CanAnswer hier.now classes.now place.now }
                ensures { IsAnswerAt table.entry.now classes.entry.now place.now result }
            { answer_at(alloc, hier, classes, table, *place) },
        )
        .collect(rt, alloc)?;
    Ok(answers)
}

/// What becomes of a method.
fn answer_at(alloc: Global, hier: &Hier, classes: &[Class], table: &Table, place: Place) -> Answer
    requires { CanAnswer hier.now classes.now place }
    ensures { IsAnswerAt table.now classes.now place result }
{
    let class = &classes[place.class as usize];
    let outcome = lower_method(
        alloc,
        hier,
        table,
        class,
        ClassId(place.class),
        place.method,
    );
    Answer { place, outcome }
}
