//! Measures how long operations on decision diagrams take, with one worker.
//!
//! `bdd_bench identity ROUNDS CACHE` composes the relation that keeps 64 slots ROUNDS times with
//! itself. `bdd_bench taint ROUNDS CACHE` makes ROUNDS relations of disjunctions over 30 slots and
//! forgets some variables of each. `bdd_bench calls ROUNDS CACHE` composes ROUNDS pairs of these.
//! CACHE is how many entries the worker's cache has. With the word `sets`, all variables that the
//! relations of a composition share are forgotten at once, and with `products` in one pass with
//! the conjunction. Each prints what it came to and how long it took. With any other words it does
//! a little of each, and prints what they came to.
#![tactic(auto)]

ghost use Rattle.std.specs.Prelude.{◌≤◌};

mod compose;
mod failure;
mod identity;
mod pool;
mod taint;

use compose::Forgetting;
use failure::Failure;
use identity::identity;
use ja_base::{MAX_SLOTS, MIN_SLOTS};
use ja_bdd::MAX_ENTRIES;
use ja_node_core::AnyAim;
use ja_node_table::NodeTable;
use pool::Pool;
use std::alloc::Global;
use std::rt::{Clock, Env};
use std::time::{Duration, Instant};
use std::{env, io};
use taint::{calls, taint};

/// How many nodes the table has room for.
const ROOM: u64 = 1 << 24;

/// How many the small table has room for.
const LITTLE_ROOM: u64 = 1 << 20;

/// How many entries a worker's cache has, where the words do not say.
const LITTLE_CACHE: u64 = 1_024;

#[derive(Clone, Copy)]
enum Work {
    Identity,
    Taint,
    Calls,
}

/// What is done, how often, and by what means.
#[derive(Clone, Copy)]
struct Asked {
    work: Work,
    forgetting: Forgetting,
    rounds: u64,
    entries: u64,
}

/// What the words ask for.
fn asked_work<R: Env + AllocGlobal>(rt: &R) -> io::Result<Option<Asked>> {
    let mut work = None;
    let mut forgetting = Forgetting::Singly;
    let mut rounds = None;
    let mut entries = LITTLE_CACHE;
    for word in env::args(rt)?.skip(1) {
        match word.as_str() {
            "identity" => work = Some(Work::Identity),
            "taint" => work = Some(Work::Taint),
            "calls" => work = Some(Work::Calls),
            "sets" => forgetting = Forgetting::AtOnce,
            "products" => forgetting = Forgetting::InProduct,
            number if rounds.is_none() => rounds = number.parse::<u64>().ok(),
            number => entries = number.parse::<u64>().unwrap_or(LITTLE_CACHE),
        }
    }
    Ok(
        work.zip(rounds).map(|(work, rounds)| Asked {
            work,
            forgetting,
            rounds,
            entries,
        }),
    )
}

/// Does the work on a new table. Answers what it came to, and how long it took.
fn measure<R: Clock>(
    rt: &R,
    alloc: Global,
    room: u64,
    asked: Asked,
) -> Result<(u64, Duration), Failure>
    requires { (MIN_SLOTS ≤ room) × (room ≤ MAX_SLOTS) }
{
    let (table, seat) = NodeTable::new(alloc, room, AnyAim)?;
    let entries = asked.entries.max(1).min(MAX_ENTRIES as u64) as usize;
    let mut pool = Pool::new(alloc, &table, seat, entries)?;
    let start = Instant::now(rt)?;
    let answer = match asked.work {
        Work::Identity => identity(&mut pool, &table, asked.forgetting, asked.rounds)?,
        Work::Taint => taint(&mut pool, &table, asked.rounds)?,
        Work::Calls => calls(&mut pool, &table, asked.forgetting, asked.rounds)?,
    };
    Ok((answer, start.elapsed(rt)?))
}

fn text(failure: Failure) -> &'static str {
    match failure {
        Failure::NoRoom => "no room in the table",
        Failure::NoSuchNode => "no such node",
        Failure::Memory => "no memory",
        Failure::Clock => "no clock",
    }
}

fn main(rt: HostRuntime) -> io::Result<()> {
    if let Some(asked) = asked_work(&rt)? {
        return match measure(&rt, rt.alloc(), ROOM, asked) {
            Ok((answer, time)) => println!(rt; "answer {answer} in {} ns", time.as_nanos()),
            Err(failure) => println!(rt; "{}", text(failure)),
        };
    }
    let little = |work, forgetting| Asked {
        work,
        forgetting,
        rounds: 2,
        entries: LITTLE_CACHE,
    };
    for asked in [
        little(Work::Identity, Forgetting::Singly),
        little(Work::Identity, Forgetting::AtOnce),
        little(Work::Identity, Forgetting::InProduct),
        little(Work::Taint, Forgetting::Singly),
    ] {
        match measure(&rt, rt.alloc(), LITTLE_ROOM, asked) {
            Ok((answer, _)) => println!(rt; "answer {answer}")?,
            Err(failure) => println!(rt; "{}", text(failure))?,
        }
    }
    Ok(())
}
