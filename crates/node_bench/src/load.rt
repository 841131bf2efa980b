ghost use Rattle.std.specs.Prelude.{◌≡◌, ◌<◌, length, vec_len, IfOk, All};
ghost use Rattle.ja_node_table.specs.Seats.{IsOf, known};
ghost use Rattle.node_bench.specs.Made.{IsAsked};
ghost use Rattle.node_bench.specs.Ready.{IsReady};

use crate::fill::fill;
use crate::job::Job;
use ja_base::{MAX_SLOTS, MIN_SLOTS, Memory};
use ja_node_core::AnyAim;
use ja_node_table::{NodeSeat, NodeTable, Parts};
use std::alloc::{AllocError, AllocFailed, Global};
use std::rt::Clock;
use std::thread::Threads;
use std::time::{Duration, Instant};
use std::{io, thread};

/// How large the table is, how full it is made, by how many threads nodes are asked for again, and
/// how often.
#[derive(Clone, Copy)]
pub struct Load {
    pub slots: u64,
    pub percent: u64,
    pub threads: u64,
    pub makes: u64,
}

/// How many nodes were asked for, at first and again, and how long it took.
#[derive(Clone, Copy)]
pub struct Measured {
    pub made: u64,
    pub making: Duration,
    pub again: u64,
    pub asking: Duration,
}

/// Why nothing was measured.
#[derive(Drop)]
pub enum Failure {
    NoSuchLoad,
    NoRoom,
    Memory,
    Clock,
}

impl From<Memory> for Failure {
    fn from(_error: Memory) -> Failure {
        Failure::Memory
    }
}

impl From<AllocError> for Failure {
    fn from(_error: AllocError) -> Failure {
        Failure::Memory
    }
}

impl<T: Drop> From<AllocFailed<T>> for Failure {
    fn from(_error: AllocFailed<T>) -> Failure {
        Failure::Memory
    }
}

impl From<io::Error> for Failure {
    fn from(_error: io::Error) -> Failure {
        Failure::Clock
    }
}

/// A job for each thread, each beginning at another place of the list.
fn make_jobs(
    alloc: Global,
    table: &NodeTable<AnyAim>,
    seat: &mut NodeSeat<AnyAim>,
    parts: &[Parts],
    threads: u64,
) -> Result<Vec<Job>, Failure>
    requires seat { IsOf table.now seat.old }
    requires parts { All (IsAsked (known seat.old)) parts.now }
    ensures { IfOk result (λ v. (vec_len v ≡ threads) × All (IsReady table.now parts.now) v.items) }
{
    let mut jobs = Vec::new(alloc);
    let share = parts.len() / (threads as usize).max(1);
    for number in 0..threads {
        let job = Job {
            seat: table.split(seat),
            first: share.wrapping_mul(number as usize),
            given: 0,
        };
        jobs.push(job)?;
    }
    Ok(jobs)
}

/// Runs the jobs, in as many threads.
fn run_all<R: Threads + Sync>(
    rt: &R,
    table: &NodeTable<AnyAim>,
    parts: &[Parts],
    jobs: &mut [Job],
    count: u64,
)
    requires jobs { All (IsReady table.now parts.now) jobs.old }
    requires threads { 0 < length jobs.old }
    ensures { All (IsReady table.now parts.now) jobs.new }
{
    let threads = jobs.len();
    thread::for_each_mut(rt, jobs, threads, &|_, job| job.run(table, parts, count));
}

/// Fills a table and asks for its nodes again.
pub fn measure<R: Threads + Clock + Sync>(
    rt: &R,
    alloc: Global,
    load: Load,
) -> Result<Measured, Failure> {
    if load.slots < MIN_SLOTS || load.slots > MAX_SLOTS || load.percent > 100 || load.threads == 0 {
        return Err(Failure::NoSuchLoad);
    }
    let (table, mut seat) = NodeTable::new(alloc, load.slots, AnyAim)?;
    let start = Instant::now(rt)?;
    let parts = fill(alloc, &table, &mut seat, load.slots * load.percent / 100)?;
    let making = start.elapsed(rt)?;
    let mut jobs = make_jobs(alloc, &table, &mut seat, &parts, load.threads)?;
    let start = Instant::now(rt)?;
    run_all(
        rt,
        &table,
        &parts,
        jobs.as_mut_slice(),
        load.makes / load.threads,
    );
    let asking = start.elapsed(rt)?;
    Ok(Measured {
        made: parts.len() as u64,
        making,
        again: jobs.iter().fold(0, |sum, job| sum.wrapping_add(job.given)),
        asking,
    })
}
