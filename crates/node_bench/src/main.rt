//! Measures how many nodes a second a shared table makes, at a load and by a number of threads.
//!
//! `node_bench SLOTS PERCENT THREADS MAKES` fills a table of SLOTS slots to PERCENT per cent. Then
//! THREADS threads ask MAKES times for a node that is there already. It prints how long both took.
//! `node_bench SLOTS PERCENT` fills a table with nodes of relations instead, and prints how many
//! places were looked at for them. With any other words it fills a small table in the first way,
//! and prints what it made.
#![tactic(auto)]

mod ask;
mod fill;
mod job;
mod load;
mod relations;
mod tally;

use load::{Failure, Load, Measured, measure};
use relations::fill_with_relations;
use std::rt::Env;
use std::{env, io};

const SMALL: Load = Load {
    slots: 65_536,
    percent: 50,
    threads: 2,
    makes: 100_000,
};

/// What the words ask for.
#[derive(Clone, Copy)]
enum Asked {
    Small,
    Full(Load),
    Relations { slots: u64, percent: u64 },
}

/// What the words ask for: a load by four numbers, or relations by two.
fn asked_of<R: Env + AllocGlobal>(rt: &R) -> io::Result<Asked> {
    let mut numbers = [0u64; 4];
    let mut count = 0;
    for word in env::args(rt)?.skip(1) {
        let Ok(number) = word.as_str().parse::<u64>() else {
            return Ok(Asked::Small);
        };
        if count >= 4 {
            return Ok(Asked::Small);
        }
        numbers[count] = number;
        count += 1;
    }
    let [slots, percent, threads, makes] = numbers;
    Ok(match count {
        2 => Asked::Relations { slots, percent },
        4 => Asked::Full(Load {
            slots,
            percent,
            threads,
            makes,
        }),
        _ => Asked::Small,
    })
}

fn text(failure: Failure) -> &'static str {
    match failure {
        Failure::NoSuchLoad => "no such load",
        Failure::NoRoom => "no room in the table",
        Failure::Memory => "no memory",
        Failure::Clock => "no clock",
    }
}

/// Fills a table with nodes of relations, and prints how many places were looked at.
fn print_relations(rt: &HostRuntime, slots: u64, percent: u64) -> io::Result<()> {
    match fill_with_relations(rt.alloc(), slots, percent) {
        Err(failure) => println!(rt; "{}", text(failure)),
        Ok(tally) => println!(rt;
            "nodes {}, makes {}, probes {}",
            tally.nodes, tally.makes, tally.probes
        ),
    }
}

fn main(rt: HostRuntime) -> io::Result<()> {
    let (load, small) = match asked_of(&rt)? {
        Asked::Small => (SMALL, true),
        Asked::Full(load) => (load, false),
        Asked::Relations { slots, percent } => return print_relations(&rt, slots, percent),
    };
    match measure(&rt, rt.alloc(), load) {
        Err(failure) => println!(rt; "{}", text(failure)),
        Ok(Measured { made, again, .. }) if small => println!(rt;
            "made {made}, asked again {again}"
        ),
        Ok(
            Measured {
                made,
                making,
                again,
                asking,
            },
        ) => {
            let making = making.as_nanos();
            let asking = asking.as_nanos();
            println!(rt; "made {made} in {making} ns, asked again {again} in {asking} ns")
        }
    }
}
