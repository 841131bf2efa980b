//! Judges folders in memory that stand in text, and prints what comes of each.
//!
//! The stored input says how its lines are read. Behind `== ` and the title of each case the program prints
//! `accepted` and the lines of the program's classes, entries and sink calls, or the line of the refusal, or
//! `folder fault`.
#![tactic(auto)]

mod case;
mod files;

use case::cases_text;
use std::io;

fn main(rt: HostRuntime) -> io::Result<()> {
    let alloc = rt.alloc();
    let text = io::read_to_string(alloc, rt.reader())?;
    let told = cases_text(&rt, alloc, text.as_str());
    print!(rt;
        "{}",
        told.as_ref()
            .map_or("out of memory\n", |text| text.as_str())
    )
}
