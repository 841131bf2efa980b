//! Runs the analyser over folders and sinks in memory that stand in text, and prints what comes of each.
//!
//! The stored input says how its lines are read. Behind `== ` and the title of each case the program prints, of a
//! run, `status`, the exit status, and the bytes that were written; of a folder or a sink what each call answers.
#![tactic(auto)]

mod bytes;
mod case;
mod folder;
mod runs;
mod sink;

use case::cases_text;
use std::io;

fn main(rt: HostRuntime) -> io::Result<()> {
    let alloc = rt.alloc();
    let text = io::read_to_string(alloc, rt.reader())?;
    let told = cases_text(&rt, alloc, text.as_str());
    print!(rt;
        "{}",
        told.as_ref()
            .map_or("out of memory\n", |text| text.as_str())
    )
}
