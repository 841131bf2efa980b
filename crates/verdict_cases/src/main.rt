//! Prints the texts that a run writes, and programs as one category of marks sees them.
//!
//! Each line of the stored input, which says how it is read, is printed, and behind it what it asks for. A program is
//! that of a listing `cases/NAME.txt` under the table `cases/NAME.toml`, where there is one, or else the default table.
#![tactic(auto)]

mod answer;
mod program;
mod refusal;
mod report;
mod words;

use answer::told;
use ja_base::Name;
use program::Cases;
use std::io;
use tool_parts::files_in;

/// The files of the cases.
fn cases_of(rt: HostRuntime) -> io::Result<Cases> {
    let dir = Name::of(rt.alloc(), b"cases").map_err(|_| io::Error::from(
        io::ErrorKind::OutOfMemory,
    ))?;
    let listings = files_in(rt, &dir, b".txt")?;
    let tables = files_in(rt, &dir, b".toml")?;
    Ok(Cases { listings, tables })
}

fn main(rt: HostRuntime) -> io::Result<()> {
    let text = io::read_to_string(rt.alloc(), rt.reader())?;
    let cases = cases_of(rt)?;
    for line in text.as_str().lines() {
        if !line.starts_with('#') {
            let text = told(&rt, rt.alloc(), &cases, line);
            print!(rt;
                "{line}\n{}",
                text.as_ref()
                    .map_or("out of memory\n", |text| text.as_str())
            )?;
        }
    }
    Ok(())
}
