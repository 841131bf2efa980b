//! Makes the orders of the variables of listed classes' methods, and prints them.
//!
//! A case is a listing `cases/NAME.txt`, in which `{FROM..TO:PART}` stands for PART with each number from FROM to
//! before TO, where `#` is that number and `%` the next one. For each case, in byte order of the names, the program
//! prints `== NAME`, and then for each method with code its name and its slots in the order of their places: `p` with
//! its number for a local that parameters take, `l` for another local, `s` with the number of values under it for a
//! value on the stack, `dirt` and `exc`.
#![tactic(auto)]

mod case;
mod slots;

use case::case_text;
use ja_base::Name;
use std::io;
use tool_parts::files_in;

fn main(rt: HostRuntime) -> io::Result<()> {
    let alloc = rt.alloc();
    let dir = Name::of(alloc, b"cases").map_err(|_| io::Error::from(io::ErrorKind::OutOfMemory))?;
    let cases = files_in(rt, &dir, b".txt")?;
    for case in cases.as_slice() {
        let name = case.name.bytes().strip_suffix(b".txt").unwrap_or(b"");
        let text = case_text(&rt, alloc, case.bytes.as_slice());
        println!(rt; "== {}", str::from_utf8(name).unwrap_or("?"))?;
        print!(rt;
            "{}",
            text.as_ref().map_or("no program\n", |text| text.as_str())
        )?;
    }
    Ok(())
}
