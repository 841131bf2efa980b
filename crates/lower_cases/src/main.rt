//! Takes cases through writing, reading and lowering, and prints what comes of each.
//!
//! A case is a listing `cases/NAME.txt`, each class of which is the file of its name, and its table is
//! `cases/NAME.toml`, where there is one, or else the default table. In a listing `{FROM..TO:PART}` stands for
//! PART with each number from FROM to before TO, where `#` is that number and `%` the next one. For each case, in
//! byte order of the names, the program prints `== NAME`, and then the text of the program or the line of the
//! refusal; of a program of more than 1,000 lines, how many are of classes, methods and sink calls. Each case is
//! lowered as `lower` does it, in one piece and in many, and a line says so where these differ.
#![tactic(auto)]

mod case;

use case::case_text;
use ja_base::{File, Name};
use std::io;
use tool_parts::files_in;

/// The bytes of the table of the case with this name.
fn table_of<'a>(tables: &'a [File], case: &[u8]) -> Option<&'a [u8]> {
    tables
        .iter()
        .find(|table| table.name.bytes().strip_suffix(b".toml") == Some(case))
        .map(|table| table.bytes.as_slice())
}

fn main(rt: HostRuntime) -> io::Result<()> {
    let alloc = rt.alloc();
    let dir = Name::of(alloc, b"cases").map_err(|_| io::Error::from(io::ErrorKind::OutOfMemory))?;
    let cases = files_in(rt, &dir, b".txt")?;
    let tables = files_in(rt, &dir, b".toml")?;
    for case in cases.as_slice() {
        let name = case.name.bytes().strip_suffix(b".txt").unwrap_or(b"");
        let text = case_text(
            &rt,
            alloc,
            case.bytes.as_slice(),
            table_of(tables.as_slice(), name),
        );
        println!(rt; "== {}", str::from_utf8(name).unwrap_or("?"))?;
        print!(rt;
            "{}",
            text.as_ref()
                .map_or("out of memory\n", |text| text.as_str())
        )?;
    }
    Ok(())
}
