//! The table of a case.
use ja_base::Memory;
use ja_lib::{Table, TableFault, default_table, read_table};
use std::alloc::Global;

/// The table that lines say: the default table where one is `! default`, and else what is read from the others,
/// without the questions.
pub fn table_of(alloc: Global, lines: &str) -> Result<Table, TableFault> {
    if lines.lines().any(|line| line == "! default") {
        return Ok(default_table(alloc)?);
    }
    let bytes = bytes_of(alloc, lines)?;
    read_table(alloc, bytes.as_slice())
}

/// The bytes of the lines that are no questions. A line `! byte HEX` stands for one byte.
fn bytes_of(alloc: Global, lines: &str) -> Result<Vec<u8>, Memory> {
    let mut bytes = Vec::new(alloc);
    for line in lines.lines() {
        if let Some(byte) = line.strip_prefix("! byte ") {
            bytes.push(u8::from_str_radix(byte, 16).unwrap_or(0))?;
        } else if !line.starts_with("? ") {
            bytes.extend_from_slice(line.as_bytes())?;
            bytes.push(b'\n')?;
        }
    }
    Ok(bytes)
}
