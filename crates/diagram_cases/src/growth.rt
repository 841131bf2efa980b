//! Tables of diagram nodes, whose roots grow into other tables.
mod grown;
mod tables;

use ja_base::Memory;
use std::alloc::Global;
use tables::add_case;

/// What comes of the tables that a text spells, as lines.
pub fn growth_text(alloc: Global, text: &str) -> Result<String, Memory> {
    let mut out = String::new(alloc);
    add_cases(&mut out, alloc, text)?;
    Ok(out)
}

/// Adds what the roots of each table become.
fn add_cases(out: &mut String, alloc: Global, text: &str) -> Result<(), Memory> {
    for case in text.split("\nfrom ").skip(1) {
        if let Some((head, lines)) = case.split_once('\n') {
            add_case(out, alloc, head, lines)?;
        }
    }
    Ok(())
}
