//! Class hierarchies that are made from text, and what each answers.
//!
//! For each hierarchy comes `== ` and its title; then `classes` and how many there are, and each question with its
//! answer, or else the fault.
mod answer;
mod asked;
mod case;
mod head;
mod range;
mod shown;
mod words;

use case::add_text;
use ja_base::Memory;
use std::alloc::Global;

/// What comes of the hierarchies of a text, as lines.
pub fn hierarchies_text(alloc: Global, text: &str) -> Result<String, Memory> {
    let mut out = String::new(alloc);
    for case in text.split("\nhierarchy ").skip(1) {
        add_text(&mut out, alloc, case)?;
    }
    Ok(out)
}
