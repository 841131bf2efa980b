//! Table files that stand in text, and what each says.
//!
//! Behind `== ` and the title of each case comes, of a table, `read` or the fault, and each question with its
//! answer; of tables of one line each the line, and behind ` => ` the same.
mod answer;
mod case;
mod shown;
mod text;

use case::add_case;
use ja_base::Memory;
use std::alloc::Global;

/// What comes of the tables of a text, as lines.
pub fn tables_text(alloc: Global, text: &str) -> Result<String, Memory> {
    let mut out = String::new(alloc);
    for case in text.split("\ntable").skip(1) {
        add_case(&mut out, alloc, case)?;
    }
    Ok(out)
}
