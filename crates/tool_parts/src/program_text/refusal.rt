//! A refusal as text.
use ja_base::{Memory, Refusal};
use ja_verdict::refusal_line;
use std::alloc::Global;

/// The line of a refusal.
pub fn text_of_refusal(alloc: Global, refusal: &Refusal) -> Result<String, Memory> {
    let line = refusal_line(alloc, refusal)?;
    Ok(String::from_utf8_lossy(alloc, line.as_slice())?)
}
