//! What is asked for by name.
use ja_base::{Memory, Name};
use std::alloc::Global;

/// The name of a member or of a class, and the descriptors of a field and of a method.
#[derive(Drop)]
pub struct Asked {
    pub name: Name,
    pub field: Name,
    pub method: Name,
}

/// What a word asks for.
pub fn question_of(alloc: Global, word: &str) -> Result<Asked, Memory> {
    Ok(Asked {
        name: Name::of(alloc, word.as_bytes())?,
        field: Name::of(alloc, b"I")?,
        method: Name::of(alloc, b"()V")?,
    })
}
