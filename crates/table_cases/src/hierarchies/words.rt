//! What words spell.
use std::alloc::{AllocError, Global};

/// The number that a word spells, or the largest where it spells none.
pub fn number(word: &str) -> u32 {
    word.parse::<u32>().unwrap_or(u32::MAX)
}

/// The number that a word spells in hexadecimal digits, or the largest where it spells none.
pub fn hexadecimal(word: &str) -> u32 {
    u32::from_str_radix(word, 16).unwrap_or(u32::MAX)
}

/// The word at a place, or else no letter.
pub fn word<'a>(words: &[&'a str], place: usize) -> &'a str {
    words.get(place).copied().unwrap_or("")
}

/// A prefix and a number.
pub fn numbered(alloc: Global, prefix: &str, number: u32) -> Result<String, AllocError> {
    format!(in alloc; "{prefix}{number}")
}
