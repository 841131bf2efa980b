//! Bytes in words.
use std::alloc::{AllocError, Global};

/// The bytes that a word spells: its own, in which `\x` and two hexadecimal digits stand for a byte.
pub fn unescaped(alloc: Global, word: &str) -> Result<Vec<u8>, AllocError> {
    let mut bytes = Vec::new(alloc);
    for (place, part) in word.split("\\x").enumerate() {
        if place == 0 {
            bytes.extend_from_slice(part.as_bytes())?;
        } else {
            add_part(&mut bytes, part.as_bytes())?;
        }
    }
    Ok(bytes)
}

/// Adds the byte with whose digits a part begins, and what stands behind them.
fn add_part(bytes: &mut Vec<u8>, part: &[u8]) -> Result<(), AllocError> {
    match part {
        [high, low, behind @ ..] => {
            bytes.push(byte_of(*high, *low))?;
            bytes.extend_from_slice(behind)
        }
        _ => Ok(()),
    }
}

/// The byte that two hexadecimal digits spell, or 0.
fn byte_of(high: u8, low: u8) -> u8 {
    let digits = [high, low];
    u8::from_str_radix(str::from_utf8(&digits).unwrap_or(""), 16).unwrap_or(0)
}
