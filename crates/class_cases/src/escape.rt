//! The bytes of a listing that a line says.
use crate::case::CaseFault;
use crate::spelling::hexadecimal;
use case_text::repeated;
use std::alloc::Global;

/// Adds what stands behind a backslash.
fn add_escape(alloc: Global, bytes: &mut Vec<u8>, part: &[u8]) -> Result<(), CaseFault> {
    match part {
        [b'n', behind @ ..] => {
            bytes.push(b'\n')?;
            bytes.extend_from_slice(behind)?;
            Ok(())
        }
        [b'x', high, low, behind @ ..] => {
            let byte = hexadecimal(alloc, &[*high, *low])?;
            bytes.extend_from_slice(byte.as_slice())?;
            bytes.extend_from_slice(behind)?;
            Ok(())
        }
        _ => Err(CaseFault::Notation),
    }
}

/// The bytes of a listing.
pub fn listing_of(alloc: Global, text: &str) -> Result<Vec<u8>, CaseFault> {
    let text = repeated(alloc, text)?;
    let mut bytes = Vec::new(alloc);
    for (place, part) in text.as_str().split('\\').enumerate() {
        if place == 0 {
            bytes.extend_from_slice(part.as_bytes())?;
        } else {
            add_escape(alloc, &mut bytes, part.as_bytes())?;
        }
    }
    Ok(bytes)
}
