//! Bytes as words.
use crate::case::{CaseFault, number_of};
use ja_base::File;
use std::alloc::Global;

/// The bytes that are kept under a name.
pub fn kept_bytes<'a>(kept: &'a [File], name: &str) -> Result<&'a [u8], CaseFault> {
    let found = kept
        .iter()
        .find(|file| file.name.bytes() == name.as_bytes());
    match found {
        Some(file) => Ok(file.bytes.as_slice()),
        None => Err(CaseFault::Notation),
    }
}

/// The value of a hexadecimal digit.
fn digit_of(digit: u8) -> Result<u8, CaseFault> {
    match char::from(digit).to_digit(16) {
        Some(value) => Ok(u8::try_from(value).unwrap_or(0)),
        None => Err(CaseFault::Notation),
    }
}

/// The bytes that hexadecimal digits spell.
pub fn hexadecimal(alloc: Global, digits: &[u8]) -> Result<Vec<u8>, CaseFault> {
    let mut bytes = Vec::new(alloc);
    let mut high = None;
    for digit in digits {
        let value = digit_of(*digit)?;
        match high {
            None => high = Some(value),
            Some(first) => {
                bytes.push(value.wrapping_add(first.wrapping_mul(16)))?;
                high = None;
            }
        }
    }
    match high {
        None => Ok(bytes),
        Some(_) => Err(CaseFault::Notation),
    }
}

/// The bytes with new ones in place of so many from a place on.
fn changed(
    alloc: Global,
    bytes: &[u8],
    place: usize,
    length: usize,
    new: &[u8],
) -> Result<Vec<u8>, CaseFault> {
    let mut changed = Vec::from_slice(alloc, bytes.get(..place).unwrap_or(&[]))?;
    changed.extend_from_slice(new)?;
    changed.extend_from_slice(bytes.get(place.saturating_add(length)..).unwrap_or(&[]))?;
    Ok(changed)
}

/// Makes a change, `PLACE` or `PLACE/LENGTH`, by digits.
fn change(alloc: Global, bytes: &mut Vec<u8>, place: &str, digits: &str) -> Result<(), CaseFault> {
    let new = hexadecimal(alloc, digits.as_bytes())?;
    let (place, length) = place_and_length(place, new.len())?;
    *bytes = changed(alloc, bytes.as_slice(), place, length, new.as_slice())?;
    Ok(())
}

/// The place and the length of a change, which is so long where no length is given.
fn place_and_length(place: &str, length: usize) -> Result<(usize, usize), CaseFault> {
    match place.split_once('/') {
        Some((place, length)) => Ok((number_of(place)?, number_of(length)?)),
        None => Ok((number_of(place)?, length)),
    }
}

/// Adds so many times the bytes that digits spell.
fn add_times(
    alloc: Global,
    bytes: &mut Vec<u8>,
    count: &str,
    digits: &str,
) -> Result<(), CaseFault> {
    let times = hexadecimal(alloc, digits.as_bytes())?;
    for _ in 0..number_of(count)? {
        bytes.extend_from_slice(times.as_slice())?;
    }
    Ok(())
}

/// Adds the bytes that digits spell.
fn add_digits(alloc: Global, bytes: &mut Vec<u8>, digits: &str) -> Result<(), CaseFault> {
    let more = hexadecimal(alloc, digits.as_bytes())?;
    bytes.extend_from_slice(more.as_slice())?;
    Ok(())
}

/// Does what a word with digits says.
fn take_digits(alloc: Global, bytes: &mut Vec<u8>, word: &str) -> Result<(), CaseFault> {
    if let Some((place, digits)) = word.split_once('=') {
        return change(alloc, bytes, place, digits);
    }
    match word.split_once('*') {
        Some((count, digits)) => add_times(alloc, bytes, count, digits),
        None => add_digits(alloc, bytes, word),
    }
}

/// Does what a word says.
fn take_word(
    alloc: Global,
    kept: &[File],
    bytes: &mut Vec<u8>,
    word: &str,
) -> Result<(), CaseFault> {
    if let Some(name) = word.strip_prefix('@') {
        bytes.extend_from_slice(kept_bytes(kept, name)?)?;
    } else if let Some(text) = word.strip_prefix('"') {
        bytes.extend_from_slice(text.strip_suffix('"').unwrap_or(text).as_bytes())?;
    } else if let Some(length) = word.strip_prefix('<') {
        bytes.truncate(number_of(length)?);
    } else {
        take_digits(alloc, bytes, word)?;
    }
    Ok(())
}

/// The bytes that words spell.
pub fn bytes_of(alloc: Global, kept: &[File], text: &str) -> Result<Vec<u8>, CaseFault> {
    let mut bytes = Vec::new(alloc);
    for word in text.split_whitespace() {
        take_word(alloc, kept, &mut bytes, word)?;
    }
    Ok(bytes)
}
