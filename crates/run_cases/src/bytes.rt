//! Bytes, names and numbers in text.
use case_text::{unescaped, words_of};
use ja_base::{Bytes, File, Files, Memory, Name, Numbers};
use std::alloc::{AllocError, Global};

/// Bytes that have a name in the input.
#[derive(Drop)]
pub struct Spelled {
    name: String,
    bytes: Vec<u8>,
}

/// The lines of a part that do not begin with `#`.
pub fn lines_of<'a>(alloc: Global, part: &'a str) -> Result<Vec<&'a str>, AllocError> {
    let mut lines = Vec::new(alloc);
    add_lines(&mut lines, part)?;
    Ok(lines)
}

/// Adds the lines of a part that do not begin with `#`.
fn add_lines<'a>(lines: &mut Vec<&'a str>, part: &'a str) -> Result<(), AllocError> {
    for line in part.lines() {
        if !line.is_empty() && !line.starts_with('#') {
            lines.push(line)?;
        }
    }
    Ok(())
}

/// The bytes that lines spell, each by two hexadecimal digits.
pub fn spelled_of(alloc: Global, name: &str, lines: &[&str]) -> Result<Spelled, Memory> {
    let name = name.to_string(alloc)?;
    let bytes = bytes_of(alloc, lines)?;
    Ok(Spelled { name, bytes })
}

/// The bytes that lines spell.
fn bytes_of(alloc: Global, lines: &[&str]) -> Result<Vec<u8>, AllocError> {
    let mut bytes = Vec::new(alloc);
    for line in lines {
        add_bytes(&mut bytes, line)?;
    }
    Ok(bytes)
}

/// Adds the bytes that a line spells.
fn add_bytes(bytes: &mut Vec<u8>, line: &str) -> Result<(), AllocError> {
    for word in line.split_whitespace() {
        bytes.push(byte_of(word))?;
    }
    Ok(())
}

/// The byte that two hexadecimal digits spell.
fn byte_of(digits: &str) -> u8 {
    u8::from_str_radix(digits, 16).unwrap_or(0)
}

/// The number that a word spells, or 0.
pub fn number_of(word: &str) -> u64 {
    word.parse::<u64>().unwrap_or(0)
}

/// The name that a word spells: `''` without bytes, else its bytes, in which `\x` and two hexadecimal digits stand
/// for a byte.
pub fn name_of(alloc: Global, word: &str) -> Result<Name, Memory> {
    let word = if word == "''" { "" } else { word };
    Ok(Name::from_vec(unescaped(alloc, word)?))
}

/// The files of the lines `file NAME BYTES CHANGE..` and `zeros NAME COUNT`.
pub fn files_of(alloc: Global, spelled: &[Spelled], lines: &[&str]) -> Result<Files, Memory> {
    let mut files = Files::new(alloc);
    add_files(&mut files, alloc, spelled, lines)?;
    Ok(files)
}

/// Adds the files of lines.
fn add_files(
    files: &mut Files,
    alloc: Global,
    spelled: &[Spelled],
    lines: &[&str],
) -> Result<(), Memory> {
    for line in lines {
        let words = words_of(alloc, line)?;
        add_file(files, alloc, spelled, words.as_slice())?;
    }
    Ok(())
}

/// Adds the file that words say, if they say one.
fn add_file(
    files: &mut Files,
    alloc: Global,
    spelled: &[Spelled],
    words: &[&str],
) -> Result<(), Memory> {
    match words {
        ["file", name, of, changes @ ..] => {
            let bytes = changed(alloc, spelled, of, changes)?;
            push_file(files, alloc, name, bytes)
        }
        ["zeros", name, count] => {
            let bytes = zeros(alloc, number_of(count))?;
            push_file(files, alloc, name, bytes)
        }
        _ => Ok(()),
    }
}

/// Adds a file with a name that a word spells.
fn push_file(files: &mut Files, alloc: Global, name: &str, bytes: Bytes) -> Result<(), Memory> {
    let name = name_of(alloc, name)?;
    files.push(File { name, bytes })
}

/// So many zero bytes.
fn zeros(alloc: Global, count: u64) -> Result<Bytes, Memory> {
    Ok(Bytes::from_vec(Vec::from_elem(alloc, 0, count as usize)?))
}

/// The bytes of a name, with changes.
fn changed(
    alloc: Global,
    spelled: &[Spelled],
    of: &str,
    changes: &[&str],
) -> Result<Bytes, Memory> {
    let known = spelled
        .iter()
        .find(|known| known.name.as_str() == of)
        .map_or([].as_slice(), |known| known.bytes.as_slice());
    let mut bytes = Vec::from_slice(alloc, known)?;
    change_all(&mut bytes, changes)?;
    Ok(Bytes::from_vec(bytes))
}

/// Makes changes.
fn change_all(bytes: &mut Vec<u8>, changes: &[&str]) -> Result<(), AllocError> {
    for change in changes {
        change_bytes(bytes, change)?;
    }
    Ok(())
}

/// A change: `PLACE=HEX` puts a byte at a place, and `+HEX` behind the others.
fn change_bytes(bytes: &mut Vec<u8>, change: &str) -> Result<(), AllocError> {
    if let Some(byte) = change.strip_prefix("+") {
        return Ok(bytes.push(byte_of(byte))?);
    }
    if let Some((place, byte)) = change.split_once('=') {
        if let Some(at) = bytes.get_mut(number_of(place) as usize) {
            *at = byte_of(byte);
        }
    }
    Ok(())
}

/// The numbers behind a word, in the lines that begin with it.
pub fn numbers_behind(alloc: Global, lines: &[&str], head: &str) -> Result<Numbers, Memory> {
    let mut numbers = Numbers::new(alloc);
    for line in lines {
        if let Some(rest) = line.strip_prefix(head) {
            add_numbers(&mut numbers, rest)?;
        }
    }
    Ok(numbers)
}

/// Adds the numbers that words spell.
fn add_numbers(numbers: &mut Numbers, words: &str) -> Result<(), Memory> {
    for word in words.split_whitespace() {
        numbers.push(number_of(word))?;
    }
    Ok(())
}
