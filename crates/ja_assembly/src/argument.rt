//! The words of the arguments of a method (JVM specification 4.3.3).

ghost use Rattle.std.specs.Prelude.{◌≡◌, IfOk};
ghost use Rattle.ja_assembly.specs.Arguments.{words_of_byte, part_of_type, part_behind, is_end, argument_words};

use crate::labels::place_behind;
use ja_base::Memory;

/// Where a descriptor is read.
#[derive(Clone, Copy)]
pub enum Part {
    /// At the beginning of a type.
    Plain,
    /// Behind the brackets of an array.
    Array,
    /// In the name of a class.
    Name,
}

/// The words that a byte brings.
fn words_of_byte(part: Part, byte: u8) -> u64
    ensures { result ≡ words_of_byte part byte }
{
    match part {
        Part::Plain => match byte {
            b'D' | b'J' => 2,
            b'(' | b'[' => 0,
            _ => 1,
        },
        Part::Array => match byte {
            b'[' => 0,
            _ => 1,
        },
        Part::Name => 0,
    }
}

/// The part behind a type, a bracket or an 'L'.
fn part_of_type(byte: u8) -> Part
    ensures { result ≡ part_of_type byte }
{
    match byte {
        b'[' => Part::Array,
        b'L' => Part::Name,
        _ => Part::Plain,
    }
}

/// The part behind a byte.
fn part_behind(part: Part, byte: u8) -> Part
    ensures { result ≡ part_behind part byte }
{
    match part {
        Part::Plain | Part::Array => part_of_type(byte),
        Part::Name if byte == b';' => Part::Plain,
        Part::Name => Part::Name,
    }
}

/// Whether a byte ends the parameters.
fn is_end(part: Part, byte: u8) -> bool
    ensures { result ≡ is_end part byte }
{
    match part {
        Part::Plain | Part::Array => byte == b')',
        Part::Name => false,
    }
}

/// The words of the arguments of a method with this descriptor, with the receiver.
pub fn argument_words(desc: &[u8]) -> Result<u64, Memory>
    ensures { IfOk result (λ words. words ≡ argument_words desc.now) }
{
    let mut words = 1u64;
    let mut part = Part::Plain;
    let mut rest = desc;
    while let Some((byte, behind)) = rest.split_first() {
        if is_end(part, *byte) {
            return Ok(words);
        }
        words = place_behind(words, words_of_byte(part, *byte))?;
        part = part_behind(part, *byte);
        rest = behind;
    }
    Ok(words)
}
