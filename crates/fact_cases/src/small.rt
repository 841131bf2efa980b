//! Sets, names and parameters, as lines of the input ask for them.
use case_text::words_of;
use ja_base::{ClassId, Desc, Memory, Name, NumbersByName, Seq};
use ja_bytes::method_desc;
use ja_facts::param_count;
use ja_ir::Method;
use ja_sets::{PairSet, TokenSet};
use std::alloc::Global;

/// What comes of the lines of a text that ask for something, each behind the line.
pub fn small_text(alloc: Global, text: &str) -> Result<String, Memory> {
    let mut out = String::new(alloc);
    add_lines(&mut out, alloc, text)?;
    Ok(out)
}

/// Adds what comes of the lines of a text.
fn add_lines(out: &mut String, alloc: Global, text: &str) -> Result<(), Memory> {
    for line in text.lines() {
        add_line(out, alloc, line)?;
    }
    Ok(())
}

/// Adds what comes of a line.
fn add_line(out: &mut String, alloc: Global, line: &str) -> Result<(), Memory> {
    let words = words_of(alloc, line)?;
    add_asked(out, alloc, line, words.as_slice())
}

/// Adds a line of these words and what it asks for, if it asks for something.
fn add_asked(out: &mut String, alloc: Global, line: &str, words: &[&str]) -> Result<(), Memory> {
    match words {
        ["set", size, number] => add_set(out, alloc, line, number_of(size), number_of(number)),
        ["pairs", size, first, second] => {
            let pair = (number_of(first), number_of(second));
            add_pair(out, alloc, line, number_of(size), pair)
        }
        ["names", noted @ .., asked] => add_numbers(out, alloc, line, noted, asked),
        ["params", flags, desc] => add_params(out, alloc, line, flags, desc),
        _ => Ok(()),
    }
}

/// The number that a word spells, or the largest where it spells none.
fn number_of(word: &str) -> u32 {
    word.parse::<u32>().unwrap_or(u32::MAX)
}

/// Adds whether a number is new in an empty set of numbers below a size, and the least number then.
fn add_set(
    out: &mut String,
    alloc: Global,
    line: &str,
    size: u32,
    number: u32,
) -> Result<(), Memory> {
    let mut set = TokenSet::new(alloc, size)?;
    if number >= size {
        return Ok(writeln!(out, "{line}: too large")?);
    }
    let added = set.add(number);
    Ok(writeln!(out, "{line}: added {added}, least {:?}", set.next_from(0))?)
}

/// Adds whether a pair is new in an empty set of pairs of numbers below a size.
fn add_pair(
    out: &mut String,
    alloc: Global,
    line: &str,
    size: u32,
    pair: (u32, u32),
) -> Result<(), Memory> {
    let mut pairs = PairSet::new(alloc, size)?;
    if pair.0 >= size || pair.1 >= size {
        return Ok(writeln!(out, "{line}: too large")?);
    }
    Ok(writeln!(out, "{line}: added {}", pairs.add(pair))?)
}

/// Notes a number for a name, if the word is `NAME=NUMBER`.
fn note(index: &mut NumbersByName, alloc: Global, word: &str) -> Result<(), Memory> {
    let Some((name, number)) = word.split_once('=') else {
        return Ok(());
    };
    let name = Name::of(alloc, name.as_bytes())?;
    index.note(alloc, &name, u64::from(number_of(number)))
}

/// Notes what words say.
fn note_all(index: &mut NumbersByName, alloc: Global, words: &[&str]) -> Result<(), Memory> {
    for word in words {
        note(index, alloc, word)?;
    }
    Ok(())
}

/// The numbers of names, where each word `NAME=NUMBER` notes one.
fn noted_numbers(alloc: Global, words: &[&str]) -> Result<NumbersByName, Memory> {
    let mut index = NumbersByName::new(alloc);
    note_all(&mut index, alloc, words)?;
    Ok(index)
}

/// Adds numbers.
fn add_each(out: &mut String, numbers: &[u64]) -> Result<(), Memory> {
    for number in numbers {
        write!(out, " {number}")?;
    }
    Ok(writeln!(out)?)
}

/// Adds the numbers of a name, where each word `NAME=NUMBER` notes one.
fn add_numbers(
    out: &mut String,
    alloc: Global,
    line: &str,
    noted: &[&str],
    asked: &str,
) -> Result<(), Memory> {
    write!(out, "{line}:")?;
    let asked = Name::of(alloc, asked.as_bytes())?;
    let index = noted_numbers(alloc, noted)?;
    add_each(out, index.at(&asked))
}

/// A method with these flags and types.
fn method(alloc: Global, flags: u32, types: Desc) -> Method {
    Method {
        class: ClassId(0),
        name: Name::from_vec(Vec::new(alloc)),
        desc: Name::from_vec(Vec::new(alloc)),
        types,
        flags,
        locals: 0,
        stack: 0,
        code: Seq::new(alloc),
        handlers: Seq::new(alloc),
    }
}

/// Adds how many parameters a method has.
fn add_count(out: &mut String, line: &str, method: &Method) -> Result<(), Memory> {
    Ok(writeln!(out, "{line}: {}", param_count(method))?)
}

/// Adds how many parameters a method with these flags, in hexadecimal digits, and this descriptor has.
fn add_params(
    out: &mut String,
    alloc: Global,
    line: &str,
    flags: &str,
    desc: &str,
) -> Result<(), Memory> {
    match method_desc(alloc, desc.as_bytes()) {
        Ok(types) => {
            let flags = u32::from_str_radix(flags, 16).unwrap_or(0);
            add_count(out, line, &method(alloc, flags, types))
        }
        Err(_fault) => Ok(writeln!(out, "{line}: no descriptor")?),
    }
}
