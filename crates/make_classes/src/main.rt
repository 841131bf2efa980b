//! Writes the classes of a listing as class files.
//!
//! `make_classes LISTING DIR` writes each class as `DIR/NAME.class`, with folders for its packages, and prints
//! `classes` and how many there are. Before DIR or a file is made, each class was put into bytes and read back,
//! and each name was tested. The status is 2 where the words are wrong; 3 where an item breaks the notation or
//! cannot be written, whose number is printed; 4 where reading or writing fails, where a name is no path below
//! DIR, and where two classes go to one file, which is told on the error output; 5 where a class is not read
//! back; and 7 where memory runs out.
#![tactic(auto)]

mod failure;
mod write;

use failure::Failure;
use ja_base::Names;
use std::process::ExitCode;
use std::rt::Runtime;
use std::{fs, io};
use tool_parts::{class_files, words_of};
use write::{check_names, text_of, write_files};

/// The two words, if there are two.
fn two_words(words: &Names) -> Result<(&str, &str), Failure> {
    match words.as_slice() {
        [listing, dir] => Ok((text_of(listing)?, text_of(dir)?)),
        _ => Err(Failure::Words),
    }
}

/// Writes the classes, and answers how many there are.
fn make<R: Runtime + AllocGlobal>(rt: &R) -> Result<u64, Failure> {
    let words = words_of(rt)?;
    let (listing, dir) = two_words(&words)?;
    let text = fs::read(rt, listing)?;
    let files = class_files(rt.alloc(), text.as_slice())?;
    check_names(rt.alloc(), files.as_slice())?;
    write_files(rt, dir, files.as_slice())?;
    Ok(files.len())
}

/// Prints what came of it, and answers the status.
fn report<R: Runtime>(rt: &R, outcome: &Result<u64, Failure>) -> io::Result<u8> {
    match outcome {
        Ok(count) => println!(rt; "classes {count}")?,
        Err(Failure::Words) => println!(rt; "usage: make_classes LISTING DIR")?,
        Err(Failure::Item { number }) => println!(rt; "item {number}")?,
        Err(Failure::Unread { place }) => println!(rt; "unread {place}")?,
        Err(Failure::Twice { name }) => eprintln!(rt; "two classes for one file: {name}")?,
        Err(Failure::Files | Failure::Memory) => (),
    }
    Ok(match outcome {
        Ok(_) => 0,
        Err(failure) => failure.status(),
    })
}

fn main(rt: HostRuntime) -> ExitCode {
    let outcome = make(&rt);
    ExitCode::from(report(&rt, &outcome).unwrap_or(4))
}
