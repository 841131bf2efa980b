//! A real directory and real streams, and what each answers.
//!
//! No clause says what a directory holds, or which bytes reach a stream, so it is said by the stored input and
//! output. Each line that asks something is printed with its answer.
mod directory;
mod stream;

use case_text::words_of;
use directory::{entered, front, listed};
use ja_io::DirFolder;
use std::fs::{self, File, Files};
use std::io;
use stream::{Deaf, taken};

/// The answer to the words of a line that asks a folder or a stream something.
fn answer(
    rt: &HostRuntime,
    folder: &mut DirFolder<&HostRuntime>,
    words: &[&str],
) -> io::Result<String> {
    let alloc = rt.alloc();
    match words {
        ["list"] => listed(alloc, folder),
        ["enter", dir] => entered(alloc, folder, dir),
        ["read", file, most] => front(alloc, folder, file, most),
        ["link", link, to] => linked(rt, link, to),
        ["write", text] => taken(alloc, rt.stdout(), text),
        ["deaf", text] => taken(alloc, Deaf, text),
        ["shut", file, text] => taken(alloc, File::open(rt, file)?, text),
        _ => Ok(String::from_str(alloc, "no question")?),
    }
}

/// Makes a symbolic link.
fn linked(rt: &HostRuntime, link: &str, to: &str) -> io::Result<String> {
    rt.symlink(to, link)?;
    Ok(String::from_str(rt.alloc(), "made")?)
}

/// Prints a line with its answer.
fn tell(rt: &HostRuntime, folder: &mut DirFolder<&HostRuntime>, line: &str) -> io::Result<()> {
    let words = words_of(rt.alloc(), line)?;
    print!(rt; "{line}: ")?;
    let answer = answer(rt, folder, words.as_slice())?;
    println!(rt; "{answer}")
}

/// Prints each line of a text that asks something, with its answer.
pub fn print_answers(rt: &HostRuntime, text: &str) -> io::Result<()> {
    let mut folder = DirFolder::new(rt);
    for line in text.lines() {
        if !line.starts_with('#') {
            tell(rt, &mut folder, line)?;
        }
    }
    Ok(())
}
