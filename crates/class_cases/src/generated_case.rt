//! Cases of generated classes.
use crate::case::{CaseFault, parted};
use crate::class_case::add_read_class;
use case_text::ShownBytes;
use ja_base::MAX_GENERATED_CLASSES;
use ja_generator::generated;
use std::alloc::Global;

/// The number below 2^32 that a word is.
fn number_of(word: &str) -> Result<u32, CaseFault> {
    match word.parse::<u32>() {
        Ok(number) => Ok(number),
        Err(_) => Err(CaseFault::Notation),
    }
}

/// Adds the files of so many classes that are made from a number, each as it is read back.
pub fn add_generated(alloc: Global, out: &mut String, text: &str) -> Result<(), CaseFault> {
    let (number, classes) = parted(text);
    let number = number_of(number)?;
    let classes = number_of(classes)?;
    if classes > MAX_GENERATED_CLASSES {
        return Err(CaseFault::Notation);
    }
    let files = generated(alloc, number, classes)?;
    for file in files.as_slice() {
        writeln!(out, "  file {}", ShownBytes(file.name.bytes()))?;
        add_read_class(alloc, out, file.bytes.as_slice())?;
    }
    Ok(())
}
