//! Cases of whole class files.
use crate::case::CaseFault;
use crate::class_text::{add_class, add_first_method};
use ja_class::{ClassFault, FirstFault, read_class, read_first};
use std::alloc::{AllocError, Global};

/// Adds what is read of bytes as a class file.
pub fn add_read_class(alloc: Global, out: &mut String, bytes: &[u8]) -> Result<(), CaseFault> {
    match read_class(alloc, bytes) {
        Ok(class) => Ok(add_class(out, &class)?),
        Err(ClassFault::Memory) => Err(CaseFault::Memory),
        Err(fault) => Ok(writeln!(out, "  {fault:?}")?),
    }
}

/// The fault of a front of bytes, if it has one.
fn fault_of_front(alloc: Global, bytes: &[u8], length: usize) -> Option<ClassFault> {
    read_class(alloc, bytes.get(..length).unwrap_or(&[])).err()
}

/// Adds which fault the fronts of bytes have, from the lengths on at which it is another one than before.
pub fn add_class_cuts(alloc: Global, out: &mut String, bytes: &[u8]) -> Result<(), AllocError> {
    let mut before = None;
    for length in 0..=bytes.len() {
        let fault = fault_of_front(alloc, bytes, length);
        if before != Some(fault) {
            writeln!(out, "  length {length} {fault:?}")?;
            before = Some(fault);
        }
    }
    Ok(())
}

/// Adds what is read of a class of the first form.
pub fn add_first(alloc: Global, out: &mut String, bytes: &[u8]) -> Result<(), CaseFault> {
    match read_first(alloc, bytes) {
        Ok(method) => Ok(add_first_method(out, &method)?),
        Err(FirstFault::Memory) => Err(CaseFault::Memory),
        Err(fault) => Ok(writeln!(out, "  {fault:?}")?),
    }
}
