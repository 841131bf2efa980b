//! Cases of texts, descriptors and names.
use crate::case::CaseFault;
use case_text::ShownBytes;
use ja_base::{Desc, JavaType};
use ja_bytes::{DescFault, field_desc, method_desc, modified_utf8};
use std::alloc::{AllocError, Global};

/// Adds whether bytes are modified UTF-8.
pub fn add_utf8(out: &mut String, bytes: &[u8]) -> Result<(), AllocError> {
    match modified_utf8(bytes) {
        Ok(()) => writeln!(out, "  text"),
        Err(wrong) => writeln!(out, "  {wrong:?}"),
    }
}

/// Adds a type.
fn add_type(out: &mut String, typed: &JavaType) -> Result<(), AllocError> {
    write!(out, " {:?} {}", typed.kind, ShownBytes(typed.name.bytes()))
}

/// Adds the types of a method.
fn add_desc(out: &mut String, desc: &Desc) -> Result<(), AllocError> {
    write!(out, "  words {} parameters", desc.words)?;
    for param in desc.params.as_slice() {
        add_type(out, param)?;
    }
    match &desc.result {
        Some(result) => {
            write!(out, " result")?;
            add_type(out, result)?;
            writeln!(out)
        }
        None => writeln!(out, " no result"),
    }
}

/// Adds a fault.
fn add_fault(out: &mut String, fault: DescFault) -> Result<(), CaseFault> {
    match fault {
        DescFault::Memory => Err(CaseFault::Memory),
        other => Ok(writeln!(out, "  {other:?}")?),
    }
}

/// Adds what the descriptor of a method says.
pub fn add_method(alloc: Global, out: &mut String, bytes: &[u8]) -> Result<(), CaseFault> {
    match method_desc(alloc, bytes) {
        Ok(desc) => Ok(add_desc(out, &desc)?),
        Err(fault) => add_fault(out, fault),
    }
}

/// Adds what the descriptor of a field says.
pub fn add_field(alloc: Global, out: &mut String, bytes: &[u8]) -> Result<(), CaseFault> {
    match field_desc(alloc, bytes) {
        Ok(kind) => Ok(writeln!(out, "  {kind:?}")?),
        Err(fault) => add_fault(out, fault),
    }
}
