//! Opcodes, and cases of their table.
use crate::case::{CaseFault, number_of};
use ja_code::{Form, Opcode};
use std::fmt;

/// An opcode: its number and its mnemonic.
#[derive(Clone, Copy)]
pub struct OpcodeText(pub Opcode);

impl fmt::Display for OpcodeText {
    fn fmt<W: fmt::Write>(&self, f: &mut fmt::Formatter<W>) -> fmt::Result {
        write!(f, "{} {}", self.0.number(), self.0.mnemonic())
    }
}

/// Whether the first operand of an opcode is an index of the pool.
pub fn has_index(opcode: Opcode) -> bool {
    matches!(
        opcode.form(),
        Form::ByteIndex | Form::Index(_) | Form::Interface | Form::Dimensions
    )
}

/// The word of an opcode's form.
fn form_word(form: Form) -> &'static str {
    match form {
        Form::Wide => "wide",
        Form::TableSwitch | Form::LookupSwitch => "switch",
        Form::Branch | Form::FarBranch => "branch",
        Form::ByteIndex | Form::Index(_) => "index",
        Form::Interface | Form::Dynamic | Form::Dimensions => "index and more",
        Form::Plain => "plain",
        _ => "numbers",
    }
}

/// Adds what the table says of an opcode.
pub fn add_opcode(out: &mut String, text: &str) -> Result<(), CaseFault> {
    let Ok(number) = u8::try_from(number_of(text)?) else {
        return Err(CaseFault::Notation);
    };
    match Opcode::of(number) {
        Some(opcode) => writeln!(
            out,
            "  {}, form {}{}",
            OpcodeText(opcode),
            form_word(opcode.form()),
            if opcode.is_refused() { ", refused" } else { "" }
        )?,
        None => writeln!(out, "  {number} none, form none")?,
    }
    Ok(())
}

/// Adds the opcode with a mnemonic.
pub fn add_mnemonic(out: &mut String, text: &str) -> Result<(), CaseFault> {
    match Opcode::named(text.as_bytes()) {
        Some(opcode) => writeln!(out, "  {}", opcode.number())?,
        None => writeln!(out, "  none")?,
    }
    Ok(())
}
