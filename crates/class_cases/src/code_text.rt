//! Instructions and entries of exception tables as text.
use crate::entry_text::EntryText;
use crate::opcode_case::{OpcodeText, has_index};
use ja_code::{Code, RawHandler, RawInstr};
use ja_pool::Pool;
use std::alloc::AllocError;
use std::fmt;

/// The operands of an instruction, with what the first one names where it is an index of a pool that is given.
#[derive(Clone, Copy)]
struct OperandsText<'a>(Option<&'a Pool>, &'a RawInstr);

impl fmt::Display for OperandsText<'_> {
    fn fmt<W: fmt::Write>(&self, f: &mut fmt::Formatter<W>) -> fmt::Result {
        let OperandsText(pool, instr) = *self;
        let names = has_index(instr.opcode);
        for (place, operand) in instr.operands.as_slice().iter().enumerate() {
            match pool {
                Some(pool) if names && place == 0 => {
                    let index = u32::try_from(*operand).unwrap_or(0);
                    write!(f, " {}", EntryText(pool, index))?;
                }
                _ => write!(f, " {operand}")?,
            }
        }
        Ok(())
    }
}

/// Adds the line of an instruction: its place, its opcode and mnemonic, its operands and its length.
fn add_instr(out: &mut String, pool: Option<&Pool>, instr: &RawInstr) -> Result<(), AllocError> {
    writeln!(
        out,
        "    {} {}{}{} length {}",
        instr.pc,
        if instr.wide { "wide " } else { "" },
        OpcodeText(instr.opcode),
        OperandsText(pool, instr),
        instr.length
    )
}

/// What an entry of an exception table catches.
#[derive(Clone, Copy)]
struct CatchText<'a>(Option<&'a Pool>, u16);

impl fmt::Display for CatchText<'_> {
    fn fmt<W: fmt::Write>(&self, f: &mut fmt::Formatter<W>) -> fmt::Result {
        match self.0 {
            _ if self.1 == 0 => f.write_str("any"),
            Some(pool) => write!(f, "{}", EntryText(pool, u32::from(self.1))),
            None => write!(f, "{}", self.1),
        }
    }
}

/// Adds the line of an entry of an exception table.
fn add_row(out: &mut String, pool: Option<&Pool>, row: &RawHandler) -> Result<(), AllocError> {
    writeln!(
        out,
        "    try {} {} {} {}",
        row.start,
        row.end,
        row.handler,
        CatchText(pool, row.catch_type)
    )
}

/// Adds the lines of the instructions of a code and of its exception table.
pub fn add_code_lines(
    out: &mut String,
    pool: Option<&Pool>,
    code: &Code,
) -> Result<(), AllocError> {
    for instr in code.instrs.as_slice() {
        add_instr(out, pool, instr)?;
    }
    add_rows(out, pool, code.handlers.as_slice())
}

/// Adds the lines of an exception table.
fn add_rows(out: &mut String, pool: Option<&Pool>, rows: &[RawHandler]) -> Result<(), AllocError> {
    for row in rows {
        add_row(out, pool, row)?;
    }
    Ok(())
}
