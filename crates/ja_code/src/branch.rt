ghost use Rattle.std.specs.Prelude.{◌≡◌};
ghost use Rattle.ja_code.specs.Opcode.{form_at};
ghost use Rattle.ja_code.specs.Grammar.{is_branch, leads_to_starts};
ghost use Rattle.ja_code.specs.Faults.{first_failing, branch_checks};
ghost use Rattle.ja_code.specs.InnerReading.{marked, Passes};

use crate::fault::CodeFault;
use crate::instr::RawInstr;
use crate::opcode::Opcode;
use crate::start::is_marked;

/// Whether the operands of an opcode are places that it may go to.
fn is_branch_opcode(opcode: Opcode) -> bool
    ensures { result ≡ is_branch (form_at opcode) }
{
    opcode.form().is_branch()
}

/// Whether an instruction branches to starts of instructions alone.
fn leads_to_marked(instr: &RawInstr, starts: &[bool]) -> bool
    ensures { result ≡ leads_to_starts (marked starts.now) instr.now }
{
    if !is_branch_opcode(instr.opcode) {
        return true;
    }
    instr
        .operands
        .as_slice()
        .iter()
        .all(|target| is_marked(starts, *target))
}

/// Checks that each branch leads to the start of an instruction.
pub(crate) fn check_branches(instrs: &[RawInstr], starts: &[bool]) -> Result<(), CodeFault>
    ensures { Passes result (first_failing (branch_checks (marked starts.now) instrs.now)) }
{
    for instr in instrs {
        if !leads_to_marked(instr, starts) {
            return Err(CodeFault::BadBranch { pc: instr.pc });
        }
    }
    Ok(())
}
