ghost use Rattle.std.specs.Prelude.{◌≡◌, ◌<◌, ◌≤◌, ◌^◌, length};
ghost use Rattle.ja_code.specs.Grammar.{operand_at};
ghost use Rattle.ja_code.specs.Faults.{first_failing, instr_checks};
ghost use Rattle.ja_code.specs.InnerReading.{Gives, instr_at};

use crate::check::{checked_form, len_of};
use crate::fault::CodeFault;
use crate::form::Form;
use crate::opcode::Opcode;
use crate::operand::operands_of;
use ja_base::tag::Tag;
use ja_base::{Numbers, Seq};
use std::alloc::Global;

/// An instruction, with its operands as numbers.
///
/// The operands are, in the order of their bytes, each local variable, pool index, number of dimensions,
/// array type and constant as an unsigned number, and each branch as the pc of its target. A switch has
/// the target of its default and then those of its cases. Padding, the keys and bounds of switches and
/// the last two bytes of `invokeinterface` are left out.
#[derive(Drop)]
pub struct RawInstr {
    /// The place of the first byte in the code.
    pub pc: u32,
    /// The opcode, and behind `wide` the one that is widened.
    pub opcode: Opcode,
    /// Whether `wide` stands before the opcode.
    pub wide: bool,
    pub operands: Numbers,
    /// The number of bytes, with `wide` and padding.
    pub length: u32,
}

impl RawInstr {
    /// The operand at a place, 0 where there is none.
    pub fn operand(&self, place: u64) -> u64
        ensures { result ≡ operand_at self.now place }
    {
        if place < self.operands.len() {
            *self.operands.at(place)
        } else {
            0
        }
    }
}

/// A list of instructions.
pub type RawInstrs = Seq<RawInstr>;

/// The instruction at the front of the bytes, which are those of the code from `pc` on.
#[tactic(auto, unfolding(crate::specs::InnerReading::instr_at))]
pub(crate) fn instr_at(
    alloc: Global,
    pc: u32,
    bytes: &[u8],
    tags: &[Tag],
    dims: &[u8],
) -> Result<RawInstr, CodeFault>
    requires there { 1 ≤ length bytes.now }
    requires short { length bytes.now < 2 ^ 32 }
    ensures { Gives result (first_failing (instr_checks tags.now dims.now pc bytes.now)) (instr_at pc bytes.now) }
{
    let form = checked_form(pc, bytes, tags, dims)?;
    let operands = operands_of(alloc, form, pc, bytes)?;
    let wide = form == Form::Wide;
    let Some(opcode) = Opcode::of(if wide { bytes[1] } else { bytes[0] }) else {
        unreachable!();
    };
    Ok(RawInstr {
        pc,
        opcode,
        wide,
        operands,
        length: len_of(form, pc, bytes) as u32,
    })
}
