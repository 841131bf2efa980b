ghost use Rattle.std.specs.Prelude.{◌≡◌, ◌≤◌, length};
ghost use Rattle.std.specs.List.Sorted.{IsNonDecreasingBy};
ghost use Rattle.ja_code.specs.declared.instr.RawInstr.{RawInstr};
ghost use Rattle.ja_methods.specs.Places.{index_of};

use ja_code::RawInstr;

/// The index of the first instruction at a place of the code or past it.
pub fn index_of(instrs: &[RawInstr], place: u64) -> usize
    requires { IsNonDecreasingBy (λ (i : RawInstr). i.pc) instrs.now }
    ensures at { result ≡ index_of instrs.now place }
    ensures within { result ≤ length instrs.now }
{
    instrs.partition_point(|instr| u64::from(instr.pc) < place)
}
