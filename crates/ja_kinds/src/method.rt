ghost use Rattle.std.specs.Prelude.{◌≡◌, ◌<◌, ◌^◌, sum_by, IfOk};
ghost use Rattle.ja_bytes.specs.DescriptorText.{IsMethodText};
ghost use Rattle.ja_code.specs.declared.instr.RawInstr.{RawInstr};
ghost use Rattle.ja_kinds.specs.Answer.{code_size, parameter_kinds, IsFrame};

use crate::frame::Frame;
use crate::pool_kinds::{kind_in, kinds_of_types};
use crate::stack::joined;
use crate::state::KindList;
use ja_base::{JavaTypes, Kind, Memory};
use ja_bytes::{DescFault, method_desc};
use ja_class::ClassMethod;
use ja_code::{Code, RawInstr};
use ja_ir::{HeadMethod, is_static};
use std::alloc::Global;

/// The length of instructions together in bytes.
fn size_of(instrs: &[RawInstr]) -> u32
    requires { sum_by (λ (i : RawInstr). i.length) instrs.now < 2 ^ 32 }
    ensures { result ≡ sum_by (λ (i : RawInstr). i.length) instrs.now }
{
    let mut size = 0;
    for instr in instrs {
        size += instr.length;
    }
    size
}

/// The kinds of the parameters of a method with these flags.
fn parameter_kinds(alloc: Global, flags: u32, params: &JavaTypes) -> Result<KindList, Memory>
    ensures { IfOk result (λ kinds. kinds ≡ parameter_kinds flags params.now) }
{
    let kinds = kinds_of_types(alloc, params)?;
    if is_static(flags) {
        return Ok(kinds);
    }
    joined(alloc, &[Kind::R], kinds.as_slice())
}

/// What a method with this code is judged against.
pub(crate) fn frame_of(
    alloc: Global,
    head: &HeadMethod,
    method: &ClassMethod,
    code: &Code,
) -> Result<Frame, Memory>
    requires descriptor { IsMethodText head.now.desc }
    requires short { code_size code.now < 2 ^ 32 }
    ensures { IfOk result (IsFrame head.now method.now code.now) }
{
    match method_desc(alloc, head.desc.bytes()) {
        Ok(desc) => {
            let parameters = parameter_kinds(alloc, head.flags, &desc.params)?;
            Ok(Frame {
                size: size_of(code.instrs.as_slice()),
                max_locals: method.max_locals,
                max_stack: method.max_stack,
                parameters,
                returns: kind_in(&desc.result),
            })
        }
        Err(DescFault::Bad { at: _ }) => unreachable!(),
        Err(DescFault::Memory) => Err(Memory),
    }
}
