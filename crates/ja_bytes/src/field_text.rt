ghost use Rattle.std.specs.Prelude.{◌≡◌, IfOk};
ghost use Rattle.ja_base.specs.Descriptor.{IsField};
ghost use Rattle.ja_bytes.specs.DescriptorText.{IsFieldDesc, name_of};

use crate::descriptor::{DescFault, field_desc};
use ja_base::{JavaType, Memory, Name};
use std::alloc::Global;

/// The name of the type that a descriptor spells: the class between `L` and `;`, and else the whole
/// descriptor.
fn name_of(desc: &[u8]) -> &[u8]
    ensures { result.now ≡ name_of desc.now }
{
    if desc.len() > 1 && desc[0] == b'L' {
        &desc[1..desc.len() - 1]
    } else {
        desc
    }
}

/// The type that the descriptor of a field spells.
pub fn field_type(alloc: Global, desc: &[u8]) -> Result<JavaType, Memory>
    requires { IsFieldDesc desc.now }
    ensures { IfOk result (IsField desc.now) }
{
    match field_desc(alloc, desc) {
        Ok(kind) => {
            let name = Name::of(alloc, name_of(desc))?;
            Ok(JavaType { kind, name })
        }
        Err(DescFault::Bad { at: _ }) => unreachable!(),
        Err(DescFault::Memory) => Err(Memory),
    }
}
