ghost use Rattle.std.specs.Prelude.{◌≡◌, ◌<◌, length, IfOk, IfErr};
ghost use Rattle.ja_base.specs.Descriptor.{IsMethod, words_of_all};
ghost use Rattle.ja_bytes.specs.DescriptorText.{IsMethodText};
ghost use Rattle.ja_operations.specs.Operation.{IsCall};
ghost use Rattle.ja_operations.specs.Refused.{RefusesCall, UnlessMemory};
ghost use Rattle.ja_operations.specs.Targets.{call_kind};

use crate::refuse::check_call;
use crate::row::row_of;
use crate::target::found_by;
use crate::{MemberRef, OpFault};
use ja_base::{ClassId, Desc, Memory};
use ja_bytes::{DescFault, method_desc};
use ja_code::Invocation;
use ja_hier::Hier;
use ja_ir::{CallKind, CallOp};
use ja_lib::Table;
use std::alloc::Global;

/// The kind of the call that an instruction makes.
pub(crate) fn call_kind(how: Invocation) -> CallKind
    ensures { result ≡ call_kind how }
{
    match how {
        Invocation::Virtual => CallKind::Virtual,
        Invocation::Special => CallKind::Special,
        Invocation::Static => CallKind::Static,
        Invocation::Interface => CallKind::Interface,
    }
}

/// The types of a method whose descriptor is one (JVM specification 4.3.3).
pub fn types_of(alloc: Global, desc: &[u8]) -> Result<Desc, Memory>
    requires { IsMethodText desc.now }
    ensures spelled { IfOk result (λ types. IsMethod desc.now types.params types.result) }
    ensures words { IfOk result (λ types. types.words ≡ words_of_all types.params) }
{
    match method_desc(alloc, desc) {
        Ok(types) => Ok(types),
        Err(DescFault::Bad { at: _ }) => unreachable!(),
        Err(DescFault::Memory) => Err(Memory),
    }
}

/// The call of a method by an instruction of a class.
pub(crate) fn call_of(
    alloc: Global,
    hier: &Hier,
    table: &Table,
    c: ClassId,
    kind: CallKind,
    member: MemberRef,
) -> Result<CallOp, OpFault>
    requires class { c.0 < length hier.now }
    requires desc { IsMethodText member.desc }
    ensures ok { IfOk result (IsCall hier.now table.now c.0 kind member) }
    ensures refused { IfErr result (UnlessMemory (RefusesCall hier.now c.0 kind member)) }
{
    check_call(alloc, hier, c, kind, &member)?;
    let types = types_of(alloc, member.desc.bytes())?;
    let row = row_of(alloc, hier, table, &member)?;
    let found = found_by(hier, c, kind, &member);
    let Desc {
        params,
        result: returned,
        words: _,
    } = types;
    let MemberRef { class, name, desc } = member;
    Ok(CallOp {
        kind,
        class,
        name,
        desc,
        params,
        result: returned,
        row,
        found,
    })
}
