ghost use Rattle.std.specs.Prelude.{◌≡◌, IfOk, IfErr};
ghost use Rattle.ja_bytes.specs.DescriptorText.{IsFieldDesc};
ghost use Rattle.ja_ir.specs.declared.op.Op.TheVariants as ops;
ghost use Rattle.ja_operations.specs.Fields.{IsFieldAt, field_row, field_call, static_read, member_read, member_write, CallsForeign, Accesses, WritesStatic};
ghost use Rattle.ja_operations.specs.Refused.{RefusesAccess, RefusesStore, UnlessMemory};

use crate::{MemberRef, OpFault};
use ja_base::{JavaType, JavaTypes, Memory, Numbers};
use ja_bytes::field_type;
use ja_hier::{FieldAt, Hier};
use ja_ir::{CallKind, CallOp, LibRow, Op, RowEffect, RowFlow, RowResult};
use ja_lib::Table;
use std::alloc::Global;

/// Where the look-up of a field ends.
fn field_at(hier: &Hier, member: &MemberRef) -> FieldAt
    ensures { IsFieldAt hier.now member.now result }
{
    match hier.class_named(&member.class) {
        Some(class) => hier.find_field(class, &member.name, &member.desc),
        None => FieldAt::Library,
    }
}

/// The row of an access of a library field.
fn field_row(
    alloc: Global,
    table: &Table,
    flow: RowFlow,
    effect: RowEffect,
    gives: RowResult,
) -> Result<LibRow, Memory>
    ensures { IfOk result (λ row. row ≡ field_row table.now.categories flow effect gives) }
{
    let marks = table.all_marks(alloc)?;
    Ok(LibRow {
        flow,
        effect,
        result: gives,
        sinks: Numbers::new(alloc),
        marks,
        category: 0,
    })
}

/// The call that such an access is.
fn field_call(
    kind: CallKind,
    member: MemberRef,
    params: JavaTypes,
    gives: Option<JavaType>,
    row: LibRow,
) -> CallOp
    ensures { result ≡ field_call kind member params gives row }
{
    let MemberRef { class, name, desc } = member;
    CallOp {
        kind,
        class,
        name,
        desc,
        params,
        result: gives,
        row,
        found: None,
    }
}

/// A read of a static library field.
fn static_read(alloc: Global, table: &Table, member: MemberRef) -> Result<CallOp, Memory>
    requires { IsFieldDesc member.desc }
    ensures { IfOk result (CallsForeign member (static_read table.now.categories member)) }
{
    let found = field_type(alloc, member.desc.bytes())?;
    let row = field_row(
        alloc,
        table,
        RowFlow::Never,
        RowEffect::Quiet,
        RowResult::Fresh,
    )?;
    let params = JavaTypes::new(alloc);
    Ok(field_call(CallKind::StaticField, member, params, Some(found), row))
}

/// A read of another library field.
fn member_read(alloc: Global, table: &Table, member: MemberRef) -> Result<CallOp, Memory>
    requires { IsFieldDesc member.desc }
    ensures { IfOk result (CallsForeign member (member_read table.now.categories member)) }
{
    let found = field_type(alloc, member.desc.bytes())?;
    let row = field_row(
        alloc,
        table,
        RowFlow::Args,
        RowEffect::Quiet,
        RowResult::Any,
    )?;
    let params = JavaTypes::new(alloc);
    Ok(field_call(CallKind::MemberField, member, params, Some(found), row))
}

/// A write of a library field that is not static.
fn member_write(alloc: Global, table: &Table, member: MemberRef) -> Result<CallOp, Memory>
    requires { IsFieldDesc member.desc }
    ensures { IfOk result (CallsForeign member (member_write table.now.categories member)) }
{
    let written = field_type(alloc, member.desc.bytes())?;
    let mut params = JavaTypes::new(alloc);
    params.push(written)?;
    let row = field_row(
        alloc,
        table,
        RowFlow::Args,
        RowEffect::Absorb,
        RowResult::Fresh,
    )?;
    Ok(field_call(CallKind::MemberField, member, params, None, row))
}

/// What `getstatic` does.
pub(crate) fn get_static(
    alloc: Global,
    hier: &Hier,
    table: &Table,
    member: MemberRef,
) -> Result<Op, OpFault>
    requires { IsFieldDesc member.desc }
    ensures ok { IfOk result (Accesses hier.now member ops.GetStatic (static_read table.now.categories member)) }
    ensures refused { IfErr result (UnlessMemory (RefusesAccess hier.now member)) }
{
    match field_at(hier, &member) {
        FieldAt::Program(field) => Ok(Op::GetStatic(field)),
        FieldAt::Library => {
            let call = static_read(alloc, table, member)?;
            Ok(Op::Call(call))
        }
        FieldAt::Missing => Err(OpFault::NoField),
    }
}

/// What `getfield` does.
pub(crate) fn get_field(
    alloc: Global,
    hier: &Hier,
    table: &Table,
    member: MemberRef,
) -> Result<Op, OpFault>
    requires { IsFieldDesc member.desc }
    ensures ok { IfOk result (Accesses hier.now member ops.GetField (member_read table.now.categories member)) }
    ensures refused { IfErr result (UnlessMemory (RefusesAccess hier.now member)) }
{
    match field_at(hier, &member) {
        FieldAt::Program(field) => Ok(Op::GetField(field)),
        FieldAt::Library => {
            let call = member_read(alloc, table, member)?;
            Ok(Op::Call(call))
        }
        FieldAt::Missing => Err(OpFault::NoField),
    }
}

/// What `putfield` does.
pub(crate) fn put_field(
    alloc: Global,
    hier: &Hier,
    table: &Table,
    member: MemberRef,
) -> Result<Op, OpFault>
    requires { IsFieldDesc member.desc }
    ensures ok { IfOk result (Accesses hier.now member ops.PutField (member_write table.now.categories member)) }
    ensures refused { IfErr result (UnlessMemory (RefusesAccess hier.now member)) }
{
    match field_at(hier, &member) {
        FieldAt::Program(field) => Ok(Op::PutField(field)),
        FieldAt::Library => {
            let call = member_write(alloc, table, member)?;
            Ok(Op::Call(call))
        }
        FieldAt::Missing => Err(OpFault::NoField),
    }
}

/// What `putstatic` does.
pub(crate) fn put_static(hier: &Hier, member: &MemberRef) -> Result<Op, OpFault>
    ensures ok { IfOk result (WritesStatic hier.now member.now ops.PutStatic) }
    ensures refused { IfErr result (UnlessMemory (RefusesStore hier.now member.now)) }
{
    match field_at(hier, member) {
        FieldAt::Program(field) => Ok(Op::PutStatic(field)),
        FieldAt::Library => Err(OpFault::LibraryStore),
        FieldAt::Missing => Err(OpFault::NoField),
    }
}
