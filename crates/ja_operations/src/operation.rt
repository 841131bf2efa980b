ghost use Rattle.std.specs.Prelude.{◌≡◌, ◌≤◌, ◌<◌, ◌^◌, true, length, option_copied, IfOk, IfErr, Option, Some};
ghost use Rattle.ja_ir.specs.declared.op.Op.TheVariants as ops;
ghost use Rattle.ja_kinds.specs.declared.state.KindState.{KindState};
ghost use Rattle.ja_kinds.specs.Effect.{kinds_of};
ghost use Rattle.ja_code.specs.Grammar.{operand_at};
ghost use Rattle.ja_operations.specs.declared.fault.OpFault.TheVariants as faults;
ghost use Rattle.ja_operations.specs.Names.{class_in, member_in};
ghost use Rattle.ja_operations.specs.Profile.{NamesClass, NamesSomeField, NamesSomeMethod, Suits, IsProfiled};
ghost use Rattle.ja_operations.specs.Targets.{call_kind};
ghost use Rattle.ja_operations.specs.Tokens.{token_of_class, token_of_array, token_of_innermost};
ghost use Rattle.ja_operations.specs.Shuffles.{move_after, shuffle_of};
ghost use Rattle.ja_operations.specs.Operation.{loaded, local_of, Calls, DoesAccess, OperatesAs, IsOperation};
ghost use Rattle.ja_operations.specs.Refused.{RefusesCall, RefusesField, Refuses, IsRefusedFor, UnlessMemory};
ghost use Rattle.ja_base.specs.Limit.{max_numbered};

use crate::OpFault;
use crate::call::{call_kind, call_of};
use crate::field::{get_field, get_static, put_field, put_static};
use crate::member::{class_named, member_named};
use crate::shuffle::shuffle_after;
use crate::token::{library_token, token_of_array, token_of_class, token_of_innermost};
use ja_base::tag::{CLASS, STRING, Tag};
use ja_base::{ClassId, Kind, Name};
use ja_code::{
    Behaviour, Elements, FieldAccess, Invocation, Operands, RawInstr, Rearrangement, Source,
};
use ja_hier::Hier;
use ja_ir::Op;
use ja_kinds::{KindState, tag_named};
use ja_lib::Table;
use ja_pool::Pool;
use std::alloc::Global;

/// The number of operands.
fn operand_count(operands: Operands) -> u32
    ensures { result ≡ length (kinds_of operands) }
{
    match operands {
        Operands::One(_) => 1,
        Operands::Two(_, _) => 2,
    }
}

/// The local that an instruction uses.
fn local_of(source: Source, instr: &RawInstr) -> u32
    ensures { result ≡ local_of source instr.now }
{
    let place = match source {
        Source::Operand => instr.operand(0),
        Source::Fixed(place) => u64::from(place),
    };
    place.min(65535) as u32
}

/// What loads a constant with this tag.
fn loaded(hier: &Hier, tag: Tag) -> Op
    requires { length hier.now ≤ max_numbered }
    ensures { result ≡ loaded hier.now tag }
{
    match tag {
        STRING => Op::Text,
        CLASS => Op::New(library_token(hier)),
        _ => Op::Const(Kind::P1),
    }
}

/// What an access of a field does.
fn access(
    alloc: Global,
    hier: &Hier,
    table: &Table,
    pool: &Pool,
    instr: &RawInstr,
    how: FieldAccess,
) -> Result<Op, OpFault>
    requires { NamesSomeField pool.now instr.now }
    ensures ok { IfOk result (DoesAccess hier.now table.now.categories (member_in pool.now instr.now) how) }
    ensures refused { IfErr result (UnlessMemory (RefusesField hier.now (member_in pool.now instr.now) how)) }
{
    let member = member_named(alloc, pool, instr)?;
    match how {
        FieldAccess::GetStatic => get_static(alloc, hier, table, member),
        FieldAccess::PutStatic => put_static(hier, &member),
        FieldAccess::GetField => get_field(alloc, hier, table, member),
        FieldAccess::PutField => put_field(alloc, hier, table, member),
    }
}

/// What a call does.
fn invoke(
    alloc: Global,
    hier: &Hier,
    table: &Table,
    c: ClassId,
    pool: &Pool,
    instr: &RawInstr,
    how: Invocation,
) -> Result<Op, OpFault>
    requires class { c.0 < length hier.now }
    requires names { NamesSomeMethod pool.now instr.now }
    ensures ok { IfOk result (Calls hier.now table.now c.0 (call_kind how) (member_in pool.now instr.now)) }
    ensures refused { IfErr result (UnlessMemory (RefusesCall hier.now c.0 (call_kind how) (member_in pool.now instr.now))) }
{
    let member = member_named(alloc, pool, instr)?;
    match call_of(alloc, hier, table, c, call_kind(how), member) {
        Ok(call) => Ok(Op::Call(call)),
        Err(fault) => Err(fault),
    }
}

/// What `new` makes.
fn new_object(alloc: Global, hier: &Hier, pool: &Pool, instr: &RawInstr) -> Result<Op, OpFault>
    requires few { length hier.now ≤ max_numbered }
    requires class { NamesClass pool.now instr.now }
    ensures ok { IfOk result (λ op. op ≡ ops.New (token_of_class hier.now (class_in pool.now instr.now))) }
    ensures memory { IfErr result (λ fault. fault ≡ faults.Memory) }
{
    let name = Name::of(alloc, class_named(pool, instr))?;
    Ok(Op::New(token_of_class(hier, &name)))
}

/// What `multianewarray` makes.
fn new_arrays(hier: &Hier, pool: &Pool, instr: &RawInstr) -> Op
    requires few { length hier.now ≤ max_numbered }
    requires class { NamesClass pool.now instr.now }
    requires dimensions { operand_at instr.now 1 ≤ 255 }
    ensures { result ≡ ops.NewArray (token_of_innermost hier.now (class_in pool.now instr.now) (operand_at instr.now 1)) (operand_at instr.now 1) }
{
    let dimensions = instr.operand(1) as u32;
    Op::NewArray {
        last: token_of_innermost(hier, class_named(pool, instr), dimensions),
        dimensions,
    }
}

/// What `newarray` or `anewarray` makes.
fn new_array(hier: &Hier, elements: Elements) -> Op
    requires { length hier.now ≤ max_numbered }
    ensures { result ≡ ops.NewArray (token_of_array hier.now elements) 1 }
{
    Op::NewArray {
        last: token_of_array(hier, elements),
        dimensions: 1,
    }
}

/// What `checkcast` does.
fn cast(alloc: Global, pool: &Pool, instr: &RawInstr) -> Result<Op, OpFault>
    requires { NamesClass pool.now instr.now }
    ensures ok { IfOk result (λ op. op ≡ ops.Cast (class_in pool.now instr.now)) }
    ensures memory { IfErr result (λ fault. fault ≡ faults.Memory) }
{
    let name = Name::of(alloc, class_named(pool, instr))?;
    Ok(Op::Cast(name))
}

/// How an instruction moves values.
fn shuffled(alloc: Global, how: Rearrangement, before: Option<&KindState>) -> Result<Op, OpFault>
    ensures ok { IfOk result (λ op. op ≡ shuffle_of (move_after how (option_copied before.entry))) }
    ensures memory { IfErr result (λ fault. fault ≡ faults.Memory) }
{
    let op = shuffle_after(alloc, how, before)?;
    Ok(op)
}

/// What an instruction of this behaviour does, by what is known before it.
fn operates_as(
    alloc: Global,
    hier: &Hier,
    table: &Table,
    c: ClassId,
    pool: &Pool,
    instr: &RawInstr,
    before: Option<&KindState>,
    behaviour: Behaviour,
) -> Result<Op, OpFault>
    requires class { c.0 < length hier.now }
    requires few { length hier.now ≤ max_numbered }
    requires suits { Suits pool.now instr.now behaviour }
    ensures ok { IfOk result (OperatesAs hier.now table.now c.0 pool.now instr.now (option_copied before.entry) behaviour) }
    ensures refused { IfErr result (UnlessMemory (Refuses hier.now c.0 pool.now instr.now behaviour)) }
{
    match behaviour {
        Behaviour::Nothing => Ok(Op::Nop),
        Behaviour::Increment => Ok(Op::Nop),
        Behaviour::Constant(kind) => Ok(Op::Const(kind)),
        Behaviour::Loaded => Ok(loaded(hier, tag_named(pool, instr))),
        Behaviour::Load(kind, source) => Ok(Op::Load(kind, local_of(source, instr))),
        Behaviour::Store(kind, source) => Ok(Op::Store(kind, local_of(source, instr))),
        Behaviour::ArrayLoad(kind) => Ok(Op::ArrLoad(kind)),
        Behaviour::ArrayStore(kind) => Ok(Op::ArrStore(kind)),
        Behaviour::Rearrange(how) => shuffled(alloc, how, before),
        Behaviour::Compute {
            operands,
            result: kind,
            throws,
        } => Ok(Op::Mix {
            pops: operand_count(operands),
            result: kind,
            throws,
        }),
        Behaviour::Test(operands) => Ok(Op::Branch {
            pops: operand_count(operands),
        }),
        Behaviour::Jump => Ok(Op::Branch { pops: 0 }),
        Behaviour::Switch => Ok(Op::Branch { pops: 1 }),
        Behaviour::Return(kind) => Ok(Op::Return(kind)),
        Behaviour::Access(how) => access(alloc, hier, table, pool, instr, how),
        Behaviour::Invoke(how) => invoke(alloc, hier, table, c, pool, instr, how),
        Behaviour::New => new_object(alloc, hier, pool, instr),
        Behaviour::NewArray(elements) => Ok(new_array(hier, elements)),
        Behaviour::NewArrays => Ok(new_arrays(hier, pool, instr)),
        Behaviour::ArrayLength => Ok(Op::ArrLen),
        Behaviour::Throw => Ok(Op::Throw),
        Behaviour::Cast => cast(alloc, pool, instr),
        Behaviour::InstanceOf => Ok(Op::InstanceOf),
        Behaviour::Monitor => Ok(Op::Monitor),
    }
}

/// What an instruction of a class does, by the kinds that are known before it; none where it is not
/// reached.
///
/// # Errors
///
/// `Reflection` and `ThreadStart` for a call of the platform's reflection, and for one that starts a
/// thread; `LibraryStore` for a write of a static field of the library, `NoField` for a field that is
/// nowhere; `Memory` for want of memory.
pub fn operation_of(
    alloc: Global,
    hier: &Hier,
    table: &Table,
    c: ClassId,
    pool: &Pool,
    instr: &RawInstr,
    before: Option<&KindState>,
) -> Result<Op, OpFault>
    requires class { c.0 < length hier.now }
    requires few { length hier.now ≤ max_numbered }
    requires profiled { IsProfiled pool.now instr.now }
    ensures ok { IfOk result (IsOperation hier.now table.now c.0 pool.now instr.now (option_copied before.entry)) }
    ensures refused { IfErr result (UnlessMemory (IsRefusedFor hier.now c.0 pool.now instr.now)) }
{
    match instr.opcode.behaviour() {
        Some(behaviour) => operates_as(alloc, hier, table, c, pool, instr, before, behaviour),
        None => unreachable!(),
    }
}
