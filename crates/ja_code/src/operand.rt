ghost use Rattle.std.specs.Prelude.{◌≡◌, ℕ, ◌+◌, ◌*◌, ◌≤◌, ◌++◌, length, IfOk, OnOk, slice_index, [], ◌∷◌};
ghost use Rattle.ja_code.specs.Bytes.{far, places};
ghost use Rattle.ja_code.specs.Opcode.{form_at};
ghost use Rattle.ja_code.specs.Faults.{front_size, size_at, wide_size};
ghost use Rattle.ja_code.specs.InnerReading.{operands_at, wide_operands};

use crate::bytes::{far_target, gap, near_target, place, u2, u4};
use crate::form::Form;
use crate::opcode::form_of;
use ja_base::{Memory, Numbers};
use std::alloc::Global;

/// A list of one operand.
fn one(alloc: Global, operand: u64) -> Result<Numbers, Memory>
    ensures { IfOk result (λ operands. operands ≡ operand ∷ []) }
{
    let mut operands = Numbers::new(alloc);
    operands.push(operand)?;
    Ok(operands)
}

/// A list of two operands.
fn two(alloc: Global, first: u64, second: u64) -> Result<Numbers, Memory>
    ensures { IfOk result (λ operands. operands ≡ first ∷ second ∷ []) }
{
    let mut operands = Numbers::new(alloc);
    operands.push(first)?;
    operands.push(second)?;
    Ok(operands)
}

/// Where a switch may go: a default, and the targets of a table of offsets.
#[derive(Drop)]
struct Table {
    /// The offset of the default.
    default: u32,
    /// The place of the first offset of the table.
    first: usize,
    /// The number of bytes from one offset to the next.
    stride: usize,
    /// The number of offsets.
    count: usize,
}

/// The targets of a switch at `pc`: of its default, and of its table.
fn targets_of(alloc: Global, pc: u32, bytes: &[u8], table: &Table) -> Result<Numbers, Memory>
    requires stride { table.now.stride ≤ 8 }
    requires there { table.now.first + table.now.stride * table.now.count + 4 ≤ length bytes.now + table.now.stride }
    ensures { IfOk result (λ targets. targets ≡ far pc table.now.default ∷ places pc bytes.now table.now.stride table.now.first table.now.count) }
{
    let mut targets = Numbers::new(alloc);
    targets.push(u64::from(far_target(pc, table.default)))?;
    let mut at = table.first;
    for _ in 0..table.count {
        targets.push(u64::from(far_target(pc, u4(bytes, at))))?;
        at += table.stride;
    }
    Ok(targets)
}

/// The operands of `tableswitch` at `pc`, whose bytes are there.
#[tactic(auto, unfolding(crate::specs::Faults::size_at, crate::specs::InnerReading::operands_at))]
fn table_operands(alloc: Global, pc: u32, bytes: &[u8]) -> Result<Numbers, Memory>
    requires { size_at Form.TableSwitch pc bytes.now ≤ length bytes.now }
    ensures { IfOk result (λ operands. operands ≡ operands_at Form.TableSwitch pc bytes.now) }
{
    let least = place(u4(bytes, gap(pc) + 5)) as usize;
    let greatest = place(u4(bytes, gap(pc) + 9)) as usize;
    let table = Table {
        default: u4(bytes, gap(pc) + 1),
        first: gap(pc) + 13,
        stride: 4,
        count: (greatest + 1).saturating_sub(least),
    };
    targets_of(alloc, pc, bytes, &table)
}

/// The operands of `lookupswitch` at `pc`, whose bytes are there.
#[tactic(auto, unfolding(crate::specs::Faults::size_at, crate::specs::InnerReading::operands_at))]
fn lookup_operands(alloc: Global, pc: u32, bytes: &[u8]) -> Result<Numbers, Memory>
    requires { size_at Form.LookupSwitch pc bytes.now ≤ length bytes.now }
    ensures { IfOk result (λ operands. operands ≡ operands_at Form.LookupSwitch pc bytes.now) }
{
    let table = Table {
        default: u4(bytes, gap(pc) + 1),
        first: gap(pc) + 13,
        stride: 8,
        count: u4(bytes, gap(pc) + 5) as usize,
    };
    targets_of(alloc, pc, bytes, &table)
}

/// The operands of an opcode behind `wide`, whose bytes are there.
#[tactic(auto, unfolding(crate::specs::Faults::size_at, crate::specs::InnerReading::operands_at))]
fn wide_operands(alloc: Global, bytes: &[u8]) -> Result<Numbers, Memory>
    requires { wide_size (form_at (slice_index bytes.now 1)) ≤ length bytes.now }
    ensures { IfOk result (λ operands. operands ≡ wide_operands (form_at (slice_index bytes.now 1)) bytes.now) }
{
    let first = u64::from(u2(bytes, 2));
    match form_of(bytes[1]) {
        Some(Form::Increment) => two(alloc, first, u64::from(u2(bytes, 4))),
        _ => one(alloc, first),
    }
}

/// The operands of an instruction at `pc`, whose bytes are there.
#[tactic(auto, unfolding(crate::specs::Faults::size_at, crate::specs::InnerReading::operands_at))]
pub(crate) fn operands_of(
    alloc: Global,
    form: Form,
    pc: u32,
    bytes: &[u8],
) -> Result<Numbers, Memory>
    requires front { front_size form pc ≤ length bytes.now }
    requires there { size_at form pc bytes.now ≤ length bytes.now }
    ensures { IfOk result (λ operands. operands ≡ operands_at form pc bytes.now) }
{
    match form {
        Form::Plain => Ok(Numbers::new(alloc)),
        Form::Byte | Form::Local | Form::ByteIndex | Form::ArrayType => {
            one(alloc, u64::from(bytes[1]))
        }
        Form::Short | Form::Index(_) | Form::Interface | Form::Dynamic => {
            one(alloc, u64::from(u2(bytes, 1)))
        }
        Form::Increment => two(alloc, u64::from(bytes[1]), u64::from(bytes[2])),
        Form::Dimensions => two(alloc, u64::from(u2(bytes, 1)), u64::from(bytes[3])),
        Form::Branch => one(alloc, u64::from(near_target(pc, u2(bytes, 1)))),
        Form::FarBranch => one(alloc, u64::from(far_target(pc, u4(bytes, 1)))),
        Form::TableSwitch => table_operands(alloc, pc, bytes),
        Form::LookupSwitch => lookup_operands(alloc, pc, bytes),
        Form::Wide => wide_operands(alloc, bytes),
    }
}
