ghost use Rattle.std.specs.Prelude.{◌≡◌, ◌∷◌, ◌+◌, ◌++◌, ◌<◌, ◌≤◌, ◌^◌, [], length, map, IfOk, OnOk, slice_get, Some};
ghost use Rattle.std.specs.List.Sorted.{IsNonDecreasingBy};
ghost use Rattle.ja_code.specs.declared.instr.RawInstr.{RawInstr};
ghost use Rattle.ja_kinds.specs.Effect.{targets_of};
ghost use Rattle.ja_code.specs.Behaviour.{goes_on, branches};
ghost use Rattle.ja_methods.specs.Places.{index_of, following, next_by, next_of};

use crate::place::index_of;
use ja_base::{Memory, Numbers, Seq};
use ja_code::{Behaviour, RawInstr};
use ja_ir::Successors;
use std::alloc::Global;

/// The places to which an instruction may branch.
fn targets(instr: &RawInstr, behaviour: Behaviour) -> &[u64]
    ensures { result.now ≡ targets_of behaviour instr.now }
{
    if behaviour.branches() {
        instr.operands.as_slice()
    } else {
        &[]
    }
}

/// No index, or the one index to which an instruction without targets leads.
fn straight(goes: bool, k: usize, size: usize) -> Successors
    requires { k < size }
    ensures { result ≡ following goes k size }
{
    if goes && k + 1 < size {
        Successors::one(k as u64 + 1)
    } else {
        Successors::none()
    }
}

/// The index of the one target of an instruction, and of what follows it.
fn branching(target: u64, goes: bool, k: usize, size: usize) -> Successors
    requires { k < size }
    ensures { result ≡ (target ∷ []) ++ following goes k size }
{
    if goes && k + 1 < size {
        Successors::two(target, k as u64 + 1)
    } else {
        Successors::one(target)
    }
}

/// The indices of the instructions at these places.
fn indices_of(alloc: Global, instrs: &[RawInstr], places: &[u64]) -> Result<Numbers, Memory>
    requires { IsNonDecreasingBy (λ (i : RawInstr). i.pc) instrs.now }
    ensures { IfOk result (λ list. list ≡ map (index_of instrs.now) places.now) }
{
    let mut list = Seq::new(alloc);
    for place in places {
        list.push(index_of(instrs, *place) as u64)?;
    }
    Ok(list)
}

/// Adds the index after an instruction's, where it may go on there.
fn push_following(list: &mut Numbers, goes: bool, k: usize, size: usize) -> Result<(), Memory>
    requires { k < size }
    ensures { OnOk result (list.new ≡ list.old ++ following goes k size) }
{
    if goes && k + 1 < size {
        list.push(k as u64 + 1)
    } else {
        Ok(())
    }
}

/// The indices of the instructions at the targets of instruction `k`, and of what follows it.
fn successors(
    alloc: Global,
    instrs: &[RawInstr],
    targets: &[u64],
    goes: bool,
    k: usize,
) -> Result<Successors, Memory>
    requires order { IsNonDecreasingBy (λ (i : RawInstr). i.pc) instrs.now }
    requires there { k < length instrs.now }
    ensures { IfOk result (λ list. list ≡ map (index_of instrs.now) targets.now ++ following goes k (length instrs.now)) }
{
    match targets {
        [] => Ok(straight(goes, k, instrs.len())),
        [target] => {
            let target = index_of(instrs, *target) as u64;
            Ok(branching(target, goes, k, instrs.len()))
        }
        _ => {
            let mut list = indices_of(alloc, instrs, targets)?;
            push_following(&mut list, goes, k, instrs.len())?;
            Ok(Successors::from_list(list))
        }
    }
}

/// The indices of the instructions to which instruction `k` leads at its normal end.
pub fn next_of(alloc: Global, instrs: &[RawInstr], k: usize) -> Result<Successors, Memory>
    requires order { IsNonDecreasingBy (λ (i : RawInstr). i.pc) instrs.now }
    requires there { k < length instrs.now }
    ensures { (instr : RawInstr) → slice_get instrs.now k ≡ Some instr → IfOk result (λ list. list ≡ next_of instrs.now k instr) }
{
    let instr = &instrs[k];
    match instr.opcode.behaviour() {
        None => Ok(Successors::none()),
        Some(behaviour) => {
            let targets = targets(instr, behaviour);
            successors(alloc, instrs, targets, behaviour.goes_on(), k)
        }
    }
}
