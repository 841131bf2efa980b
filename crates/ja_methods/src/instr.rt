ghost use Rattle.std.specs.Prelude.{◌≡◌, ◌⊎◌, ◌<◌, ◌≤◌, ◌^◌, All, length, slice_get, option_copied, Option, Some, IfOk, IfErr, OnOk};
ghost use Rattle.ja_kinds.specs.declared.state.KindState.{KindState};
ghost use Rattle.std.specs.List.Sorted.{IsNonDecreasingBy};
ghost use Rattle.ja_code.specs.declared.instr.RawInstr.{RawInstr};
ghost use Rattle.ja_operations.specs.Profile.{IsProfiled};
ghost use Rattle.ja_methods.specs.declared.fault.MethodFault.TheVariants.{Memory};
ghost use Rattle.ja_methods.specs.Method.{IsInstrOf, AreInstrsOf, height_of};
ghost use Rattle.ja_methods.specs.Refusal.{IsUnrefused, IsRefusalOf, IsFirstRefusal};
ghost use Rattle.ja_base.specs.Limit.{max_numbered};

use crate::fault::{MethodFault, instr_refusal};
use crate::next::next_of;
use ja_base::{ClassId, Seq};
use ja_code::RawInstr;
use ja_hier::Hier;
use ja_ir::{Instr, Instrs};
use ja_kinds::{KindState, Kinds};
use ja_lib::Table;
use ja_operations::{law_one_operation, operation_of};
use ja_pool::Pool;
use std::alloc::Global;

/// Where instructions stand: the classes and the table of the program, and the class with its constant pool.
#[derive(Clone, Copy)]
pub struct Scene<'a> {
    pub hier: &'a Hier,
    pub table: &'a Table,
    pub class: ClassId,
    pub pool: &'a Pool,
}

/// The number of values on the stack, where it is known.
fn height_of(before: Option<&KindState>) -> u64
    ensures { result ≡ height_of (option_copied before.entry) }
{
    match before {
        None => 0,
        Some(state) => state.stack.len(),
    }
}

/// The instruction at an index, where the locals and the stack before it are known, if it is reached.
fn instr_of(
    alloc: Global,
    scene: &Scene<'_>,
    instrs: &[RawInstr],
    k: usize,
    before: Option<&KindState>,
) -> Result<Instr, MethodFault>
    requires class { scene.now.class.0 < length scene.now.hier.now }
    requires classes { length scene.now.hier.now ≤ max_numbered }
    requires order { IsNonDecreasingBy (λ (i : RawInstr). i.pc) instrs.now }
    requires profiled { All (IsProfiled scene.now.pool.now) instrs.now }
    requires there { k < length instrs.now }
    requires low { height_of (option_copied before) < 2 ^ 32 }
    ensures ok { (raw : RawInstr) → slice_get instrs.now k ≡ Some raw →
        IfOk result (IsInstrOf scene.now.hier.now scene.now.table.now scene.now.class.0 scene.now.pool.now instrs.now (option_copied before.entry) k raw) }
    ensures clean { (raw : RawInstr) → slice_get instrs.now k ≡ Some raw → OnOk result (IsUnrefused scene.now.hier.now scene.now.class.0 scene.now.pool.now raw) }
    ensures refused { (raw : RawInstr) → slice_get instrs.now k ≡ Some raw →
        IfErr result (λ f. (f ≡ Memory) ⊎ IsRefusalOf scene.now.hier.now scene.now.class.0 scene.now.pool.now raw f) }
{
    let raw = &instrs[k];
    law_one_operation();
    let op = match operation_of(
        alloc,
        scene.hier,
        scene.table,
        scene.class,
        scene.pool,
        raw,
        before,
    ) {
        Ok(op) => op,
        Err(fault) => return Err(instr_refusal(raw.pc, fault)),
    };
    let next = next_of(alloc, instrs, k)?;
    Ok(Instr {
        pc: raw.pc,
        op,
        next,
        height: height_of(before) as u32,
        reached: before.is_some(),
    })
}

/// The instructions of a code, one for each, by what is known before them. The refusal is that of the
/// first instruction that is refused.
pub fn instrs_of(
    alloc: Global,
    scene: &Scene<'_>,
    instrs: &[RawInstr],
    kinds: &Kinds,
) -> Result<Instrs, MethodFault>
    requires class { scene.now.class.0 < length scene.now.hier.now }
    requires classes { length scene.now.hier.now ≤ max_numbered }
    requires order { IsNonDecreasingBy (λ (i : RawInstr). i.pc) instrs.now }
    requires profiled { All (IsProfiled scene.now.pool.now) instrs.now }
    requires few { length instrs.now ≤ 65535 }
    requires sized { length kinds.now ≡ length instrs.now }
    requires low { All (λ (before : Option KindState). height_of before < 2 ^ 32) kinds.now }
    ensures ok { IfOk result (AreInstrsOf scene.now.hier.now scene.now.table.now scene.now.class.0 scene.now.pool.now instrs.now kinds.now) }
    ensures refused { IfErr result (λ f. (f ≡ Memory) ⊎ IsFirstRefusal scene.now.hier.now scene.now.class.0 scene.now.pool.now instrs.now f) }
{
    let mut list = Seq::new(alloc);
    for k in 0..instrs.len() {
        let before = kinds.at(k as u32);
        let instr = instr_of(alloc, scene, instrs, k, before)?;
        list.push(instr)?;
    }
    Ok(list)
}
