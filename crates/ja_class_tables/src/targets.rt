ghost use Rattle.std.specs.Prelude.{◌≡◌, ℕ, ◌↔◌, Contains, IfOk, OnOk};
ghost use Rattle.std.specs.List.Sorted.{IsNonDecreasing};
ghost use Rattle.ja_class_tables.specs.InnerPool.{Grows};
ghost use Rattle.ja_class_tables.specs.InnerNotes.{AreAllTargets, AreTargets, IsSaid};

use ja_base::{Memory, Numbers, Seq};
use ja_facts::{Rows, Targets};
use std::alloc::Global;

// The same numbers in ascending order.
fn ascending(alloc: Global, numbers: &[u64]) -> Result<Numbers, Memory>
    ensures same { IfOk result (λ sorted. (n : ℕ) → Contains sorted n ↔ Contains numbers.now n) }
    ensures ascending { IfOk result IsNonDecreasing }
{
    let mut sorted = Vec::from_slice(alloc, numbers)?;
    sorted.sort()?;
    Ok(Seq::from_vec(sorted))
}

// Adds targets to a pool, in ascending order, and says one more than their place: 0 where there are none.
fn number_of(alloc: Global, targets: &Targets, pool: &mut Rows<Targets>) -> Result<u32, Memory>
    ensures grows { OnOk result (Grows pool.old pool.new) }
    ensures said { IfOk result (IsSaid pool.new targets.now) }
{
    if !targets.library && targets.methods.is_empty() {
        return Ok(0);
    }
    let place = pool.len();
    if place >= u32::MAX as u64 {
        return Err(Memory);
    }
    let methods = ascending(alloc, targets.methods.as_slice())?;
    pool.push(Targets {
        methods,
        library: targets.library,
    })?;
    Ok(place as u32 + 1)
}

// The numbers of the targets of the instructions of a method.
fn method_targets(
    alloc: Global,
    noted: &Rows<Targets>,
    pool: &mut Rows<Targets>,
) -> Result<Rows<u32>, Memory>
    ensures grows { OnOk result (Grows pool.old pool.new) }
    ensures said { IfOk result (AreTargets pool.new noted.now) }
{
    let mut row = Rows::new(alloc);
    for i in 0..noted.len() {
        let number = number_of(alloc, noted.at(i), pool)?;
        row.push(number)?;
    }
    Ok(row)
}

/// The numbers of the targets of the instructions of all methods.
pub fn target_numbers(
    alloc: Global,
    noted: &Rows<Rows<Targets>>,
    pool: &mut Rows<Targets>,
) -> Result<Rows<Rows<u32>>, Memory>
    ensures grows { OnOk result (Grows pool.old pool.new) }
    ensures said { IfOk result (AreAllTargets pool.new noted.now) }
{
    let mut table = Rows::new(alloc);
    for m in 0..noted.len() {
        let row = method_targets(alloc, noted.at(m), pool)?;
        table.push(row)?;
    }
    Ok(table)
}
