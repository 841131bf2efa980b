//! Where the labels of a method stand.

ghost use Rattle.std.specs.Prelude.{◌≡◌, ◌+◌, ◌≤◌, [], ◌∷◌, ℕ, List, IfOk, OnOk, MatchOption};
ghost use Rattle.ja_assembly.specs.Members.{size_of_opcode, place_of_label, instructions_in};
ghost use Rattle.ja_assembly.specs.InnerLabels.{places, or_else, has_given};

use indexmap::IndexMap;
use ja_base::{Memory, Name};
use ja_code::Opcode;
use ja_listing::Item;
use std::alloc::Global;

/// The number of bytes of an instruction, and of a switch without its table at the place 0.
pub fn size_of(opcode: Opcode) -> u64
    ensures size { result ≡ size_of_opcode opcode }
    ensures most { result ≤ 16 }
{
    opcode.form().front_len(0) as u64
}

/// The first item and those behind it.
pub fn parted(items: &[Item]) -> Option<(&Item, &[Item])>
    ensures { MatchOption result (items.now ≡ []) (λ parts. items.now ≡ parts.0.now ∷ parts.1.now) }
{
    items.split_first()
}

/// Keeps the place of a label, if it has none yet.
fn keep(
    alloc: Global,
    labels: &mut IndexMap<Name, u64>,
    label: &Option<Name>,
    pc: u64,
) -> Result<(), Memory>
    ensures { OnOk result ((name : List ℕ) → places labels.new name ≡ or_else (places labels.old name) (has_given label.now name pc)) }
{
    if let Some(name) = label {
        if !labels.contains_key(name) {
            labels.insert(name.copy(alloc)?, pc)?;
        }
    }
    Ok(())
}

/// The place that is so many bytes behind another; a code of 2^64 bytes has no room in memory.
pub fn place_behind(pc: u64, size: u64) -> Result<u64, Memory>
    ensures { IfOk result (λ place. place ≡ pc + size) }
{
    match pc.checked_add(size) {
        Some(place) => Ok(place),
        None => Err(Memory),
    }
}

/// Where the labels of the instructions stand that come before the next method, the first of them at pc.
pub fn labels_of(alloc: Global, pc: u64, items: &[Item]) -> Result<IndexMap<Name, u64>, Memory>
    ensures { IfOk result (λ labels. (superclass name : List ℕ) → places labels name ≡ place_of_label pc (instructions_in superclass items.now) name) }
{
    let mut labels = IndexMap::new(alloc);
    let mut place = pc;
    let mut rest = items;
    while let Some((item, behind)) = parted(rest) {
        match item {
            Item::Instruction { label, opcode, .. } => {
                keep(alloc, &mut labels, label, place)?;
                place = place_behind(place, size_of(*opcode))?;
            }
            Item::Method { .. } => return Ok(labels),
            Item::Initializer => return Ok(labels),
            Item::Field { .. } => {}
            Item::Try { .. } => {}
        }
        rest = behind;
    }
    Ok(labels)
}
