ghost use Rattle.std.specs.Prelude.{◌≡◌, Contains, OnOk, length};
ghost use Rattle.ja_blocks.specs.Index.{IsNoted};

use ja_base::{Memory, Numbers};

/// Adds a number to the list of a key, where there is one.
pub fn note(lists: &mut Vec<Numbers>, key: u64, number: u64) -> Result<(), Memory>
    ensures { OnOk result (IsNoted lists.old.items lists.new.items (λ k x. (k ≡ key) × (x ≡ number))) }
{
    if key < lists.len() as u64 {
        lists[key as usize].push(number)?;
    }
    Ok(())
}

/// Adds a number to the lists of some keys.
pub fn note_all(lists: &mut Vec<Numbers>, keys: &[u64], number: u64) -> Result<(), Memory>
    ensures { OnOk result (IsNoted lists.old.items lists.new.items (λ k x. Contains keys.now k × (x ≡ number))) }
{
    for key in keys {
        note(lists, *key, number)?;
    }
    Ok(())
}
