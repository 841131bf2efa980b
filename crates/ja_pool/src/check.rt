//! Whether the index fields of the entries name what they must name.

ghost use Rattle.std.specs.Prelude.{◌≡◌, ◌+◌, ◌<◌, ◌^◌, [], ◌∷◌, not, Some, All, slice_index};
ghost use Rattle.std.specs.List.{flat_map};
ghost use Rattle.ja_pool.specs.Table.{IndexField, is_wanted, pair_fields};
ghost use Rattle.ja_pool.specs.InnerSlot.{slot_fields, wrong_place};

use crate::look::byte_at;
use crate::slot::{Form, Slot};
use ja_base::tag::{CLASS, INVOKE_DYNAMIC, NAME_AND_TYPE, Tag, UTF8};

/// Whether an index does not name an entry with the tag that is wanted, or any where none is.
fn is_wrong_index(tags: &[Tag], index: u16, wants: Option<u8>) -> bool
    ensures { result ≡ not (is_wanted wants (slice_index tags.now index)) }
{
    let tag = byte_at(tags, u32::from(index));
    match wants {
        None => tag == 0,
        Some(wanted) => tag != wanted,
    }
}

/// The place of the first of two index fields behind a tag that is wrong.
fn wrong_of_two(tags: &[Tag], place: u64, first: (u16, u8), second: (u16, u8)) -> Option<u64>
    requires { place + 3 < 2 ^ 64 }
    ensures { result ≡ wrong_place tags.now (record { place = place + 1; index = first.0; wants = Some first.1 } ∷ record { place = place + 3; index = second.0; wants = Some second.1 } ∷ []) }
{
    if is_wrong_index(tags, first.0, Some(first.1)) {
        return Some(place + 1);
    }
    if is_wrong_index(tags, second.0, Some(second.1)) {
        return Some(place + 3);
    }
    None
}

/// The place of the first wrong index field of an entry of two indices.
fn wrong_in_pair(tags: &[Tag], place: u64, tag: Tag, first: u16, second: u16) -> Option<u64>
    requires { place + 3 < 2 ^ 64 }
    ensures { result ≡ wrong_place tags.now (pair_fields place tag first second) }
{
    match tag {
        NAME_AND_TYPE => wrong_of_two(tags, place, (first, UTF8), (second, UTF8)),
        INVOKE_DYNAMIC => {
            if is_wrong_index(tags, second, Some(NAME_AND_TYPE)) {
                Some(place + 3)
            } else {
                None
            }
        }
        _ => wrong_of_two(tags, place, (first, CLASS), (second, NAME_AND_TYPE)),
    }
}

/// The place of the first wrong index field of an entry.
fn wrong_in(tags: &[Tag], slot: Slot) -> Option<u64>
    requires { slot.place + 3 < 2 ^ 64 }
    ensures { result ≡ wrong_place tags.now (slot_fields slot) }
{
    let place = slot.place;
    match slot.form {
        Form::Single { index, .. } => {
            if is_wrong_index(tags, index, Some(UTF8)) {
                Some(place + 1)
            } else {
                None
            }
        }
        Form::Pair { tag, first, second } => wrong_in_pair(tags, place, tag, first, second),
        Form::Handle { index, .. } => {
            if is_wrong_index(tags, index, None) {
                Some(place + 2)
            } else {
                None
            }
        }
        Form::Unusable => None,
        Form::Utf8 { .. } => None,
        Form::Number { .. } => None,
        Form::Wide { .. } => None,
    }
}

/// The place of the first wrong index field, in the order of the entries.
pub fn first_wrong(tags: &[Tag], slots: &[Slot]) -> Option<u64>
    requires { All (λ slot. slot.place + 3 < 2 ^ 64) slots.now }
    ensures { result ≡ wrong_place tags.now (flat_map slot_fields slots.now) }
{
    for slot in slots {
        if let Some(at) = wrong_in(tags, *slot) {
            return Some(at);
        }
    }
    None
}
