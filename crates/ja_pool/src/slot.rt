ghost use Rattle.std.specs.Prelude.{◌≡◌, ◌∷◌, ◌++◌, OnOk};
ghost use Rattle.ja_pool.specs.InnerSlot.{form_tag, form_first, form_second, form_pad};

use ja_base::tag::{METHOD_HANDLE, Tag, UTF8};
use std::alloc::AllocError;

/// What stands at an index of the pool. A text is named by its place among the pool's bytes.
#[derive(Clone, Copy)]
pub enum Form {
    Unusable,
    Utf8 { from: u64, len: u16 },
    Number { tag: Tag, bits: u32 },
    Wide { tag: Tag, bits: u64 },
    Single { tag: Tag, index: u16 },
    Pair { tag: Tag, first: u16, second: u16 },
    Handle { kind: u8, index: u16 },
}

/// An index of the pool: the place of the entry's tag in the file, and what the entry is.
#[derive(Clone, Copy)]
pub struct Slot {
    pub place: u64,
    pub form: Form,
}

/// An index at which nothing stands.
pub const NOTHING: Slot = Slot {
    place: 0,
    form: Form::Unusable,
};

impl Form {
    /// The tag, 0 where nothing stands.
    pub fn tag(self) -> Tag
        ensures { result ≡ form_tag self }
    {
        match self {
            Form::Unusable => 0,
            Form::Utf8 { .. } => UTF8,
            Form::Number { tag, .. } => tag,
            Form::Wide { tag, .. } => tag,
            Form::Single { tag, .. } => tag,
            Form::Pair { tag, .. } => tag,
            Form::Handle { .. } => METHOD_HANDLE,
        }
    }

    /// The index that is held, or the first of two.
    pub fn first(self) -> u16
        ensures { result ≡ form_first self }
    {
        match self {
            Form::Single { index, .. } => index,
            Form::Pair { first, .. } => first,
            Form::Handle { index, .. } => index,
            Form::Unusable => 0,
            Form::Utf8 { .. } => 0,
            Form::Number { .. } => 0,
            Form::Wide { .. } => 0,
        }
    }

    /// The second of two indices.
    pub fn second(self) -> u16
        ensures { result ≡ form_second self }
    {
        match self {
            Form::Pair { second, .. } => second,
            Form::Single { .. } => 0,
            Form::Handle { .. } => 0,
            Form::Unusable => 0,
            Form::Utf8 { .. } => 0,
            Form::Number { .. } => 0,
            Form::Wide { .. } => 0,
        }
    }
}

/// Adds the slot of an entry, and the index behind it that a number of eight bytes takes too.
pub fn add(slots: &mut Vec<Slot>, slot: Slot) -> Result<(), AllocError>
    ensures { OnOk result (slots.new.items ≡ slots.old.items ++ slot ∷ form_pad slot.form) }
{
    slots.push(slot)?;
    if matches!(slot.form, Form::Wide { .. }) {
        slots.push(NOTHING)?;
    }
    Ok(())
}
