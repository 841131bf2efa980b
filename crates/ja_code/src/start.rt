ghost use Rattle.std.specs.Prelude.{◌≡◌};
ghost use Rattle.ja_code.specs.InnerReading.{marked};

/// Whether a place is marked as the start of an instruction. No place past the end is.
pub(crate) fn is_marked(starts: &[bool], place: u64) -> bool
    ensures { result ≡ marked starts.now place }
{
    starts.get(place as usize).copied().unwrap_or(false)
}
