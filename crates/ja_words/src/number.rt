//! Words that are numbers.
ghost use Rattle.std.specs.Prelude.{◌≡◌, ◌≢◌, ℕ, ◌<◌, ◌≤◌, ◌^◌, ◌↔◌, IfSome, IsNone, IsTrue, length, slice_index};
ghost use Rattle.std.specs.Fmt.{decimal};
ghost use Rattle.ja_words.specs.Numbers.{IsGiven, IsNumberIn};
ghost use Rattle.ja_words.specs.Options.{values_of};

use crate::options::value_at;
use ja_base::Name;

/// Whether bytes are not empty and have neither a sign nor a zero in front, but for `0` itself.
fn begins_plainly(bytes: &[u8]) -> bool
    ensures { IsTrue result ↔ (0 < length bytes.now) × (slice_index bytes.now 0 ≢ 43) × (slice_index bytes.now 0 ≡ 48 → length bytes.now ≡ 1) }
{
    !bytes.is_empty() && bytes[0] != b'+' && (bytes[0] != b'0' || bytes.len() == 1)
}

/// The number that a word spells in decimal digits, if it spells one below 2^64.
fn number_of(word: &Name) -> Option<u64>
    ensures found { IfSome result (λ number. word.now ≡ decimal number) }
    ensures fits { IfSome result (λ number. number < 2 ^ 64) }
    ensures none { IsNone result → (number : ℕ) → number < 2 ^ 64 → word.now ≢ decimal number }
{
    let bytes = word.bytes();
    if !begins_plainly(bytes) {
        return None;
    }
    let Ok(text) = str::from_utf8(bytes) else {
        return None;
    };
    let Ok(number) = text.parse::<u64>() else {
        return None;
    };
    Some(number)
}

/// The number that a word spells, if it is within bounds.
pub(crate) fn number_in(word: &Name, least: u64, most: u64) -> Option<u64>
    ensures found { IfSome result (IsNumberIn least most word.now) }
    ensures none { IsNone result → (number : ℕ) → IsNumberIn least most word.now number → ⊥ }
{
    let number = number_of(word)?;
    if number < least {
        return None;
    }
    if most < number {
        return None;
    }
    Some(number)
}

/// The number that an option gives, or `otherwise` where it is not given; nothing where it is given twice or is no number
/// within bounds.
pub(crate) fn number_given(
    words: &[Name],
    option: &[u8],
    otherwise: u64,
    least: u64,
    most: u64,
) -> Option<u64>
    requires { otherwise ≤ most }
    ensures found { IfSome result (IsGiven otherwise least most (values_of option.now words.now)) }
    ensures bound { IfSome result (λ number. number ≤ most) }
    ensures none { IsNone result → (number : ℕ) → IsGiven otherwise least most (values_of option.now words.now) number → ⊥ }
{
    let Some(value) = value_at(words, option, 0) else {
        return Some(otherwise);
    };
    match value_at(words, option, 1) {
        Some(_) => None,
        None => number_in(value, least, most),
    }
}
