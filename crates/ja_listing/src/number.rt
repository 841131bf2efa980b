ghost use Rattle.std.specs.Prelude.{◌≡◌, min};
ghost use Rattle.ja_listing.specs.Number.{is_digit, are_digits, decimal, size_of, has_sign, number_of, has_code};

use ja_base::access_flags::{ABSTRACT, NATIVE};

/// A number of a listing.
#[derive(Clone, Copy)]
pub struct Number {
    /// Whether `-` stands before it.
    pub negative: bool,
    /// The number behind the sign; numbers from 2^32 - 1 on, which no field has, are all held as that one.
    pub size: u32,
}

/// The number that digits spell, or 2^32 - 1 where it is greater.
fn decimal_of(digits: &[u8]) -> u32
    ensures { result ≡ min (decimal 0 digits.now) 4294967295 }
{
    let mut size = 0u32;
    for digit in digits {
        let value = u32::from(digit.saturating_sub(b'0'));
        size = size.saturating_mul(10).saturating_add(value);
    }
    size
}

fn is_digit(byte: u8) -> bool
    ensures { result ≡ is_digit byte }
{
    b'0' <= byte && byte <= b'9'
}

fn are_digits(bytes: &[u8]) -> bool
    ensures { result ≡ are_digits bytes.now }
{
    bytes.iter().all(|byte| is_digit(*byte))
}

/// The number of this sign that one digit or more spell.
fn size_of(negative: bool, digits: &[u8]) -> Option<Number>
    ensures { result ≡ size_of negative digits.now }
{
    if 0 < digits.len() && are_digits(digits) {
        let size = decimal_of(digits);
        return Some(Number { negative, size });
    }
    None
}

fn has_sign(word: &[u8]) -> bool
    ensures { result ≡ has_sign word.now }
{
    0 < word.len() && word[0] == b'-'
}

/// The number that a word spells: decimal digits, and before them `-` or not.
#[tactic(auto, unfolding(crate::specs::Number::number_of))]
pub(crate) fn number_of(word: &[u8]) -> Option<Number>
    ensures { result ≡ number_of word.now }
{
    if has_sign(word) {
        return size_of(true, &word[1..]);
    }
    size_of(false, word)
}

impl Number {
    /// Whether a method with these flags has code: it is neither abstract nor native (JVM specification 4.6).
    pub fn has_code(self) -> bool
        ensures { result ≡ has_code self }
    {
        self.size & u32::from(ABSTRACT | NATIVE) == 0
    }
}
