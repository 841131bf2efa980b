//! Options with their values, and all other words.
ghost use Rattle.std.specs.Prelude.{◌≡◌, ◌<◌, ◌-◌, length, option_copied, slice_get};
ghost use Rattle.ja_words.specs.Options.{begins_with_option, is_option, plain_words, values_of};

use ja_base::Name;

/// Whether a word is an option.
fn is_option_word(word: &Name) -> bool
    ensures { result ≡ is_option word.now }
{
    word.bytes() == b"--workers".as_slice() || word.bytes() == b"--limit".as_slice()
}

/// Whether the first word is an option that has a value.
fn has_value(words: &[Name]) -> bool
    ensures { result ≡ begins_with_option words.now }
{
    match words {
        [word, _, ..] => is_option_word(word),
        _ => false,
    }
}

/// The word at a place among those that are neither options nor values of options, if there is one.
pub(crate) fn plain_at(words: &[Name], place: usize) -> Option<&Name>
    ensures { option_copied result ≡ slice_get (plain_words words.now) place }
{
    let mut rest = words;
    let mut left = place;
    'rest: while !rest.is_empty() {
        if has_value(rest) {
            rest = &rest[2..];
        } else {
            if left == 0 {
                return Some(&rest[0]);
            }
            left -= 1;
            rest = &rest[1..];
        }
    }
    None
}

/// The value at a place among those of an option, if there is one.
pub(crate) fn value_at<'a>(words: &'a [Name], option: &[u8], place: usize) -> Option<&'a Name>
    ensures { option_copied result ≡ slice_get (values_of option.now words.now) place }
{
    let mut rest = words;
    let mut left = place;
    'rest: while !rest.is_empty() {
        if !has_value(rest) {
            rest = &rest[1..];
        } else {
            if rest[0].bytes() == option {
                if left == 0 {
                    return Some(&rest[1]);
                }
                left -= 1;
            }
            rest = &rest[2..];
        }
    }
    None
}
