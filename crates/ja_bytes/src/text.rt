ghost use Rattle.std.specs.Prelude.{◌≡◌, ℕ, ◌<◌, ◌≤◌, ◌↔◌, length, take, IsOk, IfErr, IfSome, IfNone};
ghost use Rattle.ja_bytes.specs.Text.{IsCharacter, IsModifiedUtf8, IsFirstWrong};

/// Bytes that are no text: `at` is the place of the first byte of the first wrong character.
#[derive(Clone, Copy, PartialEq, Eq, Debug)]
pub struct BadText {
    pub at: u64,
}

/// The length of the character at the front, if there is one.
fn character_len(bytes: &[u8]) -> Option<usize>
    ensures within { IfSome result (λ n. n ≤ length bytes.now) }
    ensures some { IfSome result (λ n. 1 ≤ n) }
    ensures character { IfSome result (λ n. IsCharacter (take n bytes.now)) }
    ensures none { IfNone result ((n : ℕ) → IsCharacter (take n bytes.now) → ⊥) }
{
    match bytes {
        [0x01..=0x7f, ..] => Some(1),
        [0xc0..=0xdf, 0x80..=0xbf, ..] => Some(2),
        [0xe0..=0xef, 0x80..=0xbf, 0x80..=0xbf, ..] => Some(3),
        _ => None,
    }
}

/// Checks that the bytes are a text as class files hold it (JVM specification 4.4.7). It takes no memory.
pub fn modified_utf8(bytes: &[u8]) -> Result<(), BadText>
    ensures text { IsOk result ↔ IsModifiedUtf8 bytes.now }
    ensures wrong { IfErr result (λ e. IsFirstWrong bytes.now e.at) }
{
    let mut rest = bytes;
    while !rest.is_empty() {
        match character_len(rest) {
            Some(n) => rest = &rest[n..],
            None => {
                let at = bytes.len() - rest.len();
                return Err(BadText { at: at as u64 });
            }
        }
    }
    Ok(())
}
