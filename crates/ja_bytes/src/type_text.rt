//! How long the type at the front of a descriptor is.

ghost use Rattle.std.specs.Prelude.{◌≡◌, ℕ, ◌+◌, ◌<◌, ◌≤◌, ◌≢◌, ◌⊎◌, [], ◌∷◌, true, false, length, take, replicate, slice_index, IfOk, IfErr, IfSome, IfNone};
ghost use Rattle.ja_base.specs.Kind.{words_of};
ghost use Rattle.ja_base.specs.Descriptor.{is_word_letter, is_pair_letter, IsPartByte, IsPlain, IsField};
ghost use Rattle.ja_bytes.specs.Longest.{IsStuck};
ghost use Rattle.ja_bytes.specs.DescriptorText.{IsClassText, IsPlainText, IsFieldText, name_of};

use ja_base::Kind;

/// A type at the front of some bytes.
#[derive(Clone, Copy)]
pub struct TypeText {
    pub kind: Kind,
    pub len: usize,
}

/// Whether a class name is inside a part behind this byte, if the byte may follow in the name; `inside` says
/// whether it is before the byte.
fn inside_after(inside: bool, byte: u8) -> Option<bool>
    ensures follows { IfSome result (λ after. (IsPartByte byte × (after ≡ true)) ⊎ ((byte ≡ 47) × (inside ≡ true) × (after ≡ false))) }
    ensures none { IfNone result (IsPartByte byte ⊎ ((byte ≡ 47) × (inside ≡ true)) → ⊥) }
{
    match byte {
        b'.' | b';' | b'[' => None,
        b'/' => { if inside { Some(false) } else { None } }
        _ => Some(true),
    }
}

/// The length of the class name at the front, with the `;` that ends it; or how many bytes begin one.
fn class_text_len(bytes: &[u8]) -> Result<usize, usize>
    ensures within { IfOk result (λ n. n ≤ length bytes.now) }
    ensures ok { IfOk result (λ n. IsClassText (take n bytes.now)) }
    ensures stuck { IfErr result (λ n. IsStuck IsClassText bytes.now n) }
{
    let mut inside = false;
    for (i, byte) in bytes.iter().enumerate() {
        if inside && *byte == b';' {
            return Ok(i + 1);
        }
        match inside_after(inside, *byte) {
            Some(after) => inside = after,
            None => return Err(i),
        }
    }
    Err(bytes.len())
}

/// The kind of the primitive type with this letter.
fn letter_kind(byte: u8) -> Option<Kind>
    ensures some { IfSome result (λ kind. IsPlain (byte ∷ []) kind (byte ∷ [])) }
    ensures none { IfNone result ((is_word_letter byte ≡ false) × (is_pair_letter byte ≡ false)) }
{
    match byte {
        b'B' | b'C' | b'F' | b'I' | b'S' | b'Z' => Some(Kind::P1),
        b'D' | b'J' => Some(Kind::P2),
        _ => None,
    }
}

/// How many `[` stand at the front, counted to 255.
fn dims_of(bytes: &[u8]) -> usize
    ensures within { result ≤ length bytes.now }
    ensures most { result ≤ 255 }
    ensures brackets { take result bytes.now ≡ replicate result 91 }
    ensures last { result < 255 → result < length bytes.now → slice_index bytes.now result ≢ 91 }
{
    for (i, byte) in bytes.iter().enumerate() {
        if i == 255 || *byte != b'[' {
            return i;
        }
    }
    bytes.len()
}

/// The type at the front, if it is no array and takes no more words than there is room for; or how many
/// bytes begin such a type.
fn plain_len(bytes: &[u8], room: u32) -> Result<TypeText, usize>
    requires { 1 ≤ room }
    ensures within { IfOk result (λ text. text.len ≤ length bytes.now) }
    ensures ok { IfOk result (λ text. IsPlain (take text.len bytes.now) text.kind (name_of (take text.len bytes.now))) }
    ensures fits { IfOk result (λ text. words_of text.kind ≤ room) }
    ensures stuck { IfErr result (λ n. IsStuck (IsPlainText room) bytes.now n) }
{
    let Some((first, rest)) = bytes.split_first() else {
        return Err(0);
    };
    if *first == b'L' {
        return match class_text_len(rest) {
            Ok(n) => Ok(TypeText {
                kind: Kind::R,
                len: n + 1,
            }),
            Err(n) => Err(n + 1),
        };
    }
    match letter_kind(*first) {
        None => Err(0),
        Some(kind) => {
            if kind.words() > room {
                return Err(0);
            }
            Ok(TypeText { kind, len: 1 })
        }
    }
}

/// The type at the front, if it takes no more words than there is room for; or how many bytes begin such a
/// type.
pub fn type_len(bytes: &[u8], room: u32) -> Result<TypeText, usize>
    requires { 1 ≤ room }
    ensures some { IfOk result (λ text. 1 ≤ text.len) }
    ensures within { IfOk result (λ text. text.len ≤ length bytes.now) }
    ensures ok { IfOk result (λ text. IsField (take text.len bytes.now) (record { kind = text.kind; name = name_of (take text.len bytes.now) })) }
    ensures fits { IfOk result (λ text. words_of text.kind ≤ room) }
    ensures stuck { IfErr result (λ n. IsStuck (IsFieldText room) bytes.now n) }
{
    let dims = dims_of(bytes);
    let (_, rest) = bytes.split_at(dims);
    if dims == 0 {
        return plain_len(rest, room);
    }
    match plain_len(rest, 2) {
        Ok(element) => Ok(TypeText {
            kind: Kind::R,
            len: dims + element.len,
        }),
        Err(n) => Err(dims + n),
    }
}
