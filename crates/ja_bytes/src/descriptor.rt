ghost use Rattle.std.specs.Prelude.{◌≡◌, ℕ, List, ◌+◌, ◌-◌, ◌<◌, ◌^◌, ◌≤◌, ◌∷◌, length, take, Ok, None, ◌↔◌, IsTrue, IfOk, IfErr, IfSome};
ghost use Rattle.ja_base.specs.Kind.{words_of};
ghost use Rattle.ja_base.specs.Descriptor.{IsField, IsResult, IsMethod, words_of_all};
ghost use Rattle.ja_bytes.specs.Desc.{IsBadAt};
ghost use Rattle.ja_bytes.specs.InnerDesc.{behind_of};
ghost use Rattle.ja_bytes.specs.Longest.{IsWrongAt, IsStuck};
ghost use Rattle.ja_bytes.specs.DescriptorText.{IsFieldText, IsFieldDesc, IsResultText, IsMethodText, IsParamsText, SpellsParams, name_of};

use crate::type_text::type_len;
use ja_base::{Desc, JavaType, JavaTypes, Kind, Memory, Name};
use std::alloc::Global;

/// Why bytes are not read as a descriptor.
#[derive(Clone, Copy, PartialEq, Eq, Debug)]
pub enum DescFault {
    /// They are none: `at` is the length of the longest front with which some descriptor begins.
    Bad { at: u64 },
    /// Want of memory.
    Memory,
}

impl DescFault {
    /// The fault, seen from this many bytes before.
    fn behind(self, len: usize) -> DescFault
        requires { IsBadAt (λ at. len + at < 2 ^ 64) self }
        ensures { result ≡ behind_of len self }
    {
        match self {
            DescFault::Bad { at } => DescFault::Bad {
                at: len as u64 + at,
            },
            DescFault::Memory => DescFault::Memory,
        }
    }
}

/// Parameters at the front of some bytes, and the length of their text with the `)` that ends it.
struct Params {
    types: JavaTypes,
    words: u32,
    len: usize,
}

/// The type of this kind that a text spells.
fn java_type(alloc: Global, kind: Kind, text: &[u8]) -> Result<JavaType, Memory>
    ensures { IfOk result (λ type. type ≡ record { kind = kind; name = name_of text.now }) }
{
    let name = if text.len() > 1 && text[0] == b'L' {
        &text[1..text.len() - 1]
    } else {
        text
    };
    match Name::of(alloc, name) {
        Ok(name) => Ok(JavaType { kind, name }),
        Err(e) => Err(e),
    }
}

/// The type at the front, with the length of its text, if it takes no more words than there is room for.
fn type_at(alloc: Global, bytes: &[u8], room: u32) -> Result<(JavaType, usize), DescFault>
    requires { 1 ≤ room }
    ensures some { IfOk result (λ found. 1 ≤ found.1) }
    ensures within { IfOk result (λ found. found.1 ≤ length bytes.now) }
    ensures ok { IfOk result (λ found. IsField (take found.1 bytes.now) found.0) }
    ensures fits { IfOk result (λ found. words_of found.0.kind ≤ room) }
    ensures stuck { IfErr result (IsBadAt (IsStuck (IsFieldText room) bytes.now)) }
{
    match type_len(bytes, room) {
        Err(n) => Err(DescFault::Bad { at: n as u64 }),
        Ok(text) => match java_type(alloc, text.kind, &bytes[..text.len]) {
            Ok(found) => Ok((found, text.len)),
            Err(_) => Err(DescFault::Memory),
        },
    }
}

/// Whether this byte is the first.
fn begins_with(bytes: &[u8], byte: u8) -> bool
    ensures { IsTrue result ↔ ((rest : List ℕ) × (bytes.now ≡ byte ∷ rest)) }
{
    match bytes.split_first() {
        Some((first, _)) => *first == byte,
        None => false,
    }
}

/// The next parameter, with the length of its text; none before a `)`. The parameters before it take this
/// many words.
fn next_param(
    alloc: Global,
    bytes: &[u8],
    words: u32,
) -> Result<Option<(JavaType, usize)>, DescFault>
    requires { words ≤ 255 }
    ensures end { result ≡ Ok None → (rest : List ℕ) × (bytes.now ≡ 41 ∷ rest) }
    ensures some { IfOk result (λ next. IfSome next (λ found. 1 ≤ found.1)) }
    ensures within { IfOk result (λ next. IfSome next (λ found. found.1 ≤ length bytes.now)) }
    ensures ok { IfOk result (λ next. IfSome next (λ found. IsField (take found.1 bytes.now) found.0)) }
    ensures fits { IfOk result (λ next. IfSome next (λ found. words + words_of found.0.kind ≤ 255)) }
    ensures stuck { IfErr result (IsBadAt (IsStuck (IsParamsText (255 - words)) bytes.now)) }
{
    if begins_with(bytes, b')') {
        return Ok(None);
    }
    if words == 255 {
        return Err(DescFault::Bad { at: 0 });
    }
    match type_at(alloc, bytes, 255 - words) {
        Ok(found) => Ok(Some(found)),
        Err(fault) => Err(fault),
    }
}

/// The parameters at the front, and the `)` behind them.
fn params_of(alloc: Global, bytes: &[u8]) -> Result<Params, DescFault>
    ensures within { IfOk result (λ params. params.len ≤ length bytes.now) }
    ensures ok { IfOk result (λ params. SpellsParams 255 (take params.len bytes.now) params.types) }
    ensures words { IfOk result (λ params. params.words ≡ words_of_all params.types) }
    ensures stuck { IfErr result (IsBadAt (IsStuck (IsParamsText 255) bytes.now)) }
{
    let mut types = JavaTypes::new(alloc);
    let mut words: u32 = 0;
    let mut len: usize = 0;
    'params: loop {
        let (_, rest) = bytes.split_at(len);
        match next_param(alloc, rest, words) {
            Err(fault) => return Err(fault.behind(len)),
            Ok(None) => {
                return Ok(Params {
                    types,
                    words,
                    len: len + 1,
                });
            }
            Ok(Some((next, n))) => {
                let taken = next.kind.words();
                match types.push(next) {
                    Ok(()) => {
                        words += taken;
                        len += n;
                    }
                    Err(_) => return Err(DescFault::Memory),
                }
            }
        }
    }
}

/// The result at the front, with the length of its text.
fn result_at(alloc: Global, bytes: &[u8]) -> Result<(Option<JavaType>, usize), DescFault>
    ensures within { IfOk result (λ found. found.1 ≤ length bytes.now) }
    ensures ok { IfOk result (λ found. IsResult (take found.1 bytes.now) found.0) }
    ensures stuck { IfErr result (IsBadAt (IsStuck IsResultText bytes.now)) }
{
    if begins_with(bytes, b'V') {
        return Ok((None, 1));
    }
    match type_at(alloc, bytes, 2) {
        Ok((found, len)) => Ok((Some(found), len)),
        Err(fault) => Err(fault),
    }
}

/// The method whose descriptor has these bytes behind its `(`. Places are counted from behind it too.
fn desc_behind(alloc: Global, bytes: &[u8]) -> Result<Desc, DescFault>
    ensures ok { IfOk result (λ desc. IsMethod (40 ∷ bytes.now) desc.params desc.result) }
    ensures words { IfOk result (λ desc. desc.words ≡ words_of_all desc.params) }
    ensures wrong { IfErr result (IsBadAt (λ at. IsWrongAt IsMethodText (40 ∷ bytes.now) (1 + at))) }
{
    let params = match params_of(alloc, bytes) {
        Ok(params) => params,
        Err(fault) => return Err(fault),
    };
    let Params { types, words, len } = params;
    let (_, rest) = bytes.split_at(len);
    match result_at(alloc, rest) {
        Err(fault) => Err(fault.behind(len)),
        Ok((result, n)) => {
            if n < rest.len() {
                return Err(DescFault::Bad {
                    at: (len + n) as u64,
                });
            }
            Ok(Desc {
                params: types,
                result,
                words,
            })
        }
    }
}

/// The types of the method that has this descriptor (JVM specification 4.3.3).
pub fn method_desc(alloc: Global, bytes: &[u8]) -> Result<Desc, DescFault>
    ensures ok { IfOk result (λ desc. IsMethod bytes.now desc.params desc.result) }
    ensures words { IfOk result (λ desc. desc.words ≡ words_of_all desc.params) }
    ensures wrong { IfErr result (IsBadAt (IsWrongAt IsMethodText bytes.now)) }
{
    if !begins_with(bytes, b'(') {
        return Err(DescFault::Bad { at: 0 });
    }
    let (_, inner) = bytes.split_at(1);
    match desc_behind(alloc, inner) {
        Ok(desc) => Ok(desc),
        Err(fault) => Err(fault.behind(1)),
    }
}

/// The kind of the type of the field that has this descriptor (JVM specification 4.3.2).
pub fn field_desc(_alloc: Global, bytes: &[u8]) -> Result<Kind, DescFault>
    ensures ok { IfOk result (λ kind. (name : List ℕ) × IsField bytes.now (record { kind = kind; name = name })) }
    ensures wrong { IfErr result (IsBadAt (IsWrongAt IsFieldDesc bytes.now)) }
{
    match type_len(bytes, 2) {
        Err(n) => Err(DescFault::Bad { at: n as u64 }),
        Ok(text) => {
            if text.len < bytes.len() {
                return Err(DescFault::Bad {
                    at: text.len as u64,
                });
            }
            Ok(text.kind)
        }
    }
}
