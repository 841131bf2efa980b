ghost use Rattle.std.specs.Prelude.{◌≡◌, ◌+◌, ◌<◌, ◌≤◌, ◌∷◌, length, take, drop, false, IfOk};
ghost use Rattle.std.specs.List.{position, position_or_len};
ghost use Rattle.ja_listing.specs.Text.{glyph, glyphs, opens, at_parting, is_blank, is_end};

use ja_base::{Memory, Seq};
use std::alloc::Global;

/// What a byte of a text is to the items and the words of a listing.
#[derive(Clone, Copy)]
pub(crate) enum Glyph {
    /// A line feed, or two semicolons outside quoted texts: what parts items.
    End,
    /// A blank outside quoted texts: what parts words.
    Blank,
    /// Any other byte outside quoted texts.
    Letter(u8),
    /// A byte of a quoted text, or one of its quotation marks.
    Quoted(u8),
}

/// A text, byte by byte.
pub(crate) type Glyphs = Seq<Glyph>;

/// What a byte is, where a quoted text goes on before it or not.
fn glyph_of(within: bool, byte: u8) -> Glyph
    ensures { result ≡ glyph within byte }
{
    if byte == b'\n' {
        Glyph::End
    } else if within {
        Glyph::Quoted(byte)
    } else if byte == b'"' {
        Glyph::Quoted(byte)
    } else if byte == b' ' {
        Glyph::Blank
    } else {
        Glyph::Letter(byte)
    }
}

/// Whether a quoted text goes on behind a byte.
fn opens_behind(within: bool, byte: u8) -> bool
    ensures { result ≡ opens within byte }
{
    if byte == b'\n' {
        false
    } else if byte == b'"' {
        !within
    } else {
        within
    }
}

/// Whether two semicolons that part items stand at the front.
fn is_at_parting(within: bool, rest: &[u8]) -> bool
    ensures { result ≡ at_parting within rest.now }
{
    match rest {
        [b, c, ..] => !within && (*b == b';' && *c == b';'),
        _ => false,
    }
}

/// What stands at the front, whether a quoted text goes on behind it, and how many bytes it has.
#[tactic(auto, using(crate::proofs::Glyphs::parting_first, crate::proofs::Glyphs::parting_inside, crate::proofs::Glyphs::byte_first))]
fn next_glyph(within: bool, rest: &[u8]) -> (Glyph, bool, usize)
    requires { 0 < length rest.now }
    ensures step { glyphs within rest.now ≡ result.0 ∷ glyphs result.1 (drop result.2 rest.now) }
    ensures some { 0 < result.2 }
    ensures inside { result.2 ≤ length rest.now }
{
    if is_at_parting(within, rest) {
        return (Glyph::End, false, 2);
    }
    (glyph_of(within, rest[0]), opens_behind(within, rest[0]), 1)
}

/// The bytes of a text.
#[tactic(auto, unfolding(crate::specs::Text::glyphs))]
pub(crate) fn glyphs_of(alloc: Global, text: &[u8]) -> Result<Glyphs, Memory>
    ensures { IfOk result (λ found. found ≡ glyphs false text.now) }
{
    let mut found = Glyphs::new(alloc);
    let mut within = false;
    let mut rest = text;
    while !rest.is_empty() {
        let (glyph, goes_on, size) = next_glyph(within, rest);
        found.push(glyph)?;
        within = goes_on;
        rest = &rest[size..];
    }
    Ok(found)
}

/// The place of the first byte that ends an item.
fn first_end(rest: &[Glyph]) -> Option<usize>
    ensures { result ≡ position is_end rest.now }
{
    rest.iter().position(|g| matches!(*g, Glyph::End))
}

/// The place of the first byte that ends a word.
fn first_blank(rest: &[Glyph]) -> Option<usize>
    ensures { result ≡ position is_blank rest.now }
{
    rest.iter().position(|g| matches!(*g, Glyph::Blank))
}

/// The length of the item at the front.
#[tactic(auto, using(crate::proofs::Glyphs::len_from_some, crate::proofs::Glyphs::len_from_none))]
pub(crate) fn item_len(rest: &[Glyph]) -> usize
    ensures len { result ≡ position_or_len is_end rest.now }
    ensures inside { result ≤ length rest.now }
{
    match first_end(rest) {
        Some(len) => len,
        None => rest.len(),
    }
}

/// The length of the word at the front.
#[tactic(auto, using(crate::proofs::Glyphs::len_from_some, crate::proofs::Glyphs::len_from_none))]
pub(crate) fn word_len(rest: &[Glyph]) -> usize
    ensures len { result ≡ position_or_len is_blank rest.now }
    ensures inside { result ≤ length rest.now }
{
    match first_blank(rest) {
        Some(len) => len,
        None => rest.len(),
    }
}

/// The front of this length.
pub(crate) fn front(glyphs: &[Glyph], len: usize) -> &[Glyph]
    requires { len ≤ length glyphs.now }
    ensures { result.now ≡ take len glyphs.now }
{
    &glyphs[..len]
}

/// What stands behind a part of this length and what ends it.
pub(crate) fn rest_behind(glyphs: &[Glyph], len: usize) -> &[Glyph]
    ensures { result.now ≡ drop (len + 1) glyphs.now }
{
    if len < glyphs.len() {
        return &glyphs[len + 1..];
    }
    &glyphs[glyphs.len()..]
}
