ghost use Rattle.std.specs.Prelude.{◌≡◌, ◌<◌, ◌≤◌, ◌++◌, Some, length, drop, bytes_eq, option_copied, OnOk, IfOk};
ghost use Rattle.ja_listing.specs.Text.{is_blank, parted};
ghost use Rattle.ja_listing.specs.Word.{abbreviation, replaced, begins_whole, has_whole, bare_words, static_call, letters, closed, part_words, all_words, words};
ghost use Rattle.ja_listing.specs.InnerReading.{short_at, first_letter, first_quoted, Gives, Adds};

use crate::fault::ItemFault;
use crate::glyph::{Glyph, front, rest_behind, word_len};
use ja_base::{Bytes, Memory, Name, Seq};
use std::alloc::Global;

/// A word of an item, its abbreviations replaced.
#[derive(Drop)]
pub(crate) enum Word {
    /// A word outside quoted texts.
    Bare(Name),
    /// A quoted text, without its quotation marks.
    Text(Name),
    /// `$I`, which stands for a whole method.
    Whole,
}

/// The words of an item.
pub(crate) type Words = Seq<Word>;

/// What `$` and a letter stand for.
#[tactic(auto, unfolding(crate::specs::Word::abbreviation))]
fn abbreviation(letter: u8) -> Option<&'static str>
    ensures { option_copied result ≡ abbreviation letter }
{
    match letter {
        b'S' => Some("Ljava/lang/String;"),
        b'B' => Some("Ljava/lang/StringBuilder;"),
        b'T' => Some("demo/Taint"),
        b'O' => Some("java/lang/Object"),
        b'H' => Some("javax/servlet/http/Http"),
        _ => None,
    }
}

/// What the two bytes at the front stand for.
fn short_at(rest: &[u8]) -> Option<&'static str>
    ensures { option_copied result ≡ short_at rest.now }
{
    match rest {
        [b'$', letter, ..] => abbreviation(*letter),
        _ => None,
    }
}

/// Writes a text at the end.
fn append(out: &mut Vec<u8>, text: &[u8]) -> Result<(), Memory>
    ensures { OnOk result (out.new.items ≡ out.old.items ++ text.now) }
{
    out.extend_from_slice(text)?;
    Ok(())
}

/// Writes what stands for the front of a word, and gives the length of that front.
#[tactic(auto, using(crate::proofs::Words::short_inside))]
fn put_front(out: &mut Vec<u8>, rest: &[u8]) -> Result<usize, Memory>
    requires { 0 < length rest.now }
    ensures put { IfOk result (λ n. out.new.items ++ replaced (drop n rest.now) ≡ out.old.items ++ replaced rest.now) }
    ensures some { IfOk result (λ n. 0 < n) }
    ensures inside { IfOk result (λ n. n ≤ length rest.now) }
{
    match short_at(rest) {
        Some(text) => {
            append(out, text.as_bytes())?;
            Ok(2)
        }
        None => {
            out.push(rest[0])?;
            Ok(1)
        }
    }
}

/// The bytes of a word, each abbreviation replaced.
#[tactic(auto, unfolding(crate::specs::Word::replaced))]
fn replaced_of(alloc: Global, word: &[u8]) -> Result<Name, Memory>
    ensures { IfOk result (λ name. name ≡ replaced word.now) }
{
    let mut out = Vec::new(alloc);
    let mut rest = word;
    while !rest.is_empty() {
        let len = put_front(&mut out, rest)?;
        rest = &rest[len..];
    }
    Ok(Name::from_vec(out))
}

/// Whether `$I`, `$X` or `$Y` stands at the front.
fn is_at_whole(rest: &[u8]) -> bool
    ensures { result ≡ begins_whole rest.now }
{
    match rest {
        [b, c, ..] => *b == b'$' && (*c == b'I' || *c == b'X' || *c == b'Y'),
        _ => false,
    }
}

/// Whether `$I`, `$X` or `$Y` is in a word.
#[tactic(auto, using(crate::proofs::Words::none_at, crate::proofs::Words::some_at), unfolding(crate::specs::Word::has_whole))]
fn holds_whole(word: &[u8]) -> bool
    ensures { result ≡ has_whole word.now }
{
    let mut rest = word;
    while !rest.is_empty() {
        if is_at_whole(rest) {
            return true;
        }
        rest = &rest[1..];
    }
    false
}

/// The letter at the front, if one stands there.
fn first_letter(rest: &[Glyph]) -> Option<u8>
    ensures { result ≡ first_letter rest.now }
{
    match rest {
        [Glyph::Letter(byte), ..] => Some(*byte),
        _ => None,
    }
}

/// The byte of a quoted text at the front, if one stands there.
fn first_quoted(rest: &[Glyph]) -> Option<u8>
    ensures { result ≡ first_quoted rest.now }
{
    match rest {
        [Glyph::Quoted(byte), ..] => Some(*byte),
        _ => None,
    }
}

/// The bytes of a word outside quoted texts.
#[tactic(auto, using(crate::proofs::Words::letters_step, crate::proofs::Words::letters_stop, crate::proofs::Words::letters_end))]
fn letters_of(alloc: Global, part: &[Glyph]) -> Result<Name, ItemFault>
    ensures { Gives result (letters part.now) }
{
    let mut bytes = Bytes::new(alloc);
    let mut rest = part;
    while !rest.is_empty() {
        let Some(byte) = first_letter(rest) else {
            return Err(ItemFault::Broken);
        };
        bytes.push(byte)?;
        rest = &rest[1..];
    }
    Ok(Name::from_vec(bytes.into_vec()))
}

/// The quoted text that a part ends, and whose first mark stands before the part.
#[tactic(auto, using(crate::proofs::Words::closed_step, crate::proofs::Words::closed_stop, crate::proofs::Words::closed_never, crate::proofs::Words::closed_early, crate::proofs::Words::closed_end))]
fn text_of(alloc: Global, part: &[Glyph]) -> Result<Name, ItemFault>
    ensures { Gives result (closed part.now) }
{
    let mut bytes = Bytes::new(alloc);
    let mut rest = part;
    while !rest.is_empty() {
        let Some(byte) = first_quoted(rest) else {
            return Err(ItemFault::Broken);
        };
        if byte == b'"' {
            if 1 < rest.len() {
                return Err(ItemFault::Broken);
            }
            return Ok(Name::from_vec(bytes.into_vec()));
        }
        bytes.push(byte)?;
        rest = &rest[1..];
    }
    Err(ItemFault::Broken)
}

/// A name with the bytes of a text.
fn name_of(alloc: Global, text: &str) -> Result<Name, Memory>
    ensures { IfOk result (λ name. name ≡ text.now) }
{
    Name::of(alloc, text.as_bytes())
}

/// Adds the two words of a call of a static method.
fn add_call(alloc: Global, words: &mut Words, method: &str) -> Result<(), ItemFault>
    ensures { Adds words.old words.new result (Some (static_call method.now)) }
{
    let mnemonic = name_of(alloc, "invokestatic")?;
    let method = name_of(alloc, method)?;
    words.push(Word::Bare(mnemonic))?;
    words.push(Word::Bare(method))?;
    Ok(())
}

/// Whether bytes are those of a text.
fn is_word(bytes: &[u8], text: &str) -> bool
    ensures { result ≡ bytes_eq bytes.now text.now }
{
    bytes == text.as_bytes()
}

/// Adds the words that bytes outside quoted texts stand for.
#[tactic(auto, unfolding(crate::specs::Word::bare_words))]
fn add_bare(alloc: Global, words: &mut Words, bytes: &[u8]) -> Result<(), ItemFault>
    ensures { Adds words.old words.new result (bare_words bytes.now) }
{
    if is_word(bytes, "$I") {
        words.push(Word::Whole)?;
        return Ok(());
    }
    if is_word(bytes, "$X") {
        return add_call(alloc, words, "demo/Taint.sink(Ljava/lang/String;)V");
    }
    if is_word(bytes, "$Y") {
        return add_call(alloc, words, "demo/Taint.source()Ljava/lang/String;");
    }
    if holds_whole(bytes) {
        return Err(ItemFault::Broken);
    }
    words.push(Word::Bare(replaced_of(alloc, bytes)?))?;
    Ok(())
}

/// Adds the words that stand between two blanks.
#[tactic(auto, using(crate::proofs::Words::text_part, crate::proofs::Words::bare_part), unfolding(crate::specs::Word::part_words))]
fn add_part(alloc: Global, words: &mut Words, part: &[Glyph]) -> Result<(), ItemFault>
    ensures { Adds words.old words.new result (part_words part.now) }
{
    if part.is_empty() {
        return Ok(());
    }
    if first_quoted(part).is_some() {
        let text = text_of(alloc, &part[1..])?;
        words.push(Word::Text(text))?;
        return Ok(());
    }
    let bytes = letters_of(alloc, part)?;
    add_bare(alloc, words, bytes.bytes())
}

/// The words of an item.
pub(crate) fn words_of(alloc: Global, item: &[Glyph]) -> Result<Words, ItemFault>
    ensures { Gives result (words item.now) }
{
    let mut words = Words::new(alloc);
    let mut rest = item;
    while !rest.is_empty() {
        let len = word_len(rest);
        let part = front(rest, len);
        add_part(alloc, &mut words, part)?;
        rest = rest_behind(rest, len);
    }
    Ok(words)
}
