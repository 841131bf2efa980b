ghost use Rattle.std.specs.Prelude.{◌≡◌, drop};
ghost use Rattle.ja_listing.specs.Item.{class_line, field_item, frame_of, method_item, caught, try_item, instruction, is_label, labelled, item_by, line_by, line_of};
ghost use Rattle.ja_listing.specs.InnerReading.{Gives};

use crate::fault::ItemFault;
use crate::operand::{bare_at, name_at, number_at, operand_of};
use crate::word::Word;
use crate::{Frame, Head, Item, Line};
use ja_base::Name;
use ja_code::Opcode;
use std::alloc::Global;

#[tactic(auto, unfolding(crate::specs::Item::class_line))]
fn class_line(alloc: Global, words: &[Word]) -> Result<Line, ItemFault>
    ensures { Gives result (class_line words.now) }
{
    if words.len() != 4 {
        return Err(ItemFault::Broken);
    }
    let name = name_at(alloc, words, 1)?;
    let superclass = name_at(alloc, words, 2)?;
    let flags = number_at(words, 3)?;
    Ok(Line::Class(Head {
        name,
        superclass,
        flags,
    }))
}

#[tactic(auto, unfolding(crate::specs::Item::field_item))]
fn field_item(alloc: Global, words: &[Word]) -> Result<Item, ItemFault>
    ensures { Gives result (field_item words.now) }
{
    if words.len() != 4 {
        return Err(ItemFault::Broken);
    }
    let flags = number_at(words, 1)?;
    let name = name_at(alloc, words, 2)?;
    let desc = name_at(alloc, words, 3)?;
    Ok(Item::Field { flags, name, desc })
}

/// The frame of a method, where it has code.
#[tactic(auto, unfolding(crate::specs::Item::frame_of))]
fn frame_of(code: bool, words: &[Word]) -> Result<Option<Frame>, ItemFault>
    ensures { Gives result (frame_of code words.now) }
{
    if code {
        if words.len() != 6 {
            return Err(ItemFault::Broken);
        }
        let stack = number_at(words, 4)?;
        let locals = number_at(words, 5)?;
        return Ok(Some(Frame { stack, locals }));
    }
    if words.len() != 4 {
        return Err(ItemFault::Broken);
    }
    Ok(None)
}

#[tactic(auto, unfolding(crate::specs::Item::method_item))]
fn method_item(alloc: Global, words: &[Word]) -> Result<Item, ItemFault>
    ensures { Gives result (method_item words.now) }
{
    let flags = number_at(words, 1)?;
    let name = name_at(alloc, words, 2)?;
    let desc = name_at(alloc, words, 3)?;
    let frame = frame_of(flags.has_code(), words)?;
    Ok(Item::Method {
        flags,
        name,
        desc,
        frame,
    })
}

/// What an entry of an exception table catches.
fn caught(word: Name) -> Option<Name>
    ensures { result ≡ caught word }
{
    if word.bytes() == b"any".as_slice() {
        return None;
    }
    Some(word)
}

#[tactic(auto, unfolding(crate::specs::Item::try_item))]
fn try_item(alloc: Global, words: &[Word]) -> Result<Item, ItemFault>
    ensures { Gives result (try_item words.now) }
{
    if words.len() != 5 {
        return Err(ItemFault::Broken);
    }
    let start = name_at(alloc, words, 1)?;
    let end = name_at(alloc, words, 2)?;
    let handler = name_at(alloc, words, 3)?;
    let catch = name_at(alloc, words, 4)?;
    Ok(Item::Try {
        start,
        end,
        handler,
        catch: caught(catch),
    })
}

/// An instruction whose mnemonic is the first of these words.
#[tactic(auto, unfolding(crate::specs::Item::instruction))]
fn instruction(alloc: Global, label: Option<Name>, words: &[Word]) -> Result<Item, ItemFault>
    ensures { Gives result (instruction label words.now) }
{
    let mnemonic = bare_at(words, 0)?;
    let Some(opcode) = Opcode::named(mnemonic.bytes()) else {
        return Err(ItemFault::Broken);
    };
    let operand = operand_of(alloc, opcode.form(), behind_first(words))?;
    Ok(Item::Instruction {
        label,
        opcode,
        operand,
    })
}

/// The words behind the first.
fn behind_first(words: &[Word]) -> &[Word]
    ensures { result.now ≡ drop 1 words.now }
{
    match words {
        [] => words,
        [_, others @ ..] => others,
    }
}

/// Whether a word is a label: it ends with a colon, and something stands before it.
fn is_label(word: &[u8]) -> bool
    ensures { result ≡ is_label word.now }
{
    1 < word.len() && word[word.len() - 1] == b':'
}

/// An instruction, with a label or without, of whose words this is the first.
#[tactic(auto, unfolding(crate::specs::Item::labelled))]
fn labelled(alloc: Global, first: &[u8], words: &[Word]) -> Result<Item, ItemFault>
    ensures { Gives result (labelled first.now words.now) }
{
    if is_label(first) {
        let label = Name::of(alloc, &first[..first.len() - 1])?;
        return instruction(alloc, Some(label), behind_first(words));
    }
    instruction(alloc, None, words)
}

/// What an item of a class with this first word is.
#[tactic(auto, unfolding(crate::specs::Item::item_by))]
fn item_by(alloc: Global, first: &[u8], words: &[Word]) -> Result<Item, ItemFault>
    ensures { Gives result (item_by first.now words.now) }
{
    if first == b"field".as_slice() {
        return field_item(alloc, words);
    }
    if first == b"method".as_slice() {
        return method_item(alloc, words);
    }
    if first == b"try".as_slice() {
        return try_item(alloc, words);
    }
    labelled(alloc, first, words)
}

/// What an item with this first word is.
#[tactic(auto, unfolding(crate::specs::Item::line_by))]
fn line_by(alloc: Global, first: &[u8], words: &[Word]) -> Result<Line, ItemFault>
    ensures { Gives result (line_by first.now words.now) }
{
    if first == b"class".as_slice() {
        return class_line(alloc, words);
    }
    let item = item_by(alloc, first, words)?;
    Ok(Line::Item(item))
}

/// What an item with these words is.
#[tactic(auto, unfolding(crate::specs::Item::line_of))]
pub(crate) fn line_of(alloc: Global, words: &[Word]) -> Result<Line, ItemFault>
    ensures { Gives result (line_of words.now) }
{
    match words {
        [Word::Bare(first), ..] => line_by(alloc, first.bytes(), words),
        [Word::Whole] => Ok(Line::Item(Item::Initializer)),
        _ => Err(ItemFault::Broken),
    }
}
