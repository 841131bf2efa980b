ghost use Rattle.std.specs.Prelude.{◌≡◌, ◌<◌, length, IfSome, IfOk};
ghost use Rattle.ja_listing.specs.Operand.{bare_at, quoted_at, number_at, first_place, field_name, method_name, constant_operand, increment_operand, label_operand, text_operand, class_operand, array_operand, field_operand, method_operand, operand_of};
ghost use Rattle.ja_listing.specs.InnerReading.{Gives, Lends};

use crate::fault::ItemFault;
use crate::number::number_of;
use crate::word::Word;
use crate::{MemberName, Number, Operand};
use ja_base::Name;
use ja_code::{Entry, Form};
use std::alloc::Global;

/// The word at a place, which is no quoted text.
#[tactic(auto, unfolding(crate::specs::Operand::bare_at))]
pub(crate) fn bare_at(words: &[Word], i: usize) -> Result<&Name, ItemFault>
    ensures { Lends result (bare_at words.now i) }
{
    match words.get(i) {
        Some(Word::Bare(name)) => Ok(name),
        _ => Err(ItemFault::Broken),
    }
}

/// A copy of the word at a place, which is no quoted text.
pub(crate) fn name_at(alloc: Global, words: &[Word], i: usize) -> Result<Name, ItemFault>
    ensures { Gives result (bare_at words.now i) }
{
    let name = bare_at(words, i)?;
    Ok(name.copy(alloc)?)
}

/// The number at a place.
#[tactic(auto, unfolding(crate::specs::Operand::number_at))]
pub(crate) fn number_at(words: &[Word], i: usize) -> Result<Number, ItemFault>
    ensures { Gives result (number_at words.now i) }
{
    let word = bare_at(words, i)?;
    match number_of(word.bytes()) {
        Some(number) => Ok(number),
        None => Err(ItemFault::Broken),
    }
}

/// The quoted text at a place.
#[tactic(auto, unfolding(crate::specs::Operand::quoted_at))]
fn quoted_at(alloc: Global, words: &[Word], i: usize) -> Result<Name, ItemFault>
    ensures { Gives result (quoted_at words.now i) }
{
    match words.get(i) {
        Some(Word::Text(text)) => Ok(text.copy(alloc)?),
        _ => Err(ItemFault::Broken),
    }
}

/// The place of the first such byte.
fn first_place(byte: u8, word: &[u8]) -> Option<usize>
    ensures place { result ≡ first_place byte word.now }
    ensures inside { IfSome result (λ place. place < length word.now) }
{
    word.iter().position(|b| *b == byte)
}

/// The place of the first such byte, which is to be there.
fn place_of(byte: u8, word: &[u8]) -> Result<usize, ItemFault>
    ensures place { Gives result (first_place byte word.now) }
    ensures inside { IfOk result (λ place. place < length word.now) }
{
    match first_place(byte, word) {
        Some(place) => Ok(place),
        None => Err(ItemFault::Broken),
    }
}

/// A class and one of its fields.
#[tactic(auto, unfolding(crate::specs::Operand::field_name))]
fn field_name(alloc: Global, word: &[u8], desc: &Name) -> Result<MemberName, ItemFault>
    ensures { Gives result (field_name word.now desc.now) }
{
    let point = place_of(b'.', word)?;
    let class = Name::of(alloc, &word[..point])?;
    let name = Name::of(alloc, &word[point + 1..])?;
    let desc = desc.copy(alloc)?;
    Ok(MemberName { class, name, desc })
}

/// A class and one of its methods.
#[tactic(auto, unfolding(crate::specs::Operand::method_name))]
fn method_name(alloc: Global, word: &[u8]) -> Result<MemberName, ItemFault>
    ensures { Gives result (method_name word.now) }
{
    let point = place_of(b'.', word)?;
    let member = &word[point + 1..];
    let bracket = place_of(b'(', member)?;
    let class = Name::of(alloc, &word[..point])?;
    let name = Name::of(alloc, &member[..bracket])?;
    let desc = Name::of(alloc, &member[bracket..])?;
    Ok(MemberName { class, name, desc })
}

#[tactic(auto, unfolding(crate::specs::Operand::constant_operand))]
fn constant_operand(words: &[Word]) -> Result<Operand, ItemFault>
    ensures { Gives result (constant_operand words.now) }
{
    if words.len() != 1 {
        return Err(ItemFault::Broken);
    }
    let number = number_at(words, 0)?;
    Ok(Operand::Constant(number))
}

#[tactic(auto, unfolding(crate::specs::Operand::increment_operand))]
fn increment_operand(words: &[Word]) -> Result<Operand, ItemFault>
    ensures { Gives result (increment_operand words.now) }
{
    if words.len() != 2 {
        return Err(ItemFault::Broken);
    }
    let local = number_at(words, 0)?;
    let change = number_at(words, 1)?;
    Ok(Operand::LocalAndConstant(local, change))
}

#[tactic(auto, unfolding(crate::specs::Operand::label_operand))]
fn label_operand(alloc: Global, words: &[Word]) -> Result<Operand, ItemFault>
    ensures { Gives result (label_operand words.now) }
{
    if words.len() != 1 {
        return Err(ItemFault::Broken);
    }
    let name = name_at(alloc, words, 0)?;
    Ok(Operand::Label(name))
}

#[tactic(auto, unfolding(crate::specs::Operand::text_operand))]
fn text_operand(alloc: Global, words: &[Word]) -> Result<Operand, ItemFault>
    ensures { Gives result (text_operand words.now) }
{
    if words.len() != 1 {
        return Err(ItemFault::Broken);
    }
    let text = quoted_at(alloc, words, 0)?;
    Ok(Operand::Quotation(text))
}

#[tactic(auto, unfolding(crate::specs::Operand::class_operand))]
fn class_operand(alloc: Global, words: &[Word]) -> Result<Operand, ItemFault>
    ensures { Gives result (class_operand words.now) }
{
    if words.len() != 1 {
        return Err(ItemFault::Broken);
    }
    let name = name_at(alloc, words, 0)?;
    Ok(Operand::ClassName(name))
}

#[tactic(auto, unfolding(crate::specs::Operand::array_operand))]
fn array_operand(alloc: Global, words: &[Word]) -> Result<Operand, ItemFault>
    ensures { Gives result (array_operand words.now) }
{
    if words.len() != 2 {
        return Err(ItemFault::Broken);
    }
    let name = name_at(alloc, words, 0)?;
    let dimensions = number_at(words, 1)?;
    Ok(Operand::ArrayName(name, dimensions))
}

#[tactic(auto, unfolding(crate::specs::Operand::field_operand))]
fn field_operand(alloc: Global, words: &[Word]) -> Result<Operand, ItemFault>
    ensures { Gives result (field_operand words.now) }
{
    if words.len() != 2 {
        return Err(ItemFault::Broken);
    }
    let word = bare_at(words, 0)?;
    let desc = bare_at(words, 1)?;
    let name = field_name(alloc, word.bytes(), desc)?;
    Ok(Operand::FieldName(name))
}

#[tactic(auto, unfolding(crate::specs::Operand::method_operand))]
fn method_operand(alloc: Global, words: &[Word]) -> Result<Operand, ItemFault>
    ensures { Gives result (method_operand words.now) }
{
    if words.len() != 1 {
        return Err(ItemFault::Broken);
    }
    let word = bare_at(words, 0)?;
    let name = method_name(alloc, word.bytes())?;
    Ok(Operand::MethodName(name))
}

/// The operands of an opcode of this form.
#[tactic(auto, unfolding(crate::specs::Operand::operand_of))]
pub(crate) fn operand_of(alloc: Global, form: Form, words: &[Word]) -> Result<Operand, ItemFault>
    ensures { Gives result (operand_of form words.now) }
{
    match form {
        Form::Plain => {
            if !words.is_empty() {
                return Err(ItemFault::Broken);
            }
            Ok(Operand::Nothing)
        }
        Form::Byte | Form::Short | Form::Local | Form::ArrayType => constant_operand(words),
        Form::Increment => increment_operand(words),
        Form::ByteIndex => text_operand(alloc, words),
        Form::Index(Entry::Loadable) | Form::Index(Entry::TwoWord) => Err(ItemFault::Broken),
        Form::Index(Entry::Field) => field_operand(alloc, words),
        Form::Index(Entry::Class) => class_operand(alloc, words),
        Form::Index(Entry::Method)
        | Form::Index(Entry::InterfaceMethod)
        | Form::Index(Entry::AnyMethod)
        | Form::Interface
        | Form::Dynamic => method_operand(alloc, words),
        Form::Dimensions => array_operand(alloc, words),
        Form::Branch | Form::FarBranch => label_operand(alloc, words),
        Form::TableSwitch | Form::LookupSwitch | Form::Wide => Err(ItemFault::Broken),
    }
}
