//! The values at the keys of rows and entries.
ghost use Rattle.std.specs.Prelude.{◌≡◌, ◌==◌, option_map, option_copied, option_and_then};
ghost use Rattle.std.specs.List.{list_any};
ghost use Rattle.toml.specs.Data.{as_array};
ghost use Rattle.toml.specs.View.{view, items_view, array_view};
ghost use Rattle.ja_lib.specs.File.{any_text, filled_text, texts_in, filled_texts, truth_at, position, unseen, new_position, positions_in, positions_at, flow_word, flow_at, effect_word, effect_at, result_word, result_at, IsDesc, MayBeDesc};
ghost use Rattle.ja_lib.specs.InnerReading.{Finds, Gives, seen_of};

use crate::part::PartFault;
use ja_base::{Name, Names, Numbers, Seq};
use ja_bytes::{DescFault, method_desc};
use ja_ir::{RowEffect, RowFlow, RowResult};
use std::alloc::Global;
use toml::Value;

fn text_at<'a>(value: Option<&'a Value>) -> Option<&'a str>
    ensures { option_copied result ≡ any_text (seen_of value.entry) }
{
    match value {
        Some(value) => value.as_str(),
        None => None,
    }
}

/// A text.
pub(crate) fn any_text(alloc: Global, value: Option<&Value>) -> Result<Name, PartFault>
    ensures { Gives (any_text (seen_of value.entry)) result }
{
    match text_at(value) {
        Some(text) => Ok(Name::of(alloc, text.as_bytes())?),
        None => Err(PartFault::Wrong),
    }
}

/// A text that is not empty.
pub(crate) fn filled_text(alloc: Global, value: Option<&Value>) -> Result<Name, PartFault>
    ensures { Gives (filled_text (seen_of value.entry)) result }
{
    let text = any_text(alloc, value)?;
    if text.bytes().is_empty() {
        return Err(PartFault::Wrong);
    }
    Ok(text)
}

fn texts_in(alloc: Global, items: &[Value]) -> Result<Names, PartFault>
    ensures { Gives (texts_in (items_view items.now)) result }
{
    let mut texts = Seq::new(alloc);
    for item in items {
        match item.as_str() {
            Some(text) => texts.push(Name::of(alloc, text.as_bytes())?)?,
            None => return Err(PartFault::Wrong),
        }
    }
    Ok(texts)
}

fn items_at<'a>(value: Option<&'a Value>) -> Option<&'a toml::value::Array>
    ensures { option_map (λ array. array_view array.now) result ≡ option_and_then as_array (seen_of value.entry) }
{
    match value {
        Some(value) => value.as_array(),
        None => None,
    }
}

/// The texts of an array of texts that is not empty.
pub(crate) fn filled_texts(alloc: Global, value: Option<&Value>) -> Result<Names, PartFault>
    ensures { Gives (filled_texts (seen_of value.entry)) result }
{
    let Some(items) = items_at(value) else {
        return Err(PartFault::Wrong);
    };
    let texts = texts_in(alloc, items)?;
    if texts.is_empty() {
        return Err(PartFault::Wrong);
    }
    Ok(texts)
}

/// A truth value, false where it is missing.
pub(crate) fn truth_at(value: Option<&Value>) -> Option<bool>
    ensures { result ≡ truth_at (seen_of value.entry) }
{
    match value {
        None => Some(false),
        Some(value) => value.as_bool(),
    }
}

fn position(number: i64) -> Option<u64>
    ensures { result ≡ position number }
{
    match u64::try_from(number) {
        Ok(position) if position < 255 => Some(position),
        _ => None,
    }
}

fn is_seen(seen: &[u64], position: u64) -> bool
    ensures { result ≡ list_any (λ other. other == position) seen.now }
{
    seen.iter().any(|other| *other == position)
}

fn new_position(seen: &[u64], value: &Value) -> Option<u64>
    ensures { result ≡ new_position seen.now (view value.now) }
{
    let position = position(value.as_integer()?)?;
    if is_seen(seen, position) {
        return None;
    }
    Some(position)
}

fn positions_in(alloc: Global, items: &[Value]) -> Result<Numbers, PartFault>
    ensures { Gives (positions_in (items_view items.now)) result }
{
    let mut positions = Seq::new(alloc);
    for item in items {
        match new_position(positions.as_slice(), item) {
            Some(position) => positions.push(position)?,
            None => return Err(PartFault::Wrong),
        }
    }
    Ok(positions)
}

/// Distinct numbers from 0 to 254, none where the value is missing.
pub(crate) fn positions_at(alloc: Global, value: Option<&Value>) -> Result<Numbers, PartFault>
    ensures { Gives (positions_at (seen_of value.entry)) result }
{
    match value {
        None => Ok(Seq::new(alloc)),
        Some(value) => match value.as_array() {
            Some(items) => positions_in(alloc, items),
            None => Err(PartFault::Wrong),
        },
    }
}

fn flow_word(word: &str) -> Option<RowFlow>
    ensures { result ≡ flow_word word.now }
{
    match word {
        "always" => Some(RowFlow::Always),
        "none" => Some(RowFlow::Never),
        "args" => Some(RowFlow::Args),
        _ => None,
    }
}

/// When a call makes tainted things. Where it is missing, tainted arguments make them.
pub(crate) fn flow_at(value: Option<&Value>) -> Option<RowFlow>
    ensures { result ≡ flow_at (seen_of value.entry) }
{
    match value {
        None => Some(RowFlow::Args),
        Some(value) => flow_word(value.as_str()?),
    }
}

fn effect_word(word: &str) -> Option<RowEffect>
    ensures { result ≡ effect_word word.now }
{
    match word {
        "none" => Some(RowEffect::Quiet),
        "absorb" => Some(RowEffect::Absorb),
        "blend" => Some(RowEffect::Blend),
        _ => None,
    }
}

/// Which objects a call may change. Where it is missing, all that its arguments reach.
pub(crate) fn effect_at(value: Option<&Value>) -> Option<RowEffect>
    ensures { result ≡ effect_at (seen_of value.entry) }
{
    match value {
        None => Some(RowEffect::Blend),
        Some(value) => effect_word(value.as_str()?),
    }
}

fn result_word(word: &str) -> Option<RowResult>
    ensures { result ≡ result_word word.now }
{
    match word {
        "fresh" => Some(RowResult::Fresh),
        "self" => Some(RowResult::Argument),
        "member" => Some(RowResult::Member),
        "any" => Some(RowResult::Any),
        _ => None,
    }
}

/// What a call answers. Where it is missing, anything.
pub(crate) fn result_at(value: Option<&Value>) -> Option<RowResult>
    ensures { result ≡ result_at (seen_of value.entry) }
{
    match value {
        None => Some(RowResult::Any),
        Some(value) => result_word(value.as_str()?),
    }
}

/// A method descriptor (JVM specification 4.3.3).
pub(crate) fn desc(alloc: Global, value: Option<&Value>) -> Result<Name, PartFault>
    ensures { Finds (IsDesc (seen_of value.entry)) result }
{
    let Some(text) = text_at(value) else {
        return Err(PartFault::Wrong);
    };
    match method_desc(alloc, text.as_bytes()) {
        Ok(_) => Ok(Name::of(alloc, text.as_bytes())?),
        Err(DescFault::Bad { at: _ }) => Err(PartFault::Wrong),
        Err(DescFault::Memory) => Err(PartFault::Memory),
    }
}

/// A method descriptor, or none where the value is missing.
pub(crate) fn may_be_desc(alloc: Global, value: Option<&Value>) -> Result<Option<Name>, PartFault>
    ensures { Finds (MayBeDesc (seen_of value.entry)) result }
{
    match value {
        None => Ok(None),
        Some(value) => Ok(Some(desc(alloc, Some(value))?)),
    }
}
