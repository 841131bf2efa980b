//! The categories of marks that a table file names, and marks of some of them.
ghost use Rattle.std.specs.Prelude.{◌≡◌, ◌<◌, ◌≤◌, [], IfOk, IfErr, IfSome, bytes_eq, length, option_map, MatchOption, Some, None};
ghost use Rattle.std.specs.List.{list_all, list_any};
ghost use Rattle.toml.specs.Data.{as_array};
ghost use Rattle.toml.specs.View.{view, items_view};
ghost use Rattle.ja_ir.specs.Categories.{count_of_names};
ghost use Rattle.ja_lib.specs.Content.{all_marks};
ghost use Rattle.ja_lib.specs.File.{categories_at, categories_in, category_at, chosen_in, is_category, is_category_byte, is_name_length, marks_at, marks_of, new_category, new_mark, place_among};
ghost use Rattle.ja_lib.specs.InnerReading.{Gives, IsCategoryFault, seen_of};
ghost use Rattle.ja_base.specs.Limit.{max_categories};

use crate::TableFault;
use crate::part::PartFault;
use ja_base::{Flags, MAX_CATEGORIES, Memory, Name, Names, Seq};
use std::alloc::Global;
use toml::Value;

/// How many bytes the name of a category has at most.
const MAX_NAME: usize = 32;

/// The number of categories where these are their names: one where there are none.
fn count_of_names(categories: &[Name]) -> usize
    ensures { result ≡ count_of_names categories.now }
{
    if categories.is_empty() {
        1
    } else {
        categories.len()
    }
}

/// Marks of every category.
pub(crate) fn all_marks(alloc: Global, categories: &[Name]) -> Result<Flags, Memory>
    ensures { IfOk result (λ marks. marks ≡ all_marks categories.now) }
{
    let marks = Vec::from_elem(alloc, true, count_of_names(categories))?;
    Ok(Seq::from_vec(marks))
}

/// Whether a byte may stand in the name of a category.
fn is_category_byte(byte: u8) -> bool
    ensures { result ≡ is_category_byte byte }
{
    (b'a' <= byte && byte <= b'z') || ((b'0' <= byte && byte <= b'9') || byte == b'_')
}

/// Whether the name of a category may have so many bytes.
fn is_name_length(length: usize) -> bool
    ensures { result ≡ is_name_length length }
{
    1 <= length && length <= MAX_NAME
}

/// Whether each byte may stand in the name of a category.
fn are_category_bytes(bytes: &[u8]) -> bool
    ensures { result ≡ list_all is_category_byte bytes.now }
{
    bytes.iter().all(|byte| is_category_byte(*byte))
}

/// Whether a text may be the name of a category.
fn is_category(text: &str) -> bool
    ensures { result ≡ is_category text.now }
{
    is_name_length(text.len()) && are_category_bytes(text.as_bytes())
}

/// Whether a text is one of the names.
fn is_among(names: &[Name], text: &[u8]) -> bool
    ensures { result ≡ list_any (bytes_eq text.now) names.now }
{
    names.iter().any(|name| text == name.bytes())
}

/// A name of a category that is not among those seen.
fn new_category<'a>(seen: &[Name], value: &'a Value) -> Option<&'a str>
    ensures { MatchOption result (new_category seen.now (view value.now) ≡ None) (λ text. new_category seen.now (view value.now) ≡ Some text.now) }
{
    let text = value.as_str()?;
    if !is_category(text) || is_among(seen, text.as_bytes()) {
        return None;
    }
    Some(text)
}

fn categories_in(alloc: Global, items: &[Value]) -> Result<Names, PartFault>
    ensures { Gives (categories_in (items_view items.now)) result }
{
    let mut names = Seq::new(alloc);
    for item in items {
        match new_category(names.as_slice(), item) {
            Some(text) => names.push(Name::of(alloc, text.as_bytes())?)?,
            None => return Err(PartFault::Wrong),
        }
    }
    Ok(names)
}

fn items_of<'a>(value: &'a Value) -> Option<&'a [Value]>
    ensures { option_map (λ items. items_view items.now) result ≡ as_array (view value.now) }
{
    match value.as_array() {
        Some(array) => Some(array.as_slice()),
        None => None,
    }
}

/// The names of the categories at a key: 1 to 8 distinct ones, and none where it is missing.
fn categories_at(alloc: Global, value: Option<&Value>) -> Result<Names, PartFault>
    ensures names { Gives (categories_at (seen_of value.entry)) result }
    ensures few { IfOk result (λ names. length names ≤ max_categories) }
{
    let Some(value) = value else {
        return Ok(Seq::new(alloc));
    };
    let Some(items) = items_of(value) else {
        return Err(PartFault::Wrong);
    };
    let names = categories_in(alloc, items)?;
    if 1 <= names.len() && names.len() <= MAX_CATEGORIES {
        Ok(names)
    } else {
        Err(PartFault::Wrong)
    }
}

/// The categories of the document, by the value at their key.
pub(crate) fn categories_of(alloc: Global, value: Option<&Value>) -> Result<Names, TableFault>
    ensures names { IfOk result (λ names. categories_at (seen_of value.entry) ≡ Some names) }
    ensures few { IfOk result (λ names. length names ≤ max_categories) }
    ensures fault { IfErr result (IsCategoryFault (seen_of value.entry)) }
{
    match categories_at(alloc, value) {
        Ok(names) => Ok(names),
        Err(PartFault::Wrong) => Err(TableFault::BadCategory),
        Err(PartFault::Memory) => Err(TableFault::Memory),
    }
}

/// One of the categories that is not among those seen.
fn new_mark<'a>(categories: &[Name], seen: &[Name], value: &'a Value) -> Option<&'a str>
    ensures { MatchOption result (new_mark categories.now seen.now (view value.now) ≡ None) (λ text. new_mark categories.now seen.now (view value.now) ≡ Some text.now) }
{
    let text = value.as_str()?;
    if !is_among(categories, text.as_bytes()) || is_among(seen, text.as_bytes()) {
        return None;
    }
    Some(text)
}

fn chosen_in(alloc: Global, categories: &[Name], items: &[Value]) -> Result<Names, PartFault>
    ensures { Gives (chosen_in categories.now (items_view items.now)) result }
{
    let mut chosen = Seq::new(alloc);
    for item in items {
        match new_mark(categories, chosen.as_slice(), item) {
            Some(text) => chosen.push(Name::of(alloc, text.as_bytes())?)?,
            None => return Err(PartFault::Wrong),
        }
    }
    Ok(chosen)
}

/// Of each category, whether it is one of those chosen.
fn marks_of(alloc: Global, categories: &[Name], chosen: &[Name]) -> Result<Flags, Memory>
    ensures { IfOk result (λ marks. marks ≡ marks_of categories.now chosen.now) }
{
    let mut marks = Seq::new(alloc);
    for category in categories {
        marks.push(is_among(chosen, category.bytes()))?;
    }
    Ok(marks)
}

/// Of each category, whether it is among those at a key, distinct ones and at least one; all of them where
/// it is missing.
pub(crate) fn marks_at(
    alloc: Global,
    categories: &[Name],
    value: Option<&Value>,
) -> Result<Flags, PartFault>
    ensures { Gives (marks_at categories.now (seen_of value.entry)) result }
{
    let Some(value) = value else {
        return Ok(all_marks(alloc, categories)?);
    };
    let Some(items) = items_of(value) else {
        return Err(PartFault::Wrong);
    };
    let chosen = chosen_in(alloc, categories, items)?;
    if chosen.is_empty() {
        return Err(PartFault::Wrong);
    }
    Ok(marks_of(alloc, categories, chosen.as_slice())?)
}

/// The place of a name among the categories.
fn place_among(categories: &[Name], text: &[u8]) -> Option<usize>
    ensures value { result ≡ place_among categories.now text.now }
    ensures within { IfSome result (λ place. place < length categories.now) }
{
    categories
        .iter()
        .position(|category| text == category.bytes())
}

/// The category of a name.
fn category_of(categories: &[Name], text: &str) -> Option<u32>
    requires { length categories.now ≤ max_categories }
    ensures { result ≡ place_among categories.now text.now }
{
    match place_among(categories, text.as_bytes()) {
        Some(place) => Some(place as u32),
        None => None,
    }
}

/// The category at a key, the first where it is missing.
pub(crate) fn category_at(categories: &[Name], value: Option<&Value>) -> Option<u32>
    requires { length categories.now ≤ max_categories }
    ensures { result ≡ category_at categories.now (seen_of value.entry) }
{
    match value {
        None => Some(0),
        Some(value) => category_of(categories, value.as_str()?),
    }
}
