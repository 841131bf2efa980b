//! Questions and their answers.
ghost use Rattle.std.specs.Prelude.{◌<◌, length, IfOk, IfSome};

use crate::hierarchies::asked::{Asked, question_of};
use crate::hierarchies::range::add_range;
use crate::hierarchies::shown::{FieldText, MethodText};
use ja_base::{ClassId, Memory, Name};
use ja_hier::Hier;
use ja_ir::MethodAt;
use std::alloc::{AllocError, Global};

/// Adds the answer to a question.
pub fn add_answer(
    out: &mut String,
    alloc: Global,
    hier: &Hier,
    words: &[&str],
) -> Result<(), Memory> {
    match words {
        [question, class] => add_about_class(out, alloc, hier, question, class),
        [question, class, name] => add_about_name(out, alloc, hier, question, class, name),
        [_each, prefix, first, last, name] => add_range(
            out, alloc, hier, prefix, first, last, name,
        ),
        _ => add_text(out, " no question"),
    }
}

/// Adds a text.
fn add_text(out: &mut String, text: &str) -> Result<(), Memory> {
    out.push_str(text)?;
    Ok(())
}

/// The class of a name.
pub fn class_of(alloc: Global, hier: &Hier, name: &str) -> Result<Option<ClassId>, Memory>
    ensures { IfOk result (λ found. IfSome found (λ c. c.0 < length hier.now)) }
{
    let name = Name::of(alloc, name.as_bytes())?;
    Ok(hier.class_named(&name))
}

/// Adds what is asked of the class of a name alone.
fn add_about_class(
    out: &mut String,
    alloc: Global,
    hier: &Hier,
    question: &str,
    class: &str,
) -> Result<(), Memory> {
    match class_of(alloc, hier, class)? {
        Some(c) => Ok(add_of_class(out, hier, question, c)?),
        None => add_text(out, " no class"),
    }
}

/// Adds what is asked of a class alone.
fn add_of_class(out: &mut String, hier: &Hier, question: &str, c: ClassId) -> Result<(), AllocError>
    requires { c.0 < length hier.now }
{
    match question {
        "named" => write!(out, " {}", c.0),
        "superclass" => add_superclass(out, hier, c),
        "library" => add_name(out, hier.library_superclass(c)),
        _ => add_lists(out, hier, question, c),
    }
}

/// Adds what is asked of a class alone and has many answers.
fn add_lists(out: &mut String, hier: &Hier, question: &str, c: ClassId) -> Result<(), AllocError>
    requires { c.0 < length hier.now }
{
    match question {
        "types" => add_names(out, hier.library_types(c).as_slice()),
        "supertypes" => add_numbers(out, hier.supertypes(c).as_slice()),
        _ => out.push_str(" no question"),
    }
}

/// Adds the name of the direct superclass of a class.
fn add_superclass(out: &mut String, hier: &Hier, c: ClassId) -> Result<(), AllocError>
    requires { c.0 < length hier.now }
{
    match hier.superclass(c) {
        Some(d) => add_name(out, Some(&hier.heads().at(d.0 as u64).name)),
        None => add_name(out, None),
    }
}

/// Adds a name, or `none`.
fn add_name(out: &mut String, name: Option<&Name>) -> Result<(), AllocError> {
    match name {
        Some(name) => write!(out, " {}", text_of(name)),
        None => out.push_str(" none"),
    }
}

/// The text of a name.
fn text_of(name: &Name) -> &str {
    str::from_utf8(name.bytes()).unwrap_or("?")
}

/// Adds names.
fn add_names(out: &mut String, names: &[Name]) -> Result<(), AllocError> {
    for name in names {
        write!(out, " {}", text_of(name))?;
    }
    Ok(())
}

/// Adds numbers.
fn add_numbers(out: &mut String, numbers: &[u64]) -> Result<(), AllocError> {
    for number in numbers {
        write!(out, " {number}")?;
    }
    Ok(())
}

/// Adds what is asked of the class of a name, and of another name.
fn add_about_name(
    out: &mut String,
    alloc: Global,
    hier: &Hier,
    question: &str,
    class: &str,
    name: &str,
) -> Result<(), Memory> {
    match class_of(alloc, hier, class)? {
        Some(c) => add_of_name(out, alloc, hier, question, c, name),
        None => add_text(out, " no class"),
    }
}

/// Adds what is asked of a class and a name.
fn add_of_name(
    out: &mut String,
    alloc: Global,
    hier: &Hier,
    question: &str,
    c: ClassId,
    word: &str,
) -> Result<(), Memory>
    requires { c.0 < length hier.now }
{
    let asked = question_of(alloc, word)?;
    add_member(out, hier, question, c, &asked)?;
    Ok(())
}

/// Adds where the look-up of a member ends, or what is asked of two classes.
fn add_member(
    out: &mut String,
    hier: &Hier,
    question: &str,
    c: ClassId,
    asked: &Asked,
) -> Result<(), AllocError>
    requires { c.0 < length hier.now }
{
    match question {
        "field" => write!(
            out,
            " {}",
            FieldText(hier.find_field(c, &asked.name, &asked.field))
        ),
        "method" => add_method(out, hier.find_method(c, &asked.name, &asked.method)),
        "select" => add_method(out, hier.select(c, &asked.name, &asked.method)),
        _ => add_of_classes(out, hier, question, c, &asked.name),
    }
}

/// Adds where the look-up of a method ends.
fn add_method(out: &mut String, method: MethodAt) -> Result<(), AllocError> {
    write!(out, " {}", MethodText(method))
}

/// Adds what is asked of a class and the class of a name.
fn add_of_classes(
    out: &mut String,
    hier: &Hier,
    question: &str,
    c: ClassId,
    name: &Name,
) -> Result<(), AllocError>
    requires { c.0 < length hier.now }
{
    match hier.class_named(name) {
        Some(d) => add_relation(out, hier, question, c, d),
        None => out.push_str(" no class"),
    }
}

/// Adds whether a class is below another one, or extends it.
fn add_relation(
    out: &mut String,
    hier: &Hier,
    question: &str,
    c: ClassId,
    d: ClassId,
) -> Result<(), AllocError>
    requires c { c.0 < length hier.now }
    requires d { d.0 < length hier.now }
{
    match question {
        "below" => add_truth(out, hier.below(c, d)),
        "extends" => add_truth(out, hier.is_superclass(c, d)),
        _ => out.push_str(" no question"),
    }
}

/// Adds whether something holds.
fn add_truth(out: &mut String, holds: bool) -> Result<(), AllocError> {
    out.push_str(if holds { " yes" } else { " no" })
}
