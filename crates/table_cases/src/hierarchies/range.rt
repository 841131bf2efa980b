//! Questions of many classes at once.
ghost use Rattle.std.specs.Prelude.{◌<◌, length};

use crate::hierarchies::answer::class_of;
use crate::hierarchies::asked::{Asked, question_of};
use crate::hierarchies::shown::{FieldText, MethodText};
use crate::hierarchies::words::{number, numbered};
use ja_base::{ClassId, Memory};
use ja_hier::{FieldAt, Hier};
use ja_ir::MethodAt;
use std::alloc::{AllocError, Global};

/// What a class answers of its superclass, and of a member by its name.
#[derive(Clone, Copy, PartialEq, Eq)]
struct Answers {
    /// Whether the superclass is the class with the number before.
    follows: bool,
    field: FieldAt,
    method: MethodAt,
    selected: MethodAt,
}

/// What the classes of a range answer.
#[derive(Clone, Copy)]
enum Found {
    /// There are no classes in the range.
    Nothing,
    /// All answer the same.
    Same(Answers),
    /// The name with this number is of no class.
    NoClass(u32),
    /// The class with this number is the first that answers otherwise.
    Differs(u32),
}

/// Adds what all classes from the first to the last number answer, or the first one that answers otherwise.
pub fn add_range(
    out: &mut String,
    alloc: Global,
    hier: &Hier,
    prefix: &str,
    first: &str,
    last: &str,
    member: &str,
) -> Result<(), Memory> {
    let asked = question_of(alloc, member)?;
    let found = found_in(alloc, hier, prefix, number(first), number(last), &asked)?;
    add_found(out, prefix, found)?;
    Ok(())
}

/// What the classes from the first to the last number answer.
fn found_in(
    alloc: Global,
    hier: &Hier,
    prefix: &str,
    first: u32,
    last: u32,
    asked: &Asked,
) -> Result<Found, Memory> {
    let mut all = Found::Nothing;
    for class in first..=last {
        all = joined(all, class, answers_at(alloc, hier, prefix, class, asked)?);
        if is_end(all) {
            return Ok(all);
        }
    }
    Ok(all)
}

/// What classes answer, with what the one of a further number does.
fn joined(all: Found, class: u32, answers: Option<Answers>) -> Found {
    match (all, answers) {
        (Found::Nothing, Some(answers)) => Found::Same(answers),
        (Found::Same(same), Some(answers)) if same != answers => Found::Differs(class),
        (_, None) => Found::NoClass(class),
        (all, Some(_answers)) => all,
    }
}

/// Whether no further class matters.
fn is_end(all: Found) -> bool {
    matches!(all, Found::NoClass(_) | Found::Differs(_))
}

/// What the class of a number answers, if there is one.
fn answers_at(
    alloc: Global,
    hier: &Hier,
    prefix: &str,
    class: u32,
    asked: &Asked,
) -> Result<Option<Answers>, Memory> {
    let name = numbered(alloc, prefix, class)?;
    Ok(match class_of(alloc, hier, name.as_str())? {
        Some(c) => Some(answers_of(hier, c, asked)),
        None => None,
    })
}

/// What a class answers.
fn answers_of(hier: &Hier, c: ClassId, asked: &Asked) -> Answers
    requires { c.0 < length hier.now }
{
    Answers {
        follows: follows(hier, c),
        field: hier.find_field(c, &asked.name, &asked.field),
        method: hier.find_method(c, &asked.name, &asked.method),
        selected: hier.select(c, &asked.name, &asked.method),
    }
}

/// Whether the superclass of a class is the class with the number before; both may be missing.
fn follows(hier: &Hier, c: ClassId) -> bool
    requires { c.0 < length hier.now }
{
    match hier.superclass(c) {
        Some(d) => c.0 > 0 && d.0 == c.0 - 1,
        None => c.0 == 0,
    }
}

/// Adds what the classes of a range answer.
fn add_found(out: &mut String, prefix: &str, found: Found) -> Result<(), AllocError> {
    match found {
        Found::Nothing => out.push_str(" no classes"),
        Found::Same(answers) => add_answers(out, answers),
        Found::NoClass(class) => write!(out, " {prefix}{class} is no class"),
        Found::Differs(class) => write!(out, " {prefix}{class} differs"),
    }
}

/// Adds what a class answers.
fn add_answers(out: &mut String, answers: Answers) -> Result<(), AllocError> {
    write!(
        out,
        " follows {} field {} method {} select {}",
        answers.follows,
        FieldText(answers.field),
        MethodText(answers.method),
        MethodText(answers.selected)
    )
}
