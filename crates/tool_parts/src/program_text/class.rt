//! The lines of classes and fields.
use crate::program_text::shown::{Shown, TargetText, separator};
use ja_ir::{ClassIds, ClassInfo, Field, MethodIds, Selection};
use std::alloc::AllocError;
use std::fmt;

/// Classes by their numbers, parted by blanks.
#[derive(Clone, Copy)]
struct ClassIdsText<'a>(&'a ClassIds);

impl fmt::Display for ClassIdsText<'_> {
    fn fmt<W: fmt::Write>(&self, f: &mut fmt::Formatter<W>) -> fmt::Result {
        for (at, id) in self.0.as_slice().iter().enumerate() {
            write!(f, "{}{}", separator(at), id.0)?;
        }
        Ok(())
    }
}

/// Methods by their numbers, parted by blanks.
#[derive(Clone, Copy)]
struct MethodIdsText<'a>(&'a MethodIds);

impl fmt::Display for MethodIdsText<'_> {
    fn fmt<W: fmt::Write>(&self, f: &mut fmt::Formatter<W>) -> fmt::Result {
        for (at, id) in self.0.as_slice().iter().enumerate() {
            write!(f, "{}{}", separator(at), id.0)?;
        }
        Ok(())
    }
}

/// Whether library calls may put things into objects of a class.
fn absorbing_word(absorbing: bool) -> &'static str {
    if absorbing { "absorbing" } else { "plain" }
}

/// Adds the line of a class, that of its class initialisers, where it has some, and those of its selections.
pub fn add_class(out: &mut String, number: usize, class: &ClassInfo) -> Result<(), AllocError> {
    writeln!(
        out,
        "class {number} {} file {} flags {} {} supers [{}]",
        Shown(&class.name),
        Shown(&class.file),
        class.flags,
        absorbing_word(class.absorbing),
        ClassIdsText(&class.supers)
    )?;
    if !class.inits.is_empty() {
        writeln!(out, "  inits [{}]", MethodIdsText(&class.inits))?;
    }
    for selection in class.selections.as_slice() {
        add_selection(out, selection)?;
    }
    Ok(())
}

/// Adds the line of a selection.
fn add_selection(out: &mut String, selection: &Selection) -> Result<(), AllocError> {
    writeln!(
        out,
        "  select {} {} {}",
        Shown(&selection.name),
        Shown(&selection.desc),
        TargetText(selection.target)
    )
}

/// Adds the line of a field.
pub fn add_field(out: &mut String, field: &Field) -> Result<(), AllocError> {
    writeln!(
        out,
        "field {} {} {} flags {} {}",
        field.class.0,
        Shown(&field.name),
        Shown(&field.desc),
        field.flags,
        text_word(field.text)
    )
}

/// Whether a field begins as a constant text.
fn text_word(text: bool) -> &'static str {
    if text { "text" } else { "plain" }
}
