//! A program as text.
use crate::program_text::class::{add_class, add_field};
use crate::program_text::method::add_method;
use crate::program_text::shown::{MarksText, Shown, Spaced};
use ja_base::Memory;
use ja_ir::{Entry, Parts, Program, Site};
use std::alloc::{AllocError, Global};

/// The text of a program: the names of its categories of marks, where it has some, its classes with their
/// class initialisers and what they select, its methods with their instructions and handlers, its fields, its
/// entries and its sink calls, in order, each in a line that ends with a line feed. Marks are shown where
/// categories are named.
pub fn text_of(alloc: Global, program: &Program) -> Result<String, Memory> {
    let parts = program.parts();
    let mut out = String::new(alloc);
    add_categories(&mut out, parts)?;
    add_classes(&mut out, parts)?;
    add_methods(&mut out, parts)?;
    add_fields(&mut out, parts)?;
    add_entries(&mut out, parts)?;
    add_sites(&mut out, parts)?;
    Ok(out)
}

/// Whether a program names categories of marks.
fn names_categories(parts: &Parts) -> bool {
    !parts.categories.is_empty()
}

/// Adds the lines of the categories of marks.
fn add_categories(out: &mut String, parts: &Parts) -> Result<(), AllocError> {
    for (number, name) in parts.categories.as_slice().iter().enumerate() {
        writeln!(out, "category {number} {}", Shown(name))?;
    }
    Ok(())
}

/// Adds the lines of the classes.
fn add_classes(out: &mut String, parts: &Parts) -> Result<(), AllocError> {
    for (number, class) in parts.classes.as_slice().iter().enumerate() {
        add_class(out, number, class)?;
    }
    Ok(())
}

/// Adds the lines of the methods.
fn add_methods(out: &mut String, parts: &Parts) -> Result<(), AllocError> {
    let classes = parts.classes.as_slice();
    for (number, method) in parts.methods.as_slice().iter().enumerate() {
        if let Some(class) = classes.get(method.class.0 as usize) {
            add_method(out, number, &class.name, method, names_categories(parts))?;
        }
    }
    Ok(())
}

/// Adds the lines of the fields.
fn add_fields(out: &mut String, parts: &Parts) -> Result<(), AllocError> {
    for field in parts.fields.as_slice() {
        add_field(out, field)?;
    }
    Ok(())
}

/// Adds the lines of the entries.
fn add_entries(out: &mut String, parts: &Parts) -> Result<(), AllocError> {
    for entry in parts.entries.as_slice() {
        add_entry(out, entry, names_categories(parts))?;
    }
    Ok(())
}

/// Adds the line of an entry.
fn add_entry(out: &mut String, entry: &Entry, named: bool) -> Result<(), AllocError> {
    write!(
        out,
        "entry {} {} [{}]",
        entry.class.0,
        entry.method.0,
        Spaced(entry.marked.as_slice())
    )?;
    if named {
        write!(out, " {}", MarksText(entry.marks.as_slice()))?;
    }
    writeln!(out)
}

/// Adds the lines of the sink calls.
fn add_sites(out: &mut String, parts: &Parts) -> Result<(), AllocError> {
    for site in parts.sites.as_slice() {
        add_site(out, site, names_categories(parts))?;
    }
    Ok(())
}

/// Adds the line of a sink call.
fn add_site(out: &mut String, site: &Site, named: bool) -> Result<(), AllocError> {
    write!(
        out,
        "site {} {} [{}] {}",
        site.method.0,
        site.index,
        Spaced(site.positions.as_slice()),
        Shown(&site.target)
    )?;
    if named {
        write!(out, " category {}", site.category)?;
    }
    writeln!(out)
}
