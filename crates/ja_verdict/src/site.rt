//! The line of a sink call.
ghost use Rattle.std.specs.Prelude.{◌≡◌, ◌<◌, ◌++◌, IfOk, OnOk, Option, Some, codes, length, option_copied, slice_get};
ghost use Rattle.ja_ir.specs.declared.entry.Site.{Site};
ghost use Rattle.ja_ir.specs.Lookup.{code_of, instr_at};
ghost use Rattle.ja_facts.specs.Verdict.{category_text, class_name, method_text, pc_text, printed, site_line, verdict_text};

use crate::print::{push_name, push_number, push_text};
use ja_base::{Bytes, Memory, MethodId, Name, SiteId};
use ja_ir::{ClassInfo, Instr, Method, Parts, Program, Site};
use std::alloc::Global;

/// The word of a verdict.
fn verdict_word(warned: bool) -> &'static [u8]
    ensures { result.now ≡ verdict_text warned }
{
    if warned {
        b"warned".as_slice()
    } else {
        b"clean".as_slice()
    }
}

/// Appends the name of a class, if there is one.
fn push_class(out: &mut Vec<u8>, class: Option<&ClassInfo>) -> Result<(), Memory>
    ensures { OnOk result (out.new.items ≡ out.old.items ++ printed (class_name (option_copied class.entry))) }
{
    match class {
        Some(class) => push_name(out, class.name.bytes()),
        None => Ok(()),
    }
}

/// Appends the class, the name and the descriptor of a method, if there is one.
fn push_method(out: &mut Vec<u8>, parts: &Parts, method: Option<&Method>) -> Result<(), Memory>
    ensures { OnOk result (out.new.items ≡ out.old.items ++ method_text parts.now (option_copied method.entry)) }
{
    let Some(method) = method else {
        return Ok(());
    };
    push_class(out, parts.classes.as_slice().get(method.class.0 as usize))?;
    push_text(out, b".")?;
    push_name(out, method.name.bytes())?;
    push_name(out, method.desc.bytes())
}

/// The instruction at an index of a method, if there is one.
fn instr_of(method: Option<&Method>, index: u32) -> Option<&Instr>
    ensures { option_copied result ≡ slice_get (code_of (option_copied method.entry)) index }
{
    match method {
        Some(method) => method.code.as_slice().get(index as usize),
        None => None,
    }
}

/// Appends the place of an instruction in the code, if there is one.
fn push_pc(alloc: Global, out: &mut Vec<u8>, instr: Option<&Instr>) -> Result<(), Memory>
    ensures { OnOk result (out.new.items ≡ out.old.items ++ pc_text (option_copied instr.entry)) }
{
    match instr {
        Some(instr) => push_number(alloc, out, u64::from(instr.pc)),
        None => Ok(()),
    }
}

/// Appends what a line says of a category: nothing where categories have no names.
fn push_category(out: &mut Vec<u8>, names: &[Name], category: u32) -> Result<(), Memory>
    ensures { OnOk result (out.new.items ≡ out.old.items ++ category_text names.now category) }
{
    if names.is_empty() {
        return Ok(());
    }
    push_text(out, b" in ")?;
    match names.get(category as usize) {
        Some(name) => push_name(out, name.bytes()),
        None => Ok(()),
    }
}

/// The method with this number, if there is one.
fn method_of(parts: &Parts, method: MethodId) -> Option<&Method>
    ensures { option_copied result ≡ slice_get parts.now.methods method.0 }
{
    parts.methods.as_slice().get(method.0 as usize)
}

/// Appends the method and the place of a sink call.
fn push_place(alloc: Global, out: &mut Vec<u8>, parts: &Parts, site: &Site) -> Result<(), Memory>
    ensures { OnOk result (out.new.items ≡ out.old.items ++ (method_text parts.now (slice_get parts.now.methods site.now.method.0) ++ codes " " ++ pc_text (instr_at parts.now site.now.method.0 site.now.index))) }
{
    let method = method_of(parts, site.method);
    push_method(out, parts, method)?;
    push_text(out, b" ")?;
    push_pc(alloc, out, instr_of(method, site.index))?;
    Ok(())
}

/// Appends what a sink call names, and its category.
fn push_called(out: &mut Vec<u8>, parts: &Parts, site: &Site) -> Result<(), Memory>
    ensures { OnOk result (out.new.items ≡ out.old.items ++ (printed site.now.target ++ category_text parts.now.categories site.now.category)) }
{
    push_name(out, site.target.bytes())?;
    push_category(out, parts.categories.as_slice(), site.category)?;
    Ok(())
}

/// Appends the line of a sink call.
pub(crate) fn push_site(
    alloc: Global,
    out: &mut Vec<u8>,
    parts: &Parts,
    site: &Site,
    warned: bool,
) -> Result<(), Memory>
    ensures { OnOk result (out.new.items ≡ out.old.items ++ site_line parts.now site.now warned) }
{
    push_text(out, verdict_word(warned))?;
    push_text(out, b" ")?;
    push_place(alloc, out, parts, site)?;
    push_text(out, b" ")?;
    push_called(out, parts, site)?;
    push_text(out, b"\n")?;
    Ok(())
}

/// The line of a sink call of the program, with its verdict.
pub fn line_of(alloc: Global, p: &Program, s: SiteId, warned: bool) -> Result<Bytes, Memory>
    requires { s.0 < length p.now.sites }
    ensures { IfOk result (λ text. (site : Site) → slice_get p.now.sites s.0 ≡ Some site → text ≡ site_line p.now site warned) }
{
    let mut out = Vec::new(alloc);
    push_site(
        alloc,
        &mut out,
        p.parts(),
        p.sites().at(u64::from(s.0)),
        warned,
    )?;
    Ok(Bytes::from_vec(out))
}
