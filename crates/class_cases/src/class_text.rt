//! Classes as text.
use crate::code_text::add_code_lines;
use case_text::ShownBytes;
use ja_class::{Class, ClassMethod, FirstMethod};
use ja_ir::{HeadField, HeadMethod};
use ja_pool::Pool;
use std::alloc::AllocError;

/// Adds the lines of a class.
pub fn add_class(out: &mut String, class: &Class) -> Result<(), AllocError> {
    let head = &class.head;
    writeln!(
        out,
        "  class {} super {} flags {} pool {}",
        ShownBytes(head.name.bytes()),
        ShownBytes(
            head.superclass
                .as_ref()
                .map_or(b"none", |name| name.bytes())
        ),
        head.flags,
        class.pool.count()
    )?;
    for name in head.interfaces.as_slice() {
        writeln!(out, "  interface {}", ShownBytes(name.bytes()))?;
    }
    add_fields(out, head.fields.as_slice())?;
    add_methods(
        out,
        &class.pool,
        head.methods.as_slice(),
        class.methods.as_slice(),
    )
}

/// Adds the lines of fields.
fn add_fields(out: &mut String, fields: &[HeadField]) -> Result<(), AllocError> {
    for field in fields {
        writeln!(
            out,
            "  field {} {} {}{}",
            field.flags,
            ShownBytes(field.name.bytes()),
            ShownBytes(field.desc.bytes()),
            if field.text { " with a text" } else { "" }
        )?;
    }
    Ok(())
}

/// Adds the lines of methods.
fn add_methods(
    out: &mut String,
    pool: &Pool,
    heads: &[HeadMethod],
    bodies: &[ClassMethod],
) -> Result<(), AllocError> {
    for (head, body) in heads.iter().zip(bodies) {
        add_method(out, pool, head, body)?;
    }
    Ok(())
}

/// Adds the lines of a method.
fn add_method(
    out: &mut String,
    pool: &Pool,
    head: &HeadMethod,
    body: &ClassMethod,
) -> Result<(), AllocError> {
    write!(
        out,
        "  method {} {} {} stack {} locals {}",
        head.flags,
        ShownBytes(head.name.bytes()),
        ShownBytes(head.desc.bytes()),
        body.max_stack,
        body.max_locals
    )?;
    match &body.code {
        None => writeln!(out, " without code"),
        Some(code) => {
            writeln!(out)?;
            add_code_lines(out, Some(pool), code)
        }
    }
}

/// Adds the lines of a class of the first form.
pub fn add_first_method(out: &mut String, method: &FirstMethod) -> Result<(), AllocError> {
    writeln!(
        out,
        "  class {} file length {} locals {} stack {}",
        ShownBytes(method.class.bytes()),
        method.file.bytes().len(),
        method.locals,
        method.stack
    )?;
    for instr in method.code.as_slice() {
        writeln!(out, "    {} {:?}", instr.pc, instr.op)?;
    }
    Ok(())
}
