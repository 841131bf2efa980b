//! The lines of methods.
use crate::program_text::op::OpText;
use crate::program_text::shown::{Shown, Spaced};
use ja_base::Name;
use ja_ir::{Catch, Handler, Instr, Method};
use std::alloc::AllocError;
use std::fmt;

/// Adds the line of a method of a class of this name, and those of its instructions and handlers, with marks
/// where the program names categories.
pub fn add_method(
    out: &mut String,
    number: usize,
    class: &Name,
    method: &Method,
    named: bool,
) -> Result<(), AllocError> {
    writeln!(
        out,
        "method {number} {}.{}{} flags {} locals {} stack {}",
        Shown(class),
        Shown(&method.name),
        Shown(&method.desc),
        method.flags,
        method.locals,
        method.stack
    )?;
    for instr in method.code.as_slice() {
        add_instr(out, instr, named)?;
    }
    for handler in method.handlers.as_slice() {
        add_handler(out, handler)?;
    }
    Ok(())
}

/// The number of values before an instruction, where it is reached.
#[derive(Clone, Copy)]
struct HeightText<'a>(&'a Instr);

impl fmt::Display for HeightText<'_> {
    fn fmt<W: fmt::Write>(&self, f: &mut fmt::Formatter<W>) -> fmt::Result {
        if self.0.reached {
            write!(f, "height {}", self.0.height)
        } else {
            f.write_str("unreached")
        }
    }
}

/// Adds the line of an instruction.
fn add_instr(out: &mut String, instr: &Instr, named: bool) -> Result<(), AllocError> {
    writeln!(
        out,
        "  {} {} next [{}] {}",
        instr.pc,
        OpText(&instr.op, named),
        Spaced(instr.next.as_slice()),
        HeightText(instr)
    )
}

/// What a handler catches.
#[derive(Clone, Copy)]
struct CatchText(Catch);

impl fmt::Display for CatchText {
    fn fmt<W: fmt::Write>(&self, f: &mut fmt::Formatter<W>) -> fmt::Result {
        match self.0 {
            Catch::All => f.write_str("all"),
            Catch::Program(class) => write!(f, "program {}", class.0),
            Catch::Library => f.write_str("library"),
        }
    }
}

/// Adds the line of a handler.
fn add_handler(out: &mut String, handler: &Handler) -> Result<(), AllocError> {
    writeln!(
        out,
        "  handler {} {} {} {}",
        handler.start,
        handler.end,
        handler.target,
        CatchText(handler.catch)
    )
}
