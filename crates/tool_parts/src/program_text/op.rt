//! An operation as text.
use crate::program_text::call::CallText;
use crate::program_text::shown::{Shown, Spaced, kind_word};
use ja_base::Kind;
use ja_ir::Op;
use std::fmt;

/// An operation: its word and its parts, and whether the program names categories of marks.
#[derive(Clone, Copy)]
pub struct OpText<'a>(pub &'a Op, pub bool);

impl fmt::Display for OpText<'_> {
    fn fmt<W: fmt::Write>(&self, f: &mut fmt::Formatter<W>) -> fmt::Result {
        match self.0 {
            Op::Nop => f.write_str("nop"),
            Op::Const(kind) => write!(f, "const {}", kind_word(*kind)),
            Op::Text => f.write_str("text"),
            Op::New(token) => write!(f, "new {}", token.0),
            Op::Load(kind, local) => write!(f, "load {} {local}", kind_word(*kind)),
            Op::Store(kind, local) => write!(f, "store {} {local}", kind_word(*kind)),
            Op::ArrLoad(kind) => write!(f, "arrload {}", kind_word(*kind)),
            Op::ArrStore(kind) => write!(f, "arrstore {}", kind_word(*kind)),
            Op::Shuffle { pops, pushes } => write_shuffle(f, *pops, pushes.as_slice()),
            Op::Mix {
                pops,
                result,
                throws,
            } => write!(
                f,
                "mix {pops} {} {}",
                kind_word(*result),
                throws_word(*throws)
            ),
            Op::Branch { pops } => write!(f, "branch {pops}"),
            Op::Return(kind) => write!(f, "return {}", returned_word(*kind)),
            Op::GetStatic(field) => write!(f, "getstatic {}", field.0),
            Op::PutStatic(field) => write!(f, "putstatic {}", field.0),
            Op::GetField(field) => write!(f, "getfield {}", field.0),
            Op::PutField(field) => write!(f, "putfield {}", field.0),
            Op::Call(call) => write!(f, "{}", CallText(call, self.1)),
            Op::NewArray { last, dimensions } => write!(f, "newarray {} {dimensions}", last.0),
            Op::ArrLen => f.write_str("arrlen"),
            Op::Throw => f.write_str("throw"),
            Op::Cast(name) => write!(f, "cast {}", Shown(name)),
            Op::InstanceOf => f.write_str("instanceof"),
            Op::Monitor => f.write_str("monitor"),
        }
    }
}

/// Writes a shuffle: how many values it pops, and the places of those that it pushes.
fn write_shuffle<W: fmt::Write>(
    f: &mut fmt::Formatter<W>,
    pops: u32,
    pushes: &[u64],
) -> fmt::Result {
    write!(f, "shuffle {pops}")?;
    for place in pushes {
        write!(f, " {place}")?;
    }
    Ok(())
}

/// Whether an operation may throw.
fn throws_word(throws: bool) -> &'static str {
    if throws { "throws" } else { "quiet" }
}

/// The kind of what is returned, and `-` where nothing is.
fn returned_word(kind: Option<Kind>) -> &'static str {
    match kind {
        Some(kind) => kind_word(kind),
        None => "-",
    }
}
