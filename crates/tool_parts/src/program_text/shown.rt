//! The words of which lines are made.
use case_text::ShownBytes;
use ja_base::{JavaType, Kind, Name};
use ja_ir::MethodAt;
use std::fmt;

/// A name as its bytes print.
#[derive(Clone, Copy)]
pub struct Shown<'a>(pub &'a Name);

impl fmt::Display for Shown<'_> {
    fn fmt<W: fmt::Write>(&self, f: &mut fmt::Formatter<W>) -> fmt::Result {
        write!(f, "{}", ShownBytes(self.0.bytes()))
    }
}

/// Numbers, parted by blanks.
#[derive(Clone, Copy)]
pub struct Spaced<'a>(pub &'a [u64]);

impl fmt::Display for Spaced<'_> {
    fn fmt<W: fmt::Write>(&self, f: &mut fmt::Formatter<W>) -> fmt::Result {
        for (at, number) in self.0.iter().enumerate() {
            write!(f, "{}{number}", separator(at))?;
        }
        Ok(())
    }
}

/// Of which categories there are marks, by their numbers.
#[derive(Clone, Copy)]
pub struct MarksText<'a>(pub &'a [bool]);

impl fmt::Display for MarksText<'_> {
    fn fmt<W: fmt::Write>(&self, f: &mut fmt::Formatter<W>) -> fmt::Result {
        f.write_str("marks [")?;
        let mut count: usize = 0;
        for (category, marked) in self.0.iter().enumerate() {
            if *marked {
                write!(f, "{}{category}", separator(count))?;
                count = 1;
            }
        }
        f.write_str("]")
    }
}

/// What stands before the item at a place: a blank, but nothing before the first.
pub fn separator(at: usize) -> &'static str {
    if at == 0 { "" } else { " " }
}

/// The word of a kind.
pub fn kind_word(kind: Kind) -> &'static str {
    match kind {
        Kind::P1 => "P1",
        Kind::P2 => "P2",
        Kind::R => "R",
        Kind::T => "T",
    }
}

/// A type: its kind and its name.
#[derive(Clone, Copy)]
pub struct TypeText<'a>(pub &'a JavaType);

impl fmt::Display for TypeText<'_> {
    fn fmt<W: fmt::Write>(&self, f: &mut fmt::Formatter<W>) -> fmt::Result {
        write!(f, "{}:{}", kind_word(self.0.kind), Shown(&self.0.name))
    }
}

/// Where a look-up of a method ends.
#[derive(Clone, Copy)]
pub struct TargetText(pub MethodAt);

impl fmt::Display for TargetText {
    fn fmt<W: fmt::Write>(&self, f: &mut fmt::Formatter<W>) -> fmt::Result {
        match self.0 {
            MethodAt::Program(id) => write!(f, "program {}", id.0),
            MethodAt::Abstract(id) => write!(f, "abstract {}", id.0),
            MethodAt::Library => f.write_str("library"),
        }
    }
}
