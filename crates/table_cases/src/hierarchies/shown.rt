//! What answers are printed as.
use ja_base::{Name, Numbers};
use ja_hier::FieldAt;
use ja_ir::MethodAt;
use std::fmt;

/// Where a look-up of a field ends.
#[derive(Clone, Copy)]
pub struct FieldText(pub FieldAt);

impl fmt::Display for FieldText {
    fn fmt<W: fmt::Write>(&self, f: &mut fmt::Formatter<W>) -> fmt::Result {
        match self.0 {
            FieldAt::Program(id) => write!(f, "program {}", id.0),
            FieldAt::Library => f.write_str("library"),
            FieldAt::Missing => f.write_str("missing"),
        }
    }
}

/// Where a look-up of a method ends.
#[derive(Clone, Copy)]
pub struct MethodText(pub MethodAt);

impl fmt::Display for MethodText {
    fn fmt<W: fmt::Write>(&self, f: &mut fmt::Formatter<W>) -> fmt::Result {
        match self.0 {
            MethodAt::Program(id) => write!(f, "program {}", id.0),
            MethodAt::Abstract(id) => write!(f, "abstract {}", id.0),
            MethodAt::Library => f.write_str("library"),
        }
    }
}
