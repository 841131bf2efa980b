use ja_base::FieldId;

/// Where a look-up of a field ends.
#[derive(Clone, Copy, PartialEq, Eq)]
pub enum FieldAt {
    /// A field of a program class.
    Program(FieldId),
    /// A field of the library.
    Library,
    /// There is no such field.
    Missing,
}
