use ja_code::CodeFault;

/// Why attributes are refused. `at` is an offset in the file.
#[derive(Clone, Copy, PartialEq, Eq, Debug, Drop)]
pub enum AttributeFault {
    /// The file ends inside the field that begins at `at`. The content of an attribute is one field.
    End { at: u64 },
    /// An index field at `at` that names no entry of the kind that it must name.
    BadIndex { at: u64 },
    /// A wrong attribute, whose name index is at `at`, or a method with the wrong number of Code attributes,
    /// whose flags are at `at`.
    BadAttribute { at: u64 },
    /// The code of a method cannot be decoded, for this cause.
    Undecodable(CodeFault),
    /// Want of memory.
    Memory,
}
