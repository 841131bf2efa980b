/// Why bytes are not read as a constant pool. `at` is an offset in the file.

use ja_base::tag::Tag;

#[derive(Clone, Copy, PartialEq, Eq, Debug)]
pub enum PoolFault {
    /// The file ends inside the field that begins at `at`.
    End { at: u64 },
    /// An entry whose tag is none.
    BadTag { at: u64, tag: Tag },
    /// A Long or Double at the last index; `at` is the place of its tag.
    PoolWidth { at: u64 },
    /// A text that is no modified UTF-8; `at` is the place of its first wrong character.
    BadText { at: u64 },
    /// An index field at `at` that names no entry of the kind that it must name, or a count of 0.
    BadIndex { at: u64 },
    /// Want of memory.
    Memory,
}
