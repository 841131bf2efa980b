use ja_base::{Flags, Name, Numbers, Seq};

/// Methods that the environment may call.
#[derive(Drop)]
pub struct EntryRow {
    /// The class of the methods, or `*` for every class, which only static methods have.
    pub class: Name,
    pub is_static: bool,
    pub method: Name,
    /// The descriptor of the methods (JVM specification 4.3.3).
    pub desc: Name,
    /// The argument positions, a receiver first, at which the environment passes tainted values.
    pub marked: Numbers,
    /// For each category of marks, whether the values that are passed there are marked so.
    pub marks: Flags,
}

/// A list of entry rows.
pub type EntryRows = Seq<EntryRow>;
