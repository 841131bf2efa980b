use ja_base::{ClassId, Flags, MethodId, Name, Numbers, Seq};

/// A method that the environment may call.
#[derive(Drop)]
pub struct Entry {
    /// The class of the receiver, or the class that declares a static method.
    pub class: ClassId,
    pub method: MethodId,
    /// The argument positions, a receiver first, that may be given marked things.
    pub marked: Numbers,
    /// For each category of marks, whether marked things of it may be given there.
    pub marks: Flags,
}

/// A sink call.
#[derive(Drop)]
pub struct Site {
    pub method: MethodId,
    /// The index of the call in its method.
    pub index: u32,
    /// The argument positions, a receiver first, to which no tainted value may go.
    pub positions: Numbers,
    /// The class, `.`, the name and the descriptor that the call names.
    pub target: Name,
    /// The category of marks that the sink is about.
    pub category: u32,
}

/// A list of entries.
pub type Entries = Seq<Entry>;

/// A list of sink calls.
pub type Sites = Seq<Site>;
