use ja_base::{Flags, Numbers};

/// What a call of a library method does.
#[derive(Drop)]
pub struct LibRow {
    pub flow: RowFlow,
    pub effect: RowEffect,
    pub result: RowResult,
    /// The argument positions, a receiver first, to which no tainted value may go.
    pub sinks: Numbers,
    /// For each category of marks, whether a flow that is always there makes marks of it.
    pub marks: Flags,
    /// The category of marks that the sinks are about.
    pub category: u32,
}

/// When a call of a library method makes tainted things.
#[derive(Clone, Copy, PartialEq, Eq)]
pub enum RowFlow {
    Always,
    Never,
    /// Where some argument is tainted.
    Args,
}

/// Which objects a call of a library method may change: absorbing ones only.
#[derive(Clone, Copy, PartialEq, Eq)]
pub enum RowEffect {
    /// None.
    Quiet,
    /// The absorbing ones that the receiver reaches through bags.
    Absorb,
    /// The absorbing ones that some argument reaches.
    Blend,
}

/// What a call of a library method answers.
#[derive(Clone, Copy, PartialEq, Eq)]
pub enum RowResult {
    /// Something new.
    Fresh,
    /// Its first argument.
    Argument,
    /// Something new, or something that its first argument reaches through the bags of absorbing objects.
    Member,
    /// Something new, or something that an argument reaches, through fields and bags.
    Any,
}
