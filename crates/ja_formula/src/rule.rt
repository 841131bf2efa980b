use ja_clauses::Before;
use ja_ir::Op;
use ja_work::Way;

/// An end of an operation.
#[derive(Clone, Copy)]
pub enum End {
    Normal,
    Exceptional(Way),
}

/// The clauses of an end of an operation, by what the tables have before it.
#[derive(Clone, Copy)]
pub struct Rule<'a> {
    pub end: End,
    pub before: &'a Before<'a>,
    pub op: &'a Op,
    /// The number of values on the stack before the operation.
    pub height: u32,
}
