/// What an assignment of a frame gives a truth value.
#[derive(Clone, Copy)]
pub enum Spot {
    /// A local.
    Local(u32),
    /// A value on the stack, from the bottom.
    OnStack(u32),
    /// Whether something tainted was stored.
    Dirt,
    /// At an exceptional end, whether what is thrown is tainted.
    Exc,
}

/// What an end of an instruction says of one spot after it: where the spot may be true.
///
/// That is everywhere where `always` is set, and else where the spot `one` was true, or one of `count`
/// values on the stack from `first` on.
#[derive(Clone, Copy)]
pub struct Clause {
    /// Whether the spot is true exactly there, and not only at most.
    pub exact: bool,
    pub always: bool,
    pub one: Option<Spot>,
    pub first: u32,
    pub count: u32,
}
