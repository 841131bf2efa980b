/// What a clause says of the spot at a place, where other spots are named by their places.
#[derive(Clone, Copy)]
pub(crate) struct Part {
    pub(crate) place: u32,
    pub(crate) exact: bool,
    pub(crate) always: bool,
    /// The place of the spot where it may be true.
    pub(crate) one: Option<u32>,
    /// Whether it may also be true where one of the counted values is.
    pub(crate) ranged: bool,
    /// Whether the spot itself is one of these.
    pub(crate) counted: bool,
}
