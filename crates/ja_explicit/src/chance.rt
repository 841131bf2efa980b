/// Whether a slot may be true, and whether it may be false.
#[derive(Clone, Copy)]
pub struct Chance {
    pub high: bool,
    pub low: bool,
}
