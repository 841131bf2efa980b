/// What is told of each block of a round before the block is worked on.
pub trait Gate: Sync {
    /// Says that a worker comes to a block.
    fn arrive(&self, worker: u32, block: u32);
}

/// A gate that does nothing.
#[derive(Clone, Copy)]
pub struct NoGate;

impl Gate for NoGate {
    fn arrive(&self, _worker: u32, _block: u32) {}
}
