use std::alloc::{AllocError, AllocFailed};

/// Want of memory. It is the one answer whose cause no contract names.
#[derive(Clone, Copy, PartialEq, Eq, Debug, Drop)]
pub struct Memory;

impl From<AllocError> for Memory {
    fn from(_error: AllocError) -> Memory {
        Memory
    }
}

impl<T: Drop> From<AllocFailed<T>> for Memory {
    fn from(_error: AllocFailed<T>) -> Memory {
        Memory
    }
}
