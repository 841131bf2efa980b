//! Why classes are not written.
use std::io::{self, ErrorKind};
use tool_parts::ListingFault;

/// Why the classes of a listing are not written.
#[derive(Drop)]
pub enum Failure {
    /// There are not two words.
    Words,
    /// The item with this number breaks the notation or cannot be written.
    Item { number: u64 },
    /// The class at this place is not read back.
    Unread { place: u64 },
    /// Reading or writing failed, or a name is no path below the directory.
    Files,
    /// Two classes go to the file of this name.
    Twice { name: String },
    /// Memory ran out.
    Memory,
}

impl Failure {
    /// The exit status.
    pub fn status(&self) -> u8 {
        match self {
            Failure::Words => 2,
            Failure::Item { .. } => 3,
            Failure::Files | Failure::Twice { .. } => 4,
            Failure::Unread { .. } => 5,
            Failure::Memory => 7,
        }
    }
}

impl From<ListingFault> for Failure {
    fn from(fault: ListingFault) -> Failure {
        match fault {
            ListingFault::Item { number } => Failure::Item { number },
            ListingFault::Unread { place } => Failure::Unread { place },
            ListingFault::Memory => Failure::Memory,
        }
    }
}

impl From<io::Error> for Failure {
    fn from(error: io::Error) -> Failure {
        if error.kind() == ErrorKind::OutOfMemory {
            Failure::Memory
        } else {
            Failure::Files
        }
    }
}
