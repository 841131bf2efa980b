//! Why nothing is said of a folder.
use ja_base::Memory;
use ja_io::FolderFail;
use std::alloc::AllocError;

/// Why nothing is said of a folder.
#[derive(Clone, Copy, PartialEq, Eq, Debug)]
pub enum ReadingFault {
    /// A call of the folder failed, or the folder has another directory.
    Folder,
    /// Memory ran out.
    Memory,
}

impl From<Memory> for ReadingFault {
    ghost use Rattle.std.specs.Prelude.{◌≡◌};
    ghost use Rattle.ja_reading.specs.declared.fault.ReadingFault.TheVariants.{Memory as NoMemory};

    ghost from_gives = { λ _ fault. fault ≡ NoMemory };

    fn from(_memory: Memory) -> ReadingFault {
        ReadingFault::Memory
    }
}

impl From<FolderFail> for ReadingFault {
    ghost use Rattle.std.specs.Prelude.{◌≡◌};
    ghost use Rattle.ja_reading.specs.Failing.{fault_of};

    ghost from_gives = { λ fail fault. fault ≡ fault_of fail };

    fn from(fail: FolderFail) -> ReadingFault {
        match fail {
            FolderFail::Absent | FolderFail::Fault => ReadingFault::Folder,
            FolderFail::Memory => ReadingFault::Memory,
        }
    }
}

impl From<AllocError> for ReadingFault {
    ghost use Rattle.std.specs.Prelude.{◌≡◌};
    ghost use Rattle.ja_reading.specs.declared.fault.ReadingFault.TheVariants.{Memory as NoMemory};

    ghost from_gives = { λ _ fault. fault ≡ NoMemory };

    fn from(_error: AllocError) -> ReadingFault {
        ReadingFault::Memory
    }
}
