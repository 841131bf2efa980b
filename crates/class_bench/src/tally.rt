ghost use Rattle.std.specs.Prelude.{◌<◌};

use ja_base::File;
use ja_bytes::Cursor;
use ja_class::{ClassFault, read_class};
use ja_pool::read_pool;
use std::alloc::Global;

/// One more than the last number of a refusal of class files; it stands for want of memory.
pub const NUMBERS: usize = 47;

/// What was met in files.
#[derive(Clone, Copy)]
pub struct Tally {
    /// Class files that were read, and their bytes.
    pub read: u64,
    pub bytes: u64,
    /// Files that were refused, by the number of the refusal.
    pub refused: [u64; NUMBERS],
}

/// The number of a refusal as the program prints it; 46 for want of memory.
fn number_of(fault: ClassFault) -> usize
    ensures { result < 47 }
{
    match fault {
        ClassFault::End { .. } => 30,
        ClassFault::BadMagic => 31,
        ClassFault::BadVersion { .. } => 32,
        ClassFault::BadTag { .. } => 33,
        ClassFault::PoolWidth { .. } => 34,
        ClassFault::BadText { .. } => 35,
        ClassFault::BadIndex { .. } => 36,
        ClassFault::BadDesc { .. } => 37,
        ClassFault::BadAttribute { .. } => 38,
        ClassFault::Trailing { .. } => 39,
        ClassFault::BadOpcode { .. } => 40,
        ClassFault::RefusedOpcode { .. } => 41,
        ClassFault::BadBranch { .. } => 42,
        ClassFault::BadHandler { .. } => 43,
        ClassFault::CodeEnd { .. } => 44,
        ClassFault::BadOperand { .. } => 45,
        ClassFault::Memory => 46,
    }
}

/// Reads files as classes.
pub fn tally_of(alloc: Global, files: &[File]) -> Tally {
    let mut tally = Tally {
        read: 0,
        bytes: 0,
        refused: [0; NUMBERS],
    };
    for file in files {
        match read_class(alloc, file.bytes.as_slice()) {
            Ok(_class) => {
                tally.read = tally.read.saturating_add(1);
                tally.bytes = tally.bytes.saturating_add(file.bytes.len());
            }
            Err(fault) => {
                let number = number_of(fault);
                tally.refused[number] = tally.refused[number].saturating_add(1);
            }
        }
    }
    tally
}

/// Reads the pool of a class file alone, which stands behind the magic number and the version, and answers
/// how many indices it has.
fn indices_of(alloc: Global, file: &[u8]) -> Option<u64> {
    let mut cursor = Cursor::new(file);
    let _front = cursor.take(8).ok()?;
    match read_pool(alloc, &mut cursor) {
        Ok(pool) => Some(u64::from(pool.count())),
        Err(_) => None,
    }
}

/// Reads the pools of files alone, and answers how many indices they have together.
pub fn pool_indices(alloc: Global, files: &[File]) -> u64 {
    let mut indices = 0;
    for file in files {
        indices = indices_and(alloc, file.bytes.as_slice(), indices);
    }
    indices
}

/// So many indices, and those of one more file.
fn indices_and(alloc: Global, file: &[u8], indices: u64) -> u64 {
    match indices_of(alloc, file) {
        Some(count) => indices.saturating_add(count),
        None => indices,
    }
}
