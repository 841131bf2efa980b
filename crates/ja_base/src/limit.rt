/// The most class files that a folder may hold.
pub const MAX_CLASS_FILES: u64 = 4_096;

/// The most bytes that one file may have: 4 MiB.
pub const MAX_FILE_BYTES: u64 = 4_194_304;

/// The most bytes that all files that are read may have together: 64 MiB.
pub const MAX_TOTAL_BYTES: u64 = 67_108_864;

/// The most values that a frame may have: `max_locals + max_stack` of a method.
pub const MAX_FRAME_VALUES: u32 = 512;

/// The most workers of a round. There is at least one.
pub const MAX_WORKERS: u32 = 64;

/// The fewest slots of a table of diagram nodes.
pub const MIN_SLOTS: u64 = 16;

/// The most slots of a table of diagram nodes: 128 MiB of words.
pub const MAX_SLOTS: u64 = 16_777_216;

/// The number of variables that a diagram may have.
pub const MAX_VARIABLES: u32 = 4_095;

/// The most classes that the generator makes. It makes at least one.
pub const MAX_GENERATED_CLASSES: u32 = 4_000;

/// The most categories of marks that a table may have.
pub const MAX_CATEGORIES: u64 = 8;

/// The most classes, the most fields, the most methods and the most instructions that a program numbers. Each takes a
/// byte of a file at least, and all files have no more bytes.
pub const MAX_NUMBERED: u64 = MAX_TOTAL_BYTES;
