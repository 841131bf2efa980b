ghost use Rattle.std.specs.Prelude.{◌≡◌};

use crate::Name;

/// Why a folder is refused. A file is named by its path; `at` is an offset in the file, `method` the
/// place of a method in its class, `handler` the place of an entry in an exception table, and `pc` the
/// offset of an instruction in its method's code. Places are counted from 0.
#[derive(Debug, Drop)]
pub enum Refusal {
    /// The folder needs a part of the analyser that is not built yet.
    Unbuilt {
        file: Name,
    },
    /// An archive, by its suffix.
    Archive {
        file: Name,
    },
    /// More class files than the analyser takes.
    TooManyFiles {
        count: u64,
    },
    /// A file longer than the analyser takes.
    FileTooLong {
        file: Name,
    },
    /// The file with which all files together are longer than the analyser takes.
    TotalTooLong {
        file: Name,
    },
    /// The table file is not a text in TOML.
    TableText,
    /// A key at the top of the table file that is none of `row`, `entry` and `category`, or a `row` or `entry` that is no
    /// array of tables.
    TableKey,
    /// A row of the table file that breaks its rules.
    TableRow {
        row: u64,
    },
    /// An entry of the table file that breaks its rules.
    TableEntry {
        entry: u64,
    },
    /// The list of categories of the table file breaks its rules.
    TableCategory,
    /// The file ends inside the field that begins at `at`.
    End {
        file: Name,
        at: u64,
    },
    /// The file does not begin with `cafebabe`.
    BadMagic {
        file: Name,
    },
    /// A major version below 45 or above 52.
    BadVersion {
        file: Name,
        major: u32,
    },
    /// A constant pool entry with an unknown tag.
    BadTag {
        file: Name,
        at: u64,
        tag: u8,
    },
    /// A long or double at the last index of the constant pool.
    PoolWidth {
        file: Name,
        at: u64,
    },
    /// Bytes that are no modified UTF-8.
    BadText {
        file: Name,
        at: u64,
    },
    /// An index that names no entry, or one of a wrong kind.
    BadIndex {
        file: Name,
        at: u64,
    },
    /// A text that is no descriptor of the wanted kind.
    BadDesc {
        file: Name,
        at: u64,
    },
    /// An attribute with a wrong length or number.
    BadAttribute {
        file: Name,
        at: u64,
    },
    /// A byte after the end of the class.
    Trailing {
        file: Name,
        at: u64,
    },
    /// A byte that is no opcode.
    BadOpcode {
        file: Name,
        method: u32,
        pc: u32,
        opcode: u8,
    },
    /// An instruction that the analyser does not take.
    RefusedOpcode {
        file: Name,
        method: u32,
        pc: u32,
        opcode: u8,
    },
    /// A branch to a place where no instruction begins.
    BadBranch {
        file: Name,
        method: u32,
        pc: u32,
    },
    /// An exception table entry with a wrong range, handler or type.
    BadHandler {
        file: Name,
        method: u32,
        handler: u32,
    },
    /// The code ends inside an instruction.
    CodeEnd {
        file: Name,
        method: u32,
        pc: u32,
    },
    /// A wrong operand.
    BadOperand {
        file: Name,
        method: u32,
        pc: u32,
    },
    /// A program class in a package of the platform.
    PlatformClass {
        file: Name,
    },
    /// A second class of one name.
    Duplicate {
        file: Name,
    },
    /// A class that is its own supertype.
    Cycle {
        file: Name,
    },
    /// A method that redeclares a package-private method of another package.
    CrossPackage {
        file: Name,
        method: u32,
    },
    /// A native method.
    Native {
        file: Name,
        method: u32,
    },
    /// A frame with more values than the analyser takes.
    FrameSize {
        file: Name,
        method: u32,
        values: u32,
    },
    /// An instruction that takes from an empty stack or passes `max_stack`.
    StackDepth {
        file: Name,
        method: u32,
        pc: u32,
    },
    /// An instruction that finds another kind of value than it needs.
    KindClash {
        file: Name,
        method: u32,
        pc: u32,
    },
    /// An instruction after which the code ends.
    FallsOff {
        file: Name,
        method: u32,
        pc: u32,
    },
    /// A call of the reflection library.
    Reflection {
        file: Name,
        method: u32,
        pc: u32,
    },
    /// A call that starts a thread.
    ThreadStart {
        file: Name,
        method: u32,
        pc: u32,
    },
    /// A store into a static field of the library.
    LibraryStore {
        file: Name,
        method: u32,
        pc: u32,
    },
    /// A program field that no class declares.
    NoField {
        file: Name,
        method: u32,
        pc: u32,
    },
}

impl Refusal {
    ghost use Rattle.ja_base.specs.Refusal.{number_of};

    /// The number under which the refusal is printed. It takes no memory.
    pub fn number(&self) -> u32
        ensures { result ≡ number_of self.now }
    {
        match self {
            Refusal::Unbuilt { .. } => 1,
            Refusal::Archive { .. } => 10,
            Refusal::TooManyFiles { .. } => 11,
            Refusal::FileTooLong { .. } => 12,
            Refusal::TotalTooLong { .. } => 13,
            Refusal::TableText => 20,
            Refusal::TableKey => 21,
            Refusal::TableRow { .. } => 22,
            Refusal::TableEntry { .. } => 23,
            Refusal::TableCategory => 24,
            Refusal::End { .. } => 30,
            Refusal::BadMagic { .. } => 31,
            Refusal::BadVersion { .. } => 32,
            Refusal::BadTag { .. } => 33,
            Refusal::PoolWidth { .. } => 34,
            Refusal::BadText { .. } => 35,
            Refusal::BadIndex { .. } => 36,
            Refusal::BadDesc { .. } => 37,
            Refusal::BadAttribute { .. } => 38,
            Refusal::Trailing { .. } => 39,
            Refusal::BadOpcode { .. } => 40,
            Refusal::RefusedOpcode { .. } => 41,
            Refusal::BadBranch { .. } => 42,
            Refusal::BadHandler { .. } => 43,
            Refusal::CodeEnd { .. } => 44,
            Refusal::BadOperand { .. } => 45,
            Refusal::PlatformClass { .. } => 50,
            Refusal::Duplicate { .. } => 51,
            Refusal::Cycle { .. } => 52,
            Refusal::CrossPackage { .. } => 53,
            Refusal::Native { .. } => 60,
            Refusal::FrameSize { .. } => 61,
            Refusal::StackDepth { .. } => 62,
            Refusal::KindClash { .. } => 63,
            Refusal::FallsOff { .. } => 64,
            Refusal::Reflection { .. } => 70,
            Refusal::ThreadStart { .. } => 71,
            Refusal::LibraryStore { .. } => 72,
            Refusal::NoField { .. } => 73,
        }
    }
}
