ghost use Rattle.std.specs.Prelude.{◌≡◌};
ghost use Rattle.ja_class.specs.declared.first.FirstFault.TheVariants.{Memory};

mod bytes;
mod code;
mod constant;
mod frame;
mod layout;
mod names;
mod pool;
mod reader;

use constant::Constant;
use ja_base::{Name, Seq};
pub use reader::{first_form_is_one, read_first};
use std::alloc::{AllocError, AllocFailed};

/// What an instruction of the first form does.
#[derive(Clone, Copy, PartialEq, Eq, Debug)]
pub enum FirstOp {
    /// Pushes a local.
    Load(u32),
    /// Pops into a local.
    Store(u32),
    /// Pushes a constant text.
    Text,
    /// Pops.
    Pop,
    /// Calls `demo/Taint.source()`, which pushes its text.
    Source,
    /// Calls `demo/Taint.sink`, which pops its argument.
    Sink,
    /// Ends the method.
    Return,
}

/// An instruction at its offset in the code.
#[derive(Clone, Copy, PartialEq, Eq, Debug)]
pub struct FirstInstr {
    pub pc: u32,
    pub op: FirstOp,
}

/// The instructions of a method, in order of their offsets.
pub type FirstCode = Seq<FirstInstr>;

/// The one method of a class of the first form: `main([Ljava/lang/String;)V`.
#[derive(Debug, Drop)]
pub struct FirstMethod {
    /// The name of the class.
    pub class: Name,
    /// The name of the class's file. It is empty until the reader of the folder sets it.
    pub file: Name,
    /// `max_locals`.
    pub locals: u32,
    /// `max_stack`.
    pub stack: u32,
    pub code: FirstCode,
}

/// Why a file is not read as a class of the first form.
#[derive(Clone, Copy, PartialEq, Eq, Debug)]
pub enum FirstFault {
    /// It is not in the first form.
    Unbuilt,
    /// Want of memory.
    Memory,
}

impl From<AllocError> for FirstFault {
    ghost from_gives = { λ _ fault. fault ≡ Memory };

    fn from(_error: AllocError) -> FirstFault {
        FirstFault::Memory
    }
}

impl<T: Drop> From<AllocFailed<T>> for FirstFault {
    ghost from_gives = { λ _ fault. fault ≡ Memory };

    fn from(_error: AllocFailed<T>) -> FirstFault {
        FirstFault::Memory
    }
}

impl From<ja_base::Memory> for FirstFault {
    ghost from_gives = { λ _ fault. fault ≡ Memory };

    fn from(_error: ja_base::Memory) -> FirstFault {
        FirstFault::Memory
    }
}
