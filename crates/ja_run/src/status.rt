ghost use Rattle.std.specs.Prelude.{◌≡◌};
ghost use Rattle.ja_run.specs.Status.{number_of};

/// How a run ends.
#[derive(Clone, Copy)]
pub enum Status {
    /// Every sink call is clean.
    Clean,
    /// Some sink call is warned.
    Warned,
    /// The words are wrong.
    WrongWords,
    /// The folder is refused.
    Refused,
    /// A call of the folder failed, or the folder has another directory.
    FolderFault,
    /// Writing failed.
    WriteFault,
    /// Memory ran out.
    NoMemory,
}

impl Status {
    /// The exit status.
    pub fn number(self) -> u8
        ensures { result ≡ number_of self }
    {
        match self {
            Status::Clean => 0,
            Status::Warned => 1,
            Status::WrongWords => 2,
            Status::Refused => 3,
            Status::FolderFault => 4,
            Status::WriteFault => 5,
            Status::NoMemory => 7,
        }
    }
}
