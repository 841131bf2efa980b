ghost use Rattle.std.specs.Prelude.{◌≡◌, ◌≢◌, ℕ, ◌≤◌, Option, Contains, All, IfSome, OnOk, IfOk, IsSomeAnd, IsPermutation};
ghost use Rattle.std.specs.Option.{ForSome};
ghost use Rattle.ja_base.specs.Cause.{Rose};
ghost use Rattle.ja_io.specs.Contents.{Contents, names_of, HasDistinctNames};
ghost use Rattle.ja_io.specs.Count.{one_more};
ghost use Rattle.ja_io.specs.Front.{IsFront};

use ja_base::{Bytes, Name, Names};
use std::alloc::Global;
use thiserror::Error;

/// A folder of files that the analyser enters, lists and reads.
///
/// A file's name is its path below the folder, with `/` between the parts. The meaning of a folder is
/// what it tells of itself, which it may leave open, and two counts: of its calls and of its faults.
pub trait Folder {
    /// What the folder tells of itself: its directory's name and its files. `None` where it tells nothing.
    ghost told: { Self → Option Contents };

    /// The number of faults, as far as the counter goes.
    ghost faults: { Self → ℕ };

    /// The number of calls that were made, as far as the counter goes.
    ghost calls: { Self → ℕ };

    /// Enters the directory `dir`. `Absent` says that the folder has another directory, `Fault` that the
    /// call failed.
    fn enter(&mut self, alloc: Global, dir: &Name) -> Result<(), FolderFail>
        ensures there { OnOk result (IfSome (told self.old) (λ held. held.dir ≡ dir.now)) }
        ensures absent { result ≡ Err FolderFail.Absent → IsSomeAnd (told self.old) (λ held. held.dir ≢ dir.now) }
        ensures fault { result ≡ Err FolderFail.Fault → Rose (faults self.old) (faults self.new) }
        ensures quiet { result ≢ Err FolderFail.Fault → faults self.new ≡ faults self.old }
        ensures grows { faults self.old ≤ faults self.new }
        ensures counted { calls self.new ≡ one_more (calls self.old) }
        ensures held { told self.new ≡ told self.old }
        ensures distinct { IfSome (told self.new) (λ held. HasDistinctNames held.files) };

    /// The names of all files, in any order, each once. It never answers `Absent`.
    fn list(&mut self, alloc: Global) -> Result<Names, FolderFail>
        ensures names { IfOk result (λ names. IfSome (told self.old) (λ held. IsPermutation (names_of held.files) names)) }
        ensures present { result ≢ Err FolderFail.Absent }
        ensures fault { result ≡ Err FolderFail.Fault → Rose (faults self.old) (faults self.new) }
        ensures quiet { result ≢ Err FolderFail.Fault → faults self.new ≡ faults self.old }
        ensures grows { faults self.old ≤ faults self.new }
        ensures counted { calls self.new ≡ one_more (calls self.old) }
        ensures held { told self.new ≡ told self.old }
        ensures distinct { IfSome (told self.new) (λ held. HasDistinctNames held.files) };

    /// The first `most` bytes of the file `name`, or all bytes of a shorter one. It never answers `Absent`.
    fn read(&mut self, alloc: Global, name: &Name, most: u64) -> Result<Piece, FolderFail>
        requires { ForSome (told self.old) (λ held. Contains (names_of held.files) name.now) }
        ensures front { IfOk result (λ piece. IfSome (told self.old) (λ held. All (λ file. file.name ≡ name.now → IsFront file.bytes most piece) held.files)) }
        ensures present { result ≢ Err FolderFail.Absent }
        ensures fault { result ≡ Err FolderFail.Fault → Rose (faults self.old) (faults self.new) }
        ensures quiet { result ≢ Err FolderFail.Fault → faults self.new ≡ faults self.old }
        ensures grows { faults self.old ≤ faults self.new }
        ensures counted { calls self.new ≡ one_more (calls self.old) }
        ensures held { told self.new ≡ told self.old }
        ensures distinct { IfSome (told self.new) (λ held. HasDistinctNames held.files) };
}

/// The front of a file.
#[derive(Drop)]
pub struct Piece {
    /// The bytes that were read.
    pub bytes: Bytes,
    /// Whether the file has more bytes than were asked for.
    pub longer: bool,
}

/// Why a call on a folder failed.
#[derive(Clone, Copy, PartialEq, Eq, Debug, Error)]
pub enum FolderFail {
    /// The folder has another directory than the one that was named.
    #[error("the directory is not there")]
    Absent,
    /// The call failed, and the folder counted a fault.
    #[error("the folder failed")]
    Fault,
    /// Memory ran out.
    #[error("out of memory")]
    Memory,
}
