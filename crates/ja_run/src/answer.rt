//! What a run comes to, before anything is written.
ghost use Rattle.std.specs.Prelude.{◌≡◌, ◌≢◌, ◌≤◌, ◌↔◌, ◌∷◌, [], List, Contains, IsTrue, IfOk, IfSome, IsErrOf, length, slice_get, Some, IsPermutation, IsSorted, IsSomeAnd, ◌⊎◌};
ghost use Rattle.std.specs.Option.{ForSome};
ghost use Rattle.std.specs.Ordering.{nat_cmp};
ghost use Rattle.std.specs.Cmp.Lexicographic.{slice_cmp};
ghost use Rattle.ja_base.specs.Cause.{Rose};
ghost use Rattle.ja_base.specs.Limit.{max_file_bytes};
ghost use Rattle.ja_base.specs.declared.file.File.{File};
ghost use Rattle.ja_io.specs.Contents.{names_of};
ghost use Rattle.ja_run.specs.Due.{ComesTo, HasFailed, IsAnalysis, IsClassFileName, IsDue, IsVerdictStatus};
ghost use Rattle.ja_run.specs.Report.{unbuilt_line};
ghost use Rattle.ja_run.specs.Status.{number_of};
ghost use Rattle.ja_run.specs.Words.{AreWrong};
ghost use Rattle.ja_class.specs.Runnable.{IsRunnable};

use crate::report::{
    report_on_method, report_status, report_without_files, unbuilt_text, usage_text,
};
use crate::status::Status;
use crate::words::directory_of;
use ja_base::{MAX_FILE_BYTES, Memory, Name};
use ja_class::{FirstFault, FirstMethod, read_first};
use ja_io::{Folder, FolderFail};
use ja_plain::solve_first;
use std::alloc::{AllocError, Global};

/// A text that is due, and the status with which it is due.
#[derive(Drop)]
pub struct Answer {
    pub status: Status,
    pub text: Vec<u8>,
}

/// Why there is no answer.
#[derive(Clone, Copy)]
pub enum Failure {
    /// A call of the folder failed, or the folder has another directory.
    Folder,
    /// Memory ran out.
    Memory,
}

impl From<Memory> for Failure {
    ghost use Rattle.std.specs.Prelude.{◌≡◌};
    ghost use Rattle.ja_run.specs.declared.answer.Failure.TheVariants.{Memory as NoMemory};

    ghost from_gives = { λ _ failure. failure ≡ NoMemory };

    fn from(_memory: Memory) -> Failure {
        Failure::Memory
    }
}

impl From<FolderFail> for Failure {
    ghost use Rattle.std.specs.Prelude.{◌≡◌};
    ghost use Rattle.ja_run.specs.Failing.{failure_of};

    ghost from_gives = { λ fail failure. failure ≡ failure_of fail };

    fn from(fail: FolderFail) -> Failure {
        match fail {
            FolderFail::Absent | FolderFail::Fault => Failure::Folder,
            FolderFail::Memory => Failure::Memory,
        }
    }
}

impl From<AllocError> for Failure {
    ghost use Rattle.std.specs.Prelude.{◌≡◌};
    ghost use Rattle.ja_run.specs.declared.answer.Failure.TheVariants.{Memory as NoMemory};

    ghost from_gives = { λ _ failure. failure ≡ NoMemory };

    fn from(_error: AllocError) -> Failure {
        Failure::Memory
    }
}

/// Whether a file's name is that of a class file.
fn is_class_file(name: &Name) -> bool
    ensures { IsTrue result ↔ IsClassFileName name.now }
{
    name.bytes().ends_with(b".class")
}

/// The refusal of a folder, which names a file.
fn refusal(alloc: Global, file: &Name) -> Result<Answer, Memory>
    ensures status { IfOk result (λ answer. number_of answer.status ≡ 3) }
    ensures text { IfOk result (λ answer. answer.text.items ≡ unbuilt_line file.now) }
{
    Ok(Answer {
        status: Status::Refused,
        text: unbuilt_text(alloc, file)?,
    })
}

/// The report on a method.
fn analysis(alloc: Global, method: &FirstMethod) -> Result<Answer, Memory>
    requires { IsRunnable method.now }
    ensures analysis { IfOk result (λ answer. IsAnalysis method.now (number_of answer.status) answer.text.items) }
    ensures due { IfOk result (λ answer. IsVerdictStatus (number_of answer.status)) }
{
    let warned = solve_first(alloc, method)?;
    Ok(Answer {
        status: report_status(warned.as_slice()),
        text: report_on_method(alloc, method, warned.as_slice())?,
    })
}

/// What one class file comes to, where there is no other file.
fn judge_class(alloc: Global, name: &Name, bytes: &[u8]) -> Result<Answer, Memory>
    requires { IsClassFileName name.now }
    ensures judged { IfOk result (λ answer. (file : File) → file.name ≡ name.now → file.bytes ≡ bytes.now → length bytes.now ≤ max_file_bytes → ComesTo (file ∷ []) (number_of answer.status) answer.text.items) }
    ensures due { IfOk result (λ answer. IsVerdictStatus (number_of answer.status)) }
{
    match read_first(alloc, bytes) {
        Ok(mut method) => {
            method.file = name.copy(alloc)?;
            Ok(analysis(alloc, &method)?)
        }
        Err(FirstFault::Unbuilt) => Ok(refusal(alloc, name)?),
        Err(FirstFault::Memory) => Err(Memory),
    }
}

/// What the file of this name comes to, where there is no other file. A file that is no class file is
/// not read.
fn judge_file<F: Folder>(alloc: Global, folder: &mut F, name: &Name) -> Result<Answer, Failure>
    requires { ForSome (F.told folder.old) (λ held. Contains (names_of held.files) name.now) }
    ensures judged { IfOk result (λ answer. IfSome (F.told folder.old) (λ held. (file : File) → held.files ≡ file ∷ [] → file.name ≡ name.now → ComesTo held.files (number_of answer.status) answer.text.items)) }
    ensures due { IfOk result (λ answer. IsVerdictStatus (number_of answer.status)) }
    ensures failed { IsErrOf result Failure.Folder → Rose (F.faults folder.old) (F.faults folder.new) }
    ensures grows { F.faults folder.old ≤ F.faults folder.new }
{
    if !is_class_file(name) {
        return Ok(refusal(alloc, name)?);
    }
    let piece = folder.read(alloc, name, MAX_FILE_BYTES)?;
    if piece.longer {
        return Ok(refusal(alloc, name)?);
    }
    Ok(judge_class(alloc, name, piece.bytes.as_slice())?)
}

/// The names of the folder's files, in the order of their bytes.
fn names_in_order<F: Folder>(alloc: Global, folder: &mut F) -> Result<Vec<Name>, Failure>
    ensures each { IfOk result (λ names. IfSome (F.told folder.old) (λ held. IsPermutation (names_of held.files) names.items)) }
    ensures ordered { IfOk result (λ names. IsSorted (slice_cmp nat_cmp) names.items) }
    ensures failed { IsErrOf result Failure.Folder → Rose (F.faults folder.old) (F.faults folder.new) }
    ensures grows { F.faults folder.old ≤ F.faults folder.new }
    ensures held { F.told folder.new ≡ F.told folder.old }
{
    let mut names = folder.list(alloc)?.into_vec();
    names.sort()?;
    Ok(names)
}

/// What the files of these names, which are all files in the order of their bytes, come to. With two
/// files or more none is read.
fn judge_names<F: Folder>(alloc: Global, folder: &mut F, names: &[Name]) -> Result<Answer, Failure>
    requires each { ForSome (F.told folder.old) (λ held. IsPermutation (names_of held.files) names.now) }
    requires ordered { IsSorted (slice_cmp nat_cmp) names.now }
    ensures judged { IfOk result (λ answer. IfSome (F.told folder.old) (λ held. ComesTo held.files (number_of answer.status) answer.text.items)) }
    ensures due { IfOk result (λ answer. IsVerdictStatus (number_of answer.status)) }
    ensures failed { IsErrOf result Failure.Folder → Rose (F.faults folder.old) (F.faults folder.new) }
    ensures grows { F.faults folder.old ≤ F.faults folder.new }
{
    match names {
        [] => Ok(Answer {
            status: Status::Clean,
            text: report_without_files(alloc)?,
        }),
        [name] => judge_file(alloc, folder, name),
        [_, second, ..] => Ok(refusal(alloc, second)?),
    }
}

/// What a directory comes to.
fn judge<F: Folder>(alloc: Global, folder: &mut F, dir: &Name) -> Result<Answer, Failure>
    ensures judged { IfOk result (λ answer. IfSome (F.told folder.old) (λ held. (held.dir ≡ dir.now) × ComesTo held.files (number_of answer.status) answer.text.items)) }
    ensures due { IfOk result (λ answer. IsVerdictStatus (number_of answer.status)) }
    ensures failed { IsErrOf result Failure.Folder → Rose (F.faults folder.old) (F.faults folder.new) ⊎ IsSomeAnd (F.told folder.old) (λ held. held.dir ≢ dir.now) }
{
    folder.enter(alloc, dir)?;
    let names = names_in_order(alloc, folder)?;
    judge_names(alloc, folder, names.as_slice())
}

/// The text that is due, with its status. Wrong words make no call of the folder, and the first failed
/// call ends the run.
pub fn answer_words<F: Folder>(
    alloc: Global,
    words: &[Name],
    folder: &mut F,
) -> Result<Answer, Failure>
    ensures due { IfOk result (λ answer. IsDue words.now (F.told folder.old) (number_of answer.status) answer.text.items) }
    ensures failed { IsErrOf result Failure.Folder → HasFailed words.now (F.told folder.old) (F.faults folder.old) (F.faults folder.new) }
    ensures untouched { AreWrong words.now → folder.new ≡ folder.old }
{
    match directory_of(words) {
        Some(dir) => judge(alloc, folder, dir),
        None => Ok(Answer {
            status: Status::WrongWords,
            text: usage_text(alloc)?,
        }),
    }
}
