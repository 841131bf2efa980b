//! The analyser as one call.
ghost use Rattle.std.specs.Prelude.{◌≡◌, ◌≢◌, ℕ, ◌≤◌, ◌⊎◌, List, IfSome};
ghost use Rattle.ja_base.specs.Cause.{Rose};
ghost use Rattle.ja_run.specs.Due.{Ends, HasFailed, IsAnswered, IsDue, IsSound, IsUsage};
ghost use Rattle.ja_run.specs.Status.{number_of};
ghost use Rattle.ja_run.specs.Words.{AreWrong, IsAnalyse};

use crate::answer::{Failure, answer_words};
use crate::status::Status;
use crate::writing::write_whole;
use ja_base::Name;
use ja_io::{Folder, Gate, Out};
use std::alloc::Global;
use std::thread::Threads;

/// Analyses the folder that the words name, and writes the report.
///
/// `words` are those after the program's name: `analyse` and a directory. The answer says how the run
/// ended. All memory is taken before the first write. The call returns wherever the calls on folder and sink do.
pub fn run<R: Threads + Sync, F: Folder, O: Out, G: Gate>(
    _rt: &R,
    alloc: Global,
    words: &[Name],
    folder: &mut F,
    out: &mut O,
    _gate: &G,
) -> Status
    // What is due is written whole, or a named cause stands for what is not.
    ensures ends { Ends (IsDue words.now (F.told folder.old)) (O.written out.old) (O.written out.new) (HasFailed words.now (F.told folder.old) (F.faults folder.old) (F.faults folder.new)) (Rose (O.faults out.old) (O.faults out.new)) (number_of result) }

    // Clean or warned: the report of the least solution was written, and 0 says that no site is warned.
    ensures verdicts { number_of result ≤ 1 → IsAnswered words.now (F.told folder.old) (O.written out.old) (O.written out.new) (number_of result) }
    // Where a line says clean, no marked run passes that sink call a value from which marked data is reachable.
    ensures clean { number_of result ≤ 1 → IsSound (F.told folder.old) (O.written out.old) (O.written out.new) }
    // Refused: the refusal line of what is not in the first form was written.
    ensures refused { number_of result ≡ 3 → IsAnswered words.now (F.told folder.old) (O.written out.old) (O.written out.new) 3 }
    // Wrong words make no call of the folder, and status 2 comes with nothing else.
    ensures wrong_words { AreWrong words.now → folder.new ≡ folder.old }
    ensures usage { number_of result ≡ 2 → IsUsage words.now (O.written out.old) (O.written out.new) }
    // The folder failed only where its count of faults rose, or where it tells another directory.
    ensures folder_fault { number_of result ≡ 4 → HasFailed words.now (F.told folder.old) (F.faults folder.old) (F.faults folder.new) × (out.new ≡ out.old) }
    ensures elsewhere { (dir : List ℕ) → IsAnalyse words.now dir → IfSome (F.told folder.old) (λ held. held.dir ≢ dir → (number_of result ≡ 4) ⊎ (number_of result ≡ 7)) }
    // Writing failed only where the sink's count of faults rose.
    ensures write_fault { number_of result ≡ 5 → Rose (O.faults out.old) (O.faults out.new) }
    // Want of memory comes before the first write.
    ensures no_memory { number_of result ≡ 7 → out.new ≡ out.old }
{
    match answer_words(alloc, words, folder) {
        Ok(answer) => match write_whole(out, answer.text.as_slice()) {
            Ok(()) => answer.status,
            Err(_) => Status::WriteFault,
        },
        Err(Failure::Folder) => Status::FolderFault,
        Err(Failure::Memory) => Status::NoMemory,
    }
}
