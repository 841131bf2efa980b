//! What the words of a call ask for.
ghost use Rattle.std.specs.Prelude.{◌≡◌, ℕ, ◌≤◌, ◌↔◌, List, [], ◌∷◌, IfSome, IsNone, IsTrue, drop, length};
ghost use Rattle.ja_words.specs.Options.{plain_words};
ghost use Rattle.ja_words.specs.Words.{AreNumbers, AreWrong, AsksAnalysis, AsksMade, IsCommand, IsDirectory, IsWorkers};

use crate::number::{number_given, number_in};
use crate::options::{plain_at, value_at};
use ja_base::{MAX_GENERATED_CLASSES, MAX_SLOTS, MAX_WORKERS, MIN_SLOTS, Name};

/// How many workers there are where the words do not say.
const WORKERS: u64 = 4;

/// What the words of a call ask for.
#[derive(Drop)]
pub enum Command<'a> {
    /// To analyse the folder of a directory.
    Analyse {
        dir: &'a Name,
        /// 1 to 64.
        workers: u32,
        /// The most slots that a table of nodes may have, 16 to 16,777,216.
        limit: u64,
    },
    /// To make classes and analyse them.
    Generate {
        /// From what the classes follow.
        number: u32,
        /// How many classes, 1 to 4,000.
        classes: u32,
        /// 1 to 64.
        workers: u32,
    },
}

/// Whether a word may stand for a directory.
fn is_directory(word: &[u8]) -> bool
    ensures { IsTrue result ↔ IsDirectory word.now }
{
    !word.is_empty() && word[0] != b'-' && str::from_utf8(word).is_ok()
}

/// The number of workers.
fn workers_of(words: &[Name]) -> Option<u32>
    ensures found { IfSome result (IsWorkers words.now) }
    ensures none { IsNone result → (workers : ℕ) → IsWorkers words.now workers → ⊥ }
{
    let workers = number_given(words, b"--workers", WORKERS, 1, u64::from(MAX_WORKERS))?;
    Some(workers as u32)
}

/// The one word that is neither an option nor the value of one, if it may stand for a directory.
fn directory_of(words: &[Name]) -> Option<&Name>
    ensures only { IfSome result (λ dir. plain_words words.now ≡ dir.now ∷ []) }
    ensures directory { IfSome result (λ dir. IsDirectory dir.now) }
    ensures none { IsNone result → (dir : List ℕ) → plain_words words.now ≡ dir ∷ [] → IsDirectory dir → ⊥ }
{
    let dir = plain_at(words, 0)?;
    match plain_at(words, 1) {
        Some(_) => None,
        None if is_directory(dir.bytes()) => Some(dir),
        None => None,
    }
}

/// The two words that are neither options nor values of options, if there are just two.
fn two_words(words: &[Name]) -> Option<(&Name, &Name)>
    ensures only { IfSome result (λ two. plain_words words.now ≡ two.0.now ∷ two.1.now ∷ []) }
    ensures none { IsNone result → (first second : List ℕ) → plain_words words.now ≡ first ∷ second ∷ [] → ⊥ }
{
    let first = plain_at(words, 0)?;
    let second = plain_at(words, 1)?;
    match plain_at(words, 2) {
        Some(_) => None,
        None => Some((first, second)),
    }
}

/// The directory, the number of workers and the limit, where these are the words behind `analyse`.
fn analysis_of(words: &[Name]) -> Option<(&Name, u32, u64)>
    ensures found { IfSome result (λ asked. AsksAnalysis words.now asked.0.now asked.1 asked.2) }
    ensures none { IsNone result → (dir : List ℕ) (workers limit : ℕ) → AsksAnalysis words.now dir workers limit → ⊥ }
{
    let dir = directory_of(words)?;
    let workers = workers_of(words)?;
    let limit = number_given(words, b"--limit", MAX_SLOTS, MIN_SLOTS, MAX_SLOTS)?;
    Some((dir, workers, limit))
}

/// The number and the number of classes.
fn numbers_of(words: &[Name]) -> Option<(u32, u32)>
    ensures found { IfSome result (λ numbers. AreNumbers words.now numbers.0 numbers.1) }
    ensures none { IsNone result → (number classes : ℕ) → AreNumbers words.now number classes → ⊥ }
{
    let (first, second) = two_words(words)?;
    let number = number_in(first, 0, u64::from(u32::MAX))?;
    let classes = number_in(second, 1, u64::from(MAX_GENERATED_CLASSES))?;
    Some((number as u32, classes as u32))
}

/// The number, the number of classes and of workers, where these are the words behind `generate`.
fn made_of(words: &[Name]) -> Option<(u32, u32, u32)>
    ensures found { IfSome result (λ asked. AsksMade words.now asked.0 asked.1 asked.2) }
    ensures none { IsNone result → (number classes workers : ℕ) → AsksMade words.now number classes workers → ⊥ }
{
    let (number, classes) = numbers_of(words)?;
    let workers = workers_of(words)?;
    match value_at(words, b"--limit", 0) {
        Some(_) => None,
        None => Some((number, classes, workers)),
    }
}

/// Whether a word is this text.
fn is_word(word: &Name, text: &[u8]) -> bool
    ensures { IsTrue result ↔ (word.now ≡ text.now) }
{
    word.bytes() == text
}

/// The words behind the first.
fn rest_of(words: &[Name]) -> &[Name]
    requires { 1 ≤ length words.now }
    ensures { result.now ≡ drop 1 words.now }
{
    &words[1..]
}

/// What words ask for, where they are right. It takes no memory.
pub fn command_of(words: &[Name]) -> Option<Command<'_>>
    // The answer is what the words ask for.
    ensures found { IfSome result (IsCommand words.now) }
    // Without an answer they are wrong.
    ensures wrong { IsNone result → AreWrong words.now }
{
    let [command, ..] = words else {
        return None;
    };
    let rest = rest_of(words);
    let analyses = is_word(command, b"analyse");
    let makes = is_word(command, b"generate");
    if analyses {
        let (dir, workers, limit) = analysis_of(rest)?;
        Some(Command::Analyse {
            dir,
            workers,
            limit,
        })
    } else if makes {
        let (number, classes, workers) = made_of(rest)?;
        Some(Command::Generate {
            number,
            classes,
            workers,
        })
    } else {
        None
    }
}
