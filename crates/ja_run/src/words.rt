//! The words of the command line.
ghost use Rattle.std.specs.Prelude.{◌≡◌, ◌↔◌, IsTrue, IfSome, IsNone};
ghost use Rattle.ja_run.specs.Words.{AreWrong, IsAnalyse, IsDirectory};

use ja_base::Name;

/// Whether a word may stand for a directory.
fn is_directory(word: &[u8]) -> bool
    ensures { IsTrue result ↔ IsDirectory word.now }
{
    !word.is_empty() && word[0] != b'-' && str::from_utf8(word).is_ok()
}

/// The directory, where the words are `analyse` and a directory.
pub fn directory_of(words: &[Name]) -> Option<&Name>
    ensures found { IfSome result (λ dir. IsAnalyse words.now dir.now) }
    ensures wrong { IsNone result → AreWrong words.now }
{
    let [command, dir] = words else {
        return None;
    };
    if command.bytes() == b"analyse".as_slice() && is_directory(dir.bytes()) {
        Some(dir)
    } else {
        None
    }
}
