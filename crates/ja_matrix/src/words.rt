ghost use Rattle.std.specs.Prelude.{◌≡◌, ℕ, ◌+◌, ◌*◌, ◌/◌, ◌^◌, ◌<◌, ◌≤◌, false, length, slice_index, IsTrue};
ghost use Rattle.ja_matrix.specs.InnerChunks.{width, JoinsPiece, KeepsPiece, ChangesPiece};

/// The number of words that hold so many bits.
pub(crate) fn width_of(columns: u32) -> usize
    ensures { result ≡ width columns }
{
    (columns as usize + 63) / 64
}

/// Joins each of so many words with a word of another list, and says whether one changed.
pub(crate) fn join_piece(
    words: &mut [u64],
    at: usize,
    others: &[u64],
    from: usize,
    count: usize,
) -> bool
    requires room { at + count ≤ length words.old }
    requires enough { from + count ≤ length others.now }
    ensures joined { JoinsPiece words.old at others.now from count words.new }
    ensures changed { IsTrue result → ChangesPiece words.old at count words.new }
    ensures unchanged { result ≡ false → words.new ≡ words.old }
{
    let mut changed = false;
    for k in 0..count {
        let word = words[at + k];
        let both = word | others[from + k];
        words[at + k] = both;
        changed |= both != word;
    }
    changed
}

/// Joins each of so many words with those bits of a word of another list that are set in a word of a
/// third list, and says whether one changed.
pub(crate) fn join_kept_piece(
    words: &mut [u64],
    at: usize,
    others: &[u64],
    from: usize,
    kept: &[u64],
    count: usize,
) -> bool
    requires room { at + count ≤ length words.old }
    requires enough { from + count ≤ length others.now }
    requires kept { count ≤ length kept.now }
    ensures joined { KeepsPiece words.old at others.now from kept.now count words.new }
    ensures changed { IsTrue result → ChangesPiece words.old at count words.new }
    ensures unchanged { result ≡ false → words.new ≡ words.old }
{
    let mut changed = false;
    for k in 0..count {
        let word = words[at + k];
        let both = word | (others[from + k] & kept[k]);
        words[at + k] = both;
        changed |= both != word;
    }
    changed
}

/// Clears all words.
pub(crate) fn clear_words(words: &mut [u64])
    ensures { (k : ℕ) → slice_index words.new k ≡ 0 }
{
    for word in words.iter_mut() {
        *word = 0;
    }
}
