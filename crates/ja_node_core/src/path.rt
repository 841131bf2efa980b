ghost use Rattle.std.specs.Prelude.{◌≡◌, ℕ, ◌+◌, ◌-◌, ◌^◌, ◌<◌, ◌≤◌};
ghost use Rattle.ja_node_core.specs.Word.{places, place, factor, hash};

/// The largest prime below 2^32.
const HASH_MODULUS: u64 = 4_294_967_291;

/// The most slots of a table where the remainder by the modulus alone is the hash.
const SMALL_SLOTS: u32 = 65_536;

/// What a word is multiplied by in a larger table: a prime near 2^32 divided by the golden ratio.
///
/// 2^26 and 2^32 are 8 and 5 modulo 2^24 - 2. So where the slots are a large power of two, the
/// remainder alone puts words whose children have near numbers beside one another, and paths
/// fill up in a table that is nearly empty. The product spreads them.
const LARGE_FACTOR: u64 = 2_654_435_761;

/// The most places that a path has.
const MAX_PLACES: u32 = 4096;

/// How many places the path of a word has in a table of `slots` words.
#[tactic(auto, unfolding(crate::specs::Word::places))]
pub fn path_length(slots: u32) -> u32
    requires { 2 ≤ slots }
    ensures { result ≡ places slots }
{
    (slots - 2).min(MAX_PLACES)
}

/// What a word is multiplied by in the hash.
fn factor(slots: u32) -> u64
    ensures { result ≡ factor slots }
{
    if slots <= SMALL_SLOTS {
        1
    } else {
        LARGE_FACTOR
    }
}

/// The hash of a word in a table of `slots` words.
fn hash(slots: u32, word: u64) -> u32
    requires { 3 ≤ slots }
    ensures { (result ≡ hash slots word) × (result < slots - 2) }
{
    let mixed = word % HASH_MODULUS * factor(slots) % HASH_MODULUS;
    mixed as u32 % (slots - 2)
}

/// The first place of the word's path in a table of `slots` words, of which the first two are
/// never used.
pub fn first_place(slots: u32, word: u64) -> u32
    requires { (3 ≤ slots) × (slots < 2 ^ 31) }
    ensures { result ≡ place slots word 0 }
{
    2 + hash(slots, word)
}

/// The place after `at` on every path through it.
pub fn next_place(slots: u32, at: u32) -> u32
    requires { (2 ≤ at) × (at < slots) }
    ensures { (w i : ℕ) → at ≡ place slots w i → result ≡ place slots w (i + 1) }
{
    if at + 1 == slots { 2 } else { at + 1 }
}
