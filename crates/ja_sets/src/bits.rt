ghost use Rattle.std.specs.Prelude.{◌≡◌, ◌≢◌, ℕ, ◌+◌, ◌-◌, ◌^◌, ◌<◌, ◌≤◌, ◌↔◌, false, true, length, replicate, slice_index, slice_index_or, slice_set, IsTrue, IfOk, IfSome, IfNone, bit_or};
ghost use Rattle.ja_sets.specs.Sets.{Lacks, Adds, union, IsNext, HasNoneFrom};
ghost use Rattle.ja_sets.specs.InnerWords.{JoinsWords, GainsBits};

use ja_base::Memory;
use std::alloc::Global;
use std::marker::Model;

/// A list of truth values, sixty-four to a word.
#[derive(Drop)]
pub struct Bits {
    len: u64,
    words: Vec<u64>,
}

impl Model for Bits {
    ghost use Rattle.std.specs.Prelude.{List, Bool};
    ghost use Rattle.ja_sets.specs.InnerWords.{flags, IsTidy};

    ghost Value = { List Bool };

    ghost view = { λ bits. flags bits.len bits.words.items };

    ghost invariant = { λ bits. IsTidy bits.len bits.words.items };
}

impl Bits {
    /// So many bits, none of them set.
    pub fn new(alloc: Global, len: u64) -> Result<Bits, Memory>
        requires { len ≤ 2 ^ 64 - 64 }
        ensures { IfOk result (λ bits. bits ≡ replicate len false) }
    {
        match Vec::from_elem(alloc, 0, ((len + 63) / 64) as usize) {
            Ok(words) => Ok(Bits { len, words }),
            Err(_) => Err(Memory),
        }
    }

    /// Whether the bit at a place is set.
    pub fn get(&self, at: u64) -> bool
        requires { at < length self.now }
        ensures { result ≡ slice_index_or self.now at false }
    {
        (self.words[(at / 64) as usize] >> (at % 64)) & 1 == 1
    }

    /// Sets the bit at a place, and says whether it was not set.
    pub fn set(&mut self, at: u64) -> bool
        requires { at < length self.old }
        ensures set { self.new ≡ slice_set self.old at true }
        ensures changed { IsTrue result ↔ Lacks self.old at }
    {
        let place = (at / 64) as usize;
        let word = self.words[place];
        let joined = word | (1 << (at % 64));
        self.words[place] = joined;
        joined != word
    }

    /// Sets each bit that is set in the other list, and says whether one was not set.
    pub fn join(&mut self, other: &Bits) -> bool
        requires { length self.old ≡ length other.now }
        ensures joined { self.new ≡ union self.old other.now }
        ensures changed { IsTrue result ↔ Adds other.now self.old }
        ensures unchanged { result ≡ false → self.new ≡ self.old }
    {
        join_words(self.words.as_mut_slice(), other.words.as_slice())
    }

    /// Whether the same bits are set in both.
    pub fn equal(&self, other: &Bits) -> bool
        requires { length self.now ≡ length other.now }
        ensures { IsTrue result ↔ (self.now ≡ other.now) }
    {
        self.words.as_slice() == other.words.as_slice()
    }

    /// The least place from `at` on whose bit is set.
    pub fn next_from(&self, at: u64) -> Option<u64>
        ensures some { IfSome result (λ x. IsNext self.now at x) }
        ensures none { IfNone result (HasNoneFrom self.now at) }
    {
        if at >= self.len {
            return None;
        }
        let place = (at / 64) as usize;
        let rest = self.words[place] >> (at % 64);
        if rest != 0 {
            return Some(at + rest.trailing_zeros() as u64);
        }
        match next_word(self.words.as_slice(), place + 1) {
            Some(found) => Some(found as u64 * 64 + self.words[found].trailing_zeros() as u64),
            None => None,
        }
    }
}

// The first word from a place on that is not 0.
fn next_word(words: &[u64], from: usize) -> Option<usize>
    requires { from ≤ length words.now }
    ensures below { IfSome result (λ k. (from ≤ k) × (k < length words.now)) }
    ensures found { IfSome result (λ k. 0 < slice_index words.now k) }
    ensures before { IfSome result (λ k. (j : ℕ) → from ≤ j → j < k → slice_index words.now j ≡ 0) }
    ensures none { IfNone result ((j : ℕ) → from ≤ j → slice_index words.now j ≡ 0) }
{
    for k in from..words.len() {
        if words[k] != 0 {
            return Some(k);
        }
    }
    None
}

// Joins each word with the other list's word at its place, and says whether one changed.
fn join_words(words: &mut [u64], others: &[u64]) -> bool
    requires { length words.old ≡ length others.now }
    ensures joined { JoinsWords words.old others.now words.new }
    ensures changed { IsTrue result → GainsBits words.old words.new }
    ensures unchanged { result ≡ false → words.new ≡ words.old }
{
    let mut changed = false;
    for i in 0..words.len() {
        let word = words[i];
        let both = word | others[i];
        words[i] = both;
        changed |= both != word;
    }
    changed
}
