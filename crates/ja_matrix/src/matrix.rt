ghost use Rattle.std.specs.Prelude.{◌≡◌, ◌↔◌, ℕ, ◌+◌, ◌<◌, ◌≤◌, ◌^◌, [], false, length, replicate, slice_index_or, IsTrue, IfOk};
ghost use Rattle.ja_sets.specs.Sets.{Has, Adds, HasPair, LacksPair};
ghost use Rattle.ja_matrix.specs.Matrices.{IsTable, KeepsShape, Gains, AddsKept};

use crate::words::{clear_words, join_kept_piece, join_piece, width_of};
use ja_base::Memory;
use std::alloc::Global;
use std::marker::Model;

/// A table of truth values, which contracts see as the list of its rows: the set of the pairs of a row
/// and a column where it is true. A set of numbers is a table of one row.
#[derive(Drop)]
pub struct Matrix {
    rows: u32,
    columns: u32,
    words: Vec<u64>,
}

impl Model for Matrix {
    ghost use Rattle.std.specs.Prelude.{List, Bool};
    ghost use Rattle.ja_matrix.specs.InnerChunks.{table, IsStored};

    ghost Value = { List (List Bool) };

    ghost view = { λ matrix. table matrix.rows matrix.columns matrix.words.items };

    ghost invariant = { λ matrix. IsStored matrix.rows matrix.columns matrix.words.items };
}

impl Matrix {
    /// The table of so many rows and columns that is false everywhere.
    pub fn new(alloc: Global, rows: u32, columns: u32) -> Result<Matrix, Memory>
        ensures shape { IfOk result (IsTable rows columns) }
        ensures empty { IfOk result (λ matrix. (a b : ℕ) → HasPair matrix a b → ⊥) }
    {
        match Vec::from_elem(alloc, 0, rows as usize * width_of(columns)) {
            Ok(words) => Ok(Matrix {
                rows,
                columns,
                words,
            }),
            Err(_) => Err(Memory),
        }
    }

    /// Whether the table is true in a row and a column, which it has.
    pub fn has(&self, a: u32, b: u32) -> bool
        requires row { a < length self.now }
        requires column { b < length (slice_index_or self.now a []) }
        ensures { IsTrue result ↔ HasPair self.now a b }
    {
        let place = a as usize * width_of(self.columns) + b as usize / 64;
        (self.words[place] >> (b % 64)) & 1 == 1
    }

    /// Makes the table true in a row and a column, which it has, and says whether it was false there.
    pub fn add(&mut self, a: u32, b: u32) -> bool
        requires row { a < length self.old }
        requires column { b < length (slice_index_or self.old a []) }
        ensures gains { Gains self.old self.new (λ c d. (c ≡ a) × (d ≡ b)) }
        ensures shape { KeepsShape self.old self.new }
        ensures changed { IsTrue result ↔ LacksPair self.old a b }
    {
        let place = a as usize * width_of(self.columns) + b as usize / 64;
        let word = self.words[place];
        let joined = word | (1 << (b % 64));
        self.words[place] = joined;
        joined != word
    }

    /// Joins a row with a row of another table with as many columns, and says whether something was new.
    pub fn join_row(&mut self, to: u32, other: &Matrix, from: u32) -> bool
        requires row { to < length self.old }
        requires other { from < length other.now }
        requires columns { length (slice_index_or self.old to []) ≡ length (slice_index_or other.now from []) }
        ensures gains { Gains self.old self.new (λ a b. (a ≡ to) × HasPair other.now from b) }
        ensures shape { KeepsShape self.old self.new }
        ensures changed { IsTrue result ↔ Adds (slice_index_or other.now from []) (slice_index_or self.old to []) }
        ensures unchanged { result ≡ false → self.new ≡ self.old }
    {
        let count = width_of(self.columns);
        join_piece(
            self.words.as_mut_slice(),
            to as usize * count,
            other.words.as_slice(),
            from as usize * count,
            count,
        )
    }

    /// Joins a row with a row of another table, in the columns that the first row of a third has, and
    /// says whether something was new.
    pub fn join_kept(&mut self, to: u32, other: &Matrix, from: u32, kept: &Matrix) -> bool
        requires row { to < length self.old }
        requires other { from < length other.now }
        requires kept { 0 < length kept.now }
        requires columns { length (slice_index_or self.old to []) ≡ length (slice_index_or other.now from []) }
        requires kept_columns { length (slice_index_or self.old to []) ≡ length (slice_index_or kept.now 0 []) }
        ensures gains { Gains self.old self.new (λ a b. (a ≡ to) × HasPair other.now from b × HasPair kept.now 0 b) }
        ensures shape { KeepsShape self.old self.new }
        ensures changed { IsTrue result ↔ AddsKept (slice_index_or other.now from []) (slice_index_or kept.now 0 []) (slice_index_or self.old to []) }
        ensures unchanged { result ≡ false → self.new ≡ self.old }
    {
        let count = width_of(self.columns);
        join_kept_piece(
            self.words.as_mut_slice(),
            to as usize * count,
            other.words.as_slice(),
            from as usize * count,
            kept.words.as_slice(),
            count,
        )
    }

    /// Makes the table false everywhere.
    pub fn clear(&mut self)
        ensures empty { (a b : ℕ) → HasPair self.new a b → ⊥ }
        ensures shape { KeepsShape self.old self.new }
    {
        clear_words(self.words.as_mut_slice());
    }
}
