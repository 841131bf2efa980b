ghost use Rattle.std.specs.Prelude.{◌≡◌, ℕ, ◌<◌, ◌≤◌, ◌↔◌, false, length, replicate, IsTrue, IfOk};
ghost use Rattle.ja_sets.specs.Sets.{HasPair, LacksPair, AddsPair, with_pair, union_pairs, AreSquare};

use crate::bits::Bits;
use ja_base::Memory;
use std::alloc::Global;
use std::marker::Model;

/// A set of pairs of numbers below a bound.
///
/// Contracts see it as one row for each first number, and in it one truth value for each second one.
#[derive(Drop)]
pub struct PairSet {
    n: u32,
    bits: Bits,
}

impl Model for PairSet {
    ghost use Rattle.std.specs.Prelude.{List, Bool, ◌≡◌, ◌*◌, ◌<◌, ◌^◌, length};
    ghost use Rattle.ja_sets.specs.InnerRows.{rows, IsSquare};

    ghost Value = { List (List Bool) };

    ghost view = { λ set. rows set.n set.bits };

    ghost invariant = { λ set. IsSquare set.n set.bits };
}

impl PairSet {
    /// The empty set of pairs of numbers below `n`.
    pub fn new(alloc: Global, n: u32) -> Result<PairSet, Memory>
        ensures { IfOk result (λ set. set ≡ replicate n (replicate n false)) }
    {
        let bits = Bits::new(alloc, n as u64 * n as u64)?;
        Ok(PairSet { n, bits })
    }

    /// Adds a pair of numbers, which are below the bound, and says whether it was not there.
    pub fn add(&mut self, x: (u32, u32)) -> bool
        requires first { x.0 < length self.old }
        requires second { x.1 < length self.old }
        ensures set { self.new ≡ with_pair self.old x.0 x.1 }
        ensures changed { IsTrue result ↔ LacksPair self.old x.0 x.1 }
        ensures square { AreSquare self.old }
    {
        self.bits.set(x.0 as u64 * self.n as u64 + x.1 as u64)
    }

    /// Adds each pair of another set below the same bound, and says whether one was not there.
    pub fn join(&mut self, o: &PairSet) -> bool
        requires { length self.old ≡ length o.now }
        ensures joined { self.new ≡ union_pairs self.old o.now }
        ensures changed { IsTrue result ↔ AddsPair o.now self.old }
        ensures unchanged { result ≡ false → self.new ≡ self.old }
        ensures square { AreSquare self.old }
        ensures other_square { AreSquare o.now }
    {
        self.bits.join(&o.bits)
    }

    /// Whether a pair of numbers, which are below the bound, is in the set.
    pub fn contains(&self, x: (u32, u32)) -> bool
        requires first { x.0 < length self.now }
        requires second { x.1 < length self.now }
        ensures { IsTrue result ↔ HasPair self.now x.0 x.1 }
    {
        self.bits.get(x.0 as u64 * self.n as u64 + x.1 as u64)
    }

    /// Whether two sets below one bound have the same pairs.
    pub fn equal(&self, o: &PairSet) -> bool
        requires { length self.now ≡ length o.now }
        ensures { IsTrue result ↔ (self.now ≡ o.now) }
    {
        self.bits.equal(&o.bits)
    }
}
