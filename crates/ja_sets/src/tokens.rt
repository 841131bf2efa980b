ghost use Rattle.std.specs.Prelude.{◌≡◌, ℕ, ◌<◌, ◌≤◌, ◌^◌, ◌↔◌, false, true, length, replicate, slice_set, IsTrue, IfOk, IfSome, IfNone};
ghost use Rattle.ja_sets.specs.Sets.{Has, Lacks, Adds, union, IsNext, HasNoneFrom};

use crate::bits::Bits;
use ja_base::Memory;
use std::alloc::Global;
use std::marker::Model;

/// A set of numbers below a bound.
///
/// Contracts see it as one truth value for each number below the bound.
#[derive(Drop)]
pub struct TokenSet {
    bits: Bits,
}

impl Model for TokenSet {
    ghost use Rattle.std.specs.Prelude.{List, Bool, length, ◌<◌, ◌^◌};

    ghost Value = { List Bool };

    ghost view = { λ set. set.bits };

    ghost invariant = { λ set. length set.bits < 2 ^ 32 };
}

impl TokenSet {
    /// The empty set of numbers below `n`.
    pub fn new(alloc: Global, n: u32) -> Result<TokenSet, Memory>
        ensures { IfOk result (λ set. set ≡ replicate n false) }
    {
        let bits = Bits::new(alloc, n as u64)?;
        Ok(TokenSet { bits })
    }

    /// Adds a number, which is below the bound, and says whether it was not there.
    pub fn add(&mut self, x: u32) -> bool
        requires { x < length self.old }
        ensures set { self.new ≡ slice_set self.old x true }
        ensures changed { IsTrue result ↔ Lacks self.old x }
    {
        self.bits.set(x as u64)
    }

    /// Adds each number of another set below the same bound, and says whether one was not there.
    pub fn join(&mut self, o: &TokenSet) -> bool
        requires { length self.old ≡ length o.now }
        ensures joined { self.new ≡ union self.old o.now }
        ensures changed { IsTrue result ↔ Adds o.now self.old }
        ensures unchanged { result ≡ false → self.new ≡ self.old }
    {
        self.bits.join(&o.bits)
    }

    /// Whether a number, which is below the bound, is in the set.
    pub fn contains(&self, x: u32) -> bool
        requires { x < length self.now }
        ensures { IsTrue result ↔ Has self.now x }
    {
        self.bits.get(x as u64)
    }

    /// Whether two sets below one bound have the same members.
    pub fn equal(&self, o: &TokenSet) -> bool
        requires { length self.now ≡ length o.now }
        ensures { IsTrue result ↔ (self.now ≡ o.now) }
    {
        self.bits.equal(&o.bits)
    }

    /// The least member that is at least `at`, if there is one.
    pub fn next_from(&self, at: u32) -> Option<u32>
        ensures some { IfSome result (λ x. IsNext self.now at x) }
        ensures none { IfNone result (HasNoneFrom self.now at) }
    {
        match self.bits.next_from(at as u64) {
            Some(x) => Some(x as u32),
            None => None,
        }
    }
}
