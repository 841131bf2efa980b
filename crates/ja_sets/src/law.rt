ghost use Rattle.std.specs.Prelude.{◌≡◌, ◌↔◌, ◌⊎◌, ◌<◌, ℕ, Bool, List, false, true, length, replicate, slice_set};
ghost use Rattle.ja_sets.specs.Sets.{Has, HasPair, union, union_pairs, with_pair, AreSquare};

/// What the words for sets of numbers mean: nothing is in the empty set, adding adds one number, and a
/// union has the members of both.
pub fn law_sets()
    ensures empty { (n x : ℕ) → Has (replicate n false) x → ⊥ }
    ensures added { (set : List Bool) (x y : ℕ) → x < length set → Has (slice_set set x true) y ↔ ((y ≡ x) ⊎ Has set y) }
    ensures joined { (set other : List Bool) (x : ℕ) → length set ≡ length other → Has (union set other) x ↔ (Has set x ⊎ Has other x) }
{}

/// What the words for sets of pairs mean.
pub fn law_pairs()
    ensures empty { (n a b : ℕ) → HasPair (replicate n (replicate n false)) a b → ⊥ }
    ensures added { (set : List (List Bool)) (a b c d : ℕ) → AreSquare set → a < length set → b < length set → HasPair (with_pair set a b) c d ↔ (((c ≡ a) × (d ≡ b)) ⊎ HasPair set c d) }
    ensures joined { (set other : List (List Bool)) (a b : ℕ) → AreSquare set → AreSquare other → length set ≡ length other → HasPair (union_pairs set other) a b ↔ (HasPair set a b ⊎ HasPair other a b) }
{}
