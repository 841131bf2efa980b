ghost use Rattle.std.specs.Prelude.{◌≡◌, ℕ, ◌<◌, ◌↔◌, List, slice_index};
ghost use Rattle.ja_node_core.specs.Tree.{Tree, IsSameFunction};
ghost use Rattle.ja_node_core.specs.Node.{Means, IsPart, IsCanonical};
ghost use Rattle.ja_node_core.specs.Machine.{State, Event, Known, word_at, IsActive, start, Runs};

use crate::aim::Aim;

/// The law of the table machine, for every number of words, every aim and every list of events
/// from an empty table on: the words are canonical, every word that an actor knows stands, and
/// two nodes that one actor knows mean the same function exactly if they have one number.
pub fn law_canonical<A: Aim>(aim: &A)
    ensures canonical { (n : ℕ) (es : List Event) (s : State) → Runs n (A.aims aim.now) es (start n) s → IsCanonical n (A.aims aim.now) (slice_index s.words) }
    ensures stands { (n : ℕ) (es : List Event) (s : State) → Runs n (A.aims aim.now) es (start n) s → (a : ℕ) (known : Known) → IsActive s a known → IsPart (word_at known) (slice_index s.words) }
    ensures one_number { (n : ℕ) (es : List Event) (s : State) → Runs n (A.aims aim.now) es (start n) s → (a : ℕ) (known : Known) → IsActive s a known
        → (f g : ℕ) (t u : Tree) → Means (word_at known) t f → Means (word_at known) u g → IsSameFunction t u ↔ (f ≡ g) }
{}
