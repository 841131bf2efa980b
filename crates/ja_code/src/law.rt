ghost use Rattle.std.specs.Prelude.{◌≡◌, ℕ, List, ◌+◌, ◌^◌, ◌<◌, ◌≤◌, ◌⊎◌, ◌↔◌};
ghost use Rattle.ja_code.specs.declared.code.Code.{Code};
ghost use Rattle.ja_code.specs.declared.fault.CodeFault.{CodeFault};
ghost use Rattle.ja_code.specs.declared.handler.RawHandler.{RawHandler};
ghost use Rattle.ja_code.specs.Bytes.{near, far};
ghost use Rattle.ja_code.specs.Grammar.{Spells};
ghost use Rattle.ja_code.specs.Faults.{IsFault};

/// Each code array either spells something or has a fault, and not both, and it has one of either.
pub fn law_spelled_or_refused()
    ensures either { (code tags dims : List ℕ) (rows : List RawHandler) →
        ((c : Code) × Spells code tags dims rows c) ⊎ ((fault : CodeFault) × IsFault code tags dims rows fault) }
    ensures not_both { (code tags dims : List ℕ) (rows : List RawHandler) (c : Code) (fault : CodeFault) →
        Spells code tags dims rows c → IsFault code tags dims rows fault → ⊥ }
    ensures one_meaning { (code tags dims : List ℕ) (rows : List RawHandler) (c d : Code) →
        Spells code tags dims rows c → Spells code tags dims rows d → c ≡ d }
    ensures one_fault { (code tags dims : List ℕ) (rows : List RawHandler) (fault other : CodeFault) →
        IsFault code tags dims rows fault → IsFault code tags dims rows other → fault ≡ other }
{}

/// As far as a place is one of a code array, an offset leads there from `pc` exactly where `pc` and the
/// offset add up to it: from half of its range on, the bytes of an offset stand for a negative number.
pub fn law_branch_targets()
    ensures two_bytes { (pc n place : ℕ) → pc < 2 ^ 16 → n < 2 ^ 16 → place < 2 ^ 16 → (near pc n ≡ place)
        ↔ ((n < 2 ^ 15 → place ≡ pc + n) × (2 ^ 15 ≤ n → place + 2 ^ 16 ≡ pc + n)) }
    ensures four_bytes { (pc n place : ℕ) → pc < 2 ^ 16 → n < 2 ^ 32 → place < 2 ^ 16 → (far pc n ≡ place)
        ↔ ((n < 2 ^ 31 → place ≡ pc + n) × (2 ^ 31 ≤ n → place + 2 ^ 32 ≡ pc + n)) }
{}
