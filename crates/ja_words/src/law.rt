ghost use Rattle.std.specs.Prelude.{◌≡◌, ℕ, List};
ghost use Rattle.ja_words.specs.Words.{IsAnalyse, IsGenerate};

/// Words ask for one thing at most.
pub fn law_one_command()
    ensures one_analysis { (words : List (List ℕ)) (dir other_dir : List ℕ) (workers other_workers limit other_limit : ℕ) →
        IsAnalyse words dir workers limit → IsAnalyse words other_dir other_workers other_limit →
        (dir ≡ other_dir) × (workers ≡ other_workers) × (limit ≡ other_limit) }
    ensures one_made { (words : List (List ℕ)) (number other_number classes other_classes workers other_workers : ℕ) →
        IsGenerate words number classes workers → IsGenerate words other_number other_classes other_workers →
        (number ≡ other_number) × (classes ≡ other_classes) × (workers ≡ other_workers) }
    ensures not_both { (words : List (List ℕ)) (dir : List ℕ) (workers limit number classes made_workers : ℕ) →
        IsAnalyse words dir workers limit → IsGenerate words number classes made_workers → ⊥ }
{}
