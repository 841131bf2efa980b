ghost use Rattle.std.specs.Prelude.{◌≡◌, ℕ, List};
ghost use Rattle.ja_ir.specs.declared.head.ClassHead.{ClassHead};
ghost use Rattle.ja_supertypes.specs.LibraryTypes.{AreLibraryTypes, IsNearest};

/// A class has one list of library types, and at most one nearest library superclass.
pub fn law_one_list()
    ensures nearest { (heads : List ClassHead) (c : ℕ) (a b : List ℕ) → IsNearest heads c a → IsNearest heads c b → a ≡ b }
    ensures types { (heads : List ClassHead) (c : ℕ) (a b : List (List ℕ)) → AreLibraryTypes heads c a → AreLibraryTypes heads c b → a ≡ b }
{}
