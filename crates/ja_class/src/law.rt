ghost use Rattle.std.specs.Prelude.{◌≡◌, ◌⊎◌, ℕ, List};
ghost use Rattle.ja_attributes.specs.Part.{AreBytes};
ghost use Rattle.ja_class.specs.declared.fault.ClassFault.{ClassFault};
ghost use Rattle.ja_class.specs.Meaning.{ClassSpelled};
ghost use Rattle.ja_class.specs.ClassFile.{IsClass};
ghost use Rattle.ja_class.specs.ClassFault.{IsFault};

/// Bytes are a class file of the profile or have a fault, and not both: they say one class, or have one
/// fault.
pub fn law_spelled_or_refused()
    ensures either { (bytes : List ℕ) → AreBytes bytes → ((class : ClassSpelled) × IsClass bytes class) ⊎ ((fault : ClassFault) × IsFault bytes fault) }
    ensures not_both { (bytes : List ℕ) (class : ClassSpelled) (fault : ClassFault) → IsClass bytes class → IsFault bytes fault → ⊥ }
    ensures one_class { (bytes : List ℕ) (class other : ClassSpelled) → IsClass bytes class → IsClass bytes other → class ≡ other }
    ensures one_fault { (bytes : List ℕ) (fault other : ClassFault) → IsFault bytes fault → IsFault bytes other → fault ≡ other }
{}
