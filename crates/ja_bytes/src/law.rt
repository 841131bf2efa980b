ghost use Rattle.std.specs.Prelude.{◌≡◌, ◌⊎◌, ℕ, List, Option};
ghost use Rattle.ja_base.specs.declared.java_type.JavaType.{JavaType};
ghost use Rattle.ja_base.specs.Descriptor.{IsField, IsMethod};
ghost use Rattle.ja_bytes.specs.Text.{IsModifiedUtf8, IsFirstWrong};
ghost use Rattle.ja_bytes.specs.Longest.{IsWrongAt};
ghost use Rattle.ja_bytes.specs.DescriptorText.{IsFieldDesc, IsMethodText};

/// A descriptor spells one type, or one list of parameters and one result: so what `method_desc` and
/// `field_desc` read is the only reading.
pub fn law_one_reading()
    ensures field { (text : List ℕ) (type other : JavaType) → IsField text type → IsField text other → type ≡ other }
    ensures method { (text : List ℕ) (params others : List JavaType) (result other : Option JavaType) →
        IsMethod text params result → IsMethod text others other → (params ≡ others) × (result ≡ other) }
{}

/// Each list of bytes is a text or has a first wrong character, and it is a descriptor or is wrong at a
/// place: so nothing but want of memory keeps a reader from one of these answers.
pub fn law_right_or_wrong()
    ensures text { (bytes : List ℕ) → IsModifiedUtf8 bytes ⊎ ((at : ℕ) × IsFirstWrong bytes at) }
    ensures field { (bytes : List ℕ) → IsFieldDesc bytes ⊎ ((at : ℕ) × IsWrongAt IsFieldDesc bytes at) }
    ensures method { (bytes : List ℕ) → IsMethodText bytes ⊎ ((at : ℕ) × IsWrongAt IsMethodText bytes at) }
{}
