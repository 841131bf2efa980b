ghost use Rattle.std.specs.Prelude.{◌≡◌, ◌⊎◌, ℕ, Bool, Option};
ghost use Rattle.ja_bytes.specs.Reading.{Reading};
ghost use Rattle.ja_pool.specs.Table.{Table};
ghost use Rattle.ja_attributes.specs.declared.fault.AttributeFault.{AttributeFault};
ghost use Rattle.ja_attributes.specs.declared.code.MethodCode.{MethodCode};
ghost use Rattle.ja_attributes.specs.Part.{AreBytes};
ghost use Rattle.ja_attributes.specs.Attribute.{PassesAny, PassesField, PassesMethod};
ghost use Rattle.ja_attributes.specs.Faults.{IsAnyFault, IsFieldFault, IsMethodFault};

/// Bytes spell attributes or have a fault, and not both; they end at one place, and have one fault.
pub fn law_any_attributes()
    ensures either { (table : Table) (old : Reading) → AreBytes old.rest →
        ((new : Reading) × PassesAny table old new) ⊎ ((fault : AttributeFault) × IsAnyFault table old fault) }
    ensures not_both { (table : Table) (old new : Reading) (fault : AttributeFault) → PassesAny table old new → IsAnyFault table old fault → ⊥ }
    ensures one_end { (table : Table) (old new other : Reading) → PassesAny table old new → PassesAny table old other → new ≡ other }
    ensures one_fault { (table : Table) (old : Reading) (fault other : AttributeFault) → IsAnyFault table old fault → IsAnyFault table old other → fault ≡ other }
{}

/// Bytes spell the attributes of a field or have a fault, and not both; they say one thing, and have one fault.
pub fn law_field_attributes()
    ensures either { (table : Table) (old : Reading) → AreBytes old.rest →
        ((constant : Option ℕ) × (new : Reading) × PassesField table old new constant) ⊎ ((fault : AttributeFault) × IsFieldFault table old fault) }
    ensures not_both { (table : Table) (old new : Reading) (constant : Option ℕ) (fault : AttributeFault) →
        PassesField table old new constant → IsFieldFault table old fault → ⊥ }
    ensures one_meaning { (table : Table) (old new other : Reading) (a b : Option ℕ) →
        PassesField table old new a → PassesField table old other b → (a ≡ b) × (new ≡ other) }
    ensures one_fault { (table : Table) (old : Reading) (fault other : AttributeFault) →
        IsFieldFault table old fault → IsFieldFault table old other → fault ≡ other }
{}

/// Bytes spell the attributes of a method or have a fault, and not both; they say one thing, and have one fault.
pub fn law_method_attributes()
    ensures either { (table : Table) (needs_code : Bool) (flags_at : ℕ) (old : Reading) → AreBytes old.rest →
        ((code : Option MethodCode) × (new : Reading) × PassesMethod table needs_code old new code)
        ⊎ ((fault : AttributeFault) × IsMethodFault table needs_code flags_at old fault) }
    ensures not_both { (table : Table) (needs_code : Bool) (flags_at : ℕ) (old new : Reading) (code : Option MethodCode) (fault : AttributeFault) →
        PassesMethod table needs_code old new code → IsMethodFault table needs_code flags_at old fault → ⊥ }
    ensures one_meaning { (table : Table) (needs_code : Bool) (old new other : Reading) (a b : Option MethodCode) →
        PassesMethod table needs_code old new a → PassesMethod table needs_code old other b → (a ≡ b) × (new ≡ other) }
    ensures one_fault { (table : Table) (needs_code : Bool) (flags_at : ℕ) (old : Reading) (fault other : AttributeFault) →
        IsMethodFault table needs_code flags_at old fault → IsMethodFault table needs_code flags_at old other → fault ≡ other }
{}
