ghost use Rattle.std.specs.Prelude.{◌≡◌, ℕ, List};
ghost use Rattle.ja_lib.specs.Content.{Content};
ghost use Rattle.ja_lib.specs.declared.fault.TableFault.{TableFault};
ghost use Rattle.ja_lib.specs.declared.fault.TableFault.TheVariants as faults;
ghost use Rattle.ja_lib.specs.File.{IsTableFile, IsFaultOf};

/// Bytes are a table file of one content at most, have one first fault at most, and never have both. Want
/// of memory is apart: it is no fault of the bytes.
pub fn law_one_answer()
    ensures one_content { (bytes : List ℕ) (content other : Content) → IsTableFile bytes content → IsTableFile bytes other → content ≡ other }
    ensures not_both { (bytes : List ℕ) (content : Content) (fault : TableFault) → (fault ≡ faults.Memory → ⊥) → IsTableFile bytes content → IsFaultOf bytes fault → ⊥ }
    ensures one_fault { (bytes : List ℕ) (fault other : TableFault) → (fault ≡ faults.Memory → ⊥) → (other ≡ faults.Memory → ⊥) →
        IsFaultOf bytes fault → IsFaultOf bytes other → fault ≡ other }
{}
