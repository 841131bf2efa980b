ghost use Rattle.std.specs.Prelude.{ℕ, List};
ghost use Rattle.ja_class.specs.Meaning.{ClassSpelled};
ghost use Rattle.ja_class.specs.ClassFile.{IsClass};
ghost use Rattle.ja_listing.specs.Listed.{Listed};
ghost use Rattle.ja_assembly.specs.Written.{IsWritten};
ghost use Rattle.ja_assembly.specs.ReadBack.{IsAsListed};

use ja_attributes::law_method_attributes;
use ja_class::law_spelled_or_refused;

/// Whoever reads the class file of a listed class gets a class, and it is as listed.
pub fn law_read_back()
    ensures class { (c : Listed) (bytes : List ℕ) → IsWritten c bytes → (class : ClassSpelled) × IsClass bytes class }
    ensures listed { (c : Listed) (bytes : List ℕ) (class : ClassSpelled) → IsWritten c bytes → IsClass bytes class → IsAsListed c class }
{
    law_method_attributes();
    law_spelled_or_refused();
}
