ghost use Rattle.std.specs.Prelude.{◌≡◌, ℕ, List, All};
ghost use Rattle.ja_ir.specs.declared.head.ClassHead.{ClassHead};
ghost use Rattle.ja_ir.specs.declared.method.Instr.{Instr};
ghost use Rattle.ja_ir.specs.declared.method.Method.{Method};
ghost use Rattle.ja_class.specs.Meaning.{ClassSpelled};
ghost use Rattle.ja_class.specs.ClassFile.{IsSpelled};
ghost use Rattle.ja_lib.specs.Content.{Content, IsCategorized};
ghost use Rattle.ja_operations.specs.Agreement.{IsRowAbout};
ghost use Rattle.ja_methods.specs.declared.fault.MethodFault.{MethodFault};
ghost use Rattle.ja_methods.specs.declared.site.MethodSite.{MethodSite};
ghost use Rattle.ja_methods.specs.Method.{IsMethodOf};
ghost use Rattle.ja_methods.specs.Refusal.{IsRefused};
ghost use Rattle.ja_methods.specs.Sites.{AreSitesOf};
ghost use Rattle.ja_methods.specs.Whole.{IsWholeIn, NamesCall};

use ja_bytes::law_one_reading;
use ja_kinds::law_one_answer;
use ja_operations::{law_one_operation, law_operations_agree};

/// The method of a class of the profile is whole, as far as other methods have no part in it, and the rows of
/// its calls are about the categories of the table.
pub fn law_whole_method()
    ensures whole { (heads : List ClassHead) (table : Content) (class : ClassSpelled) → IsSpelled class → (c m : ℕ) (method : Method) →
        IsMethodOf heads table class c m method → IsWholeIn heads method }
    ensures about { (heads : List ClassHead) (table : Content) → IsCategorized table → (class : ClassSpelled) → IsSpelled class → (c m : ℕ) (method : Method) →
        IsMethodOf heads table class c m method → All (λ instr. IsRowAbout table.categories instr.op) method.code }
{
    law_one_reading();
    law_operations_agree();
}

/// The sink calls of a method name calls and some of their arguments.
pub fn law_sites_name_calls()
    ensures { (heads : List ClassHead) (list : List Instr) (sites : List MethodSite) → AreSitesOf heads list sites → All (NamesCall list) sites }
{}

/// A class has at most one method of a number, and at most one refusal of it, and never both.
pub fn law_one_method()
    ensures one_method { (heads : List ClassHead) (table : Content) (class : ClassSpelled) (c m : ℕ) (method other : Method) →
        IsMethodOf heads table class c m method → IsMethodOf heads table class c m other → method ≡ other }
    ensures one_refusal { (heads : List ClassHead) (class : ClassSpelled) (c m : ℕ) (refusal other : MethodFault) →
        IsRefused heads class c m refusal → IsRefused heads class c m other → refusal ≡ other }
    ensures not_both { (heads : List ClassHead) (table : Content) (class : ClassSpelled) (c m : ℕ) (method : Method) (refusal : MethodFault) →
        IsMethodOf heads table class c m method → IsRefused heads class c m refusal → ⊥ }
{
    law_one_answer();
    law_one_operation();
    law_one_reading();
}
