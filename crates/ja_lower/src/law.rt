ghost use Rattle.std.specs.Prelude.{◌≡◌, ℕ, List};
ghost use Rattle.ja_base.specs.declared.file.File.{File};
ghost use Rattle.ja_base.specs.declared.refusal.Refusal.{Refusal};
ghost use Rattle.ja_ir.specs.declared.program.Parts.{Parts};
ghost use Rattle.ja_class.specs.Meaning.{ClassSpelled};
ghost use Rattle.ja_lib.specs.Content.{Content};
ghost use Rattle.ja_lower.specs.Accept.{Accepts, Refuses};
ghost use Rattle.ja_lower.specs.Folder.{AreNamedApart};
ghost use Rattle.ja_lower.specs.Program.{IsProgramOf, IsRefusedWhole};

use ja_class::law_spelled_or_refused;
use ja_heads::law_one_heads;
use ja_lib::law_one_answer;
use ja_methods::law_one_method;

/// Classes make one program at most, have one refusal at most, and never both.
pub fn law_one_program()
    ensures one_program { (files : List (List ℕ)) (classes : List ClassSpelled) (content : Content) (p other : Parts) →
        IsProgramOf files classes content p → IsProgramOf files classes content other → p ≡ other }
    ensures one_refusal { (files : List (List ℕ)) (classes : List ClassSpelled) (refusal other : Refusal) →
        IsRefusedWhole files classes refusal → IsRefusedWhole files classes other → refusal ≡ other }
    ensures not_both { (files : List (List ℕ)) (classes : List ClassSpelled) (content : Content) (p : Parts) (refusal : Refusal) →
        IsProgramOf files classes content p → IsRefusedWhole files classes refusal → ⊥ }
{
    law_one_method();
    law_one_heads();
}

/// A folder, no two files of which have one name, is accepted as one program at most, refused for one
/// thing at most, and never both.
pub fn law_one_verdict()
    ensures one_program { (files : List File) (p other : Parts) → AreNamedApart files → Accepts files p → Accepts files other → p ≡ other }
    ensures one_refusal { (files : List File) (refusal other : Refusal) → AreNamedApart files → Refuses files refusal → Refuses files other → refusal ≡ other }
    ensures not_both { (files : List File) (p : Parts) (refusal : Refusal) → AreNamedApart files → Accepts files p → Refuses files refusal → ⊥ }
{
    law_one_program();
    law_one_answer();
    law_spelled_or_refused();
}
