ghost use Rattle.std.specs.Prelude.{◌≡◌, ◌<◌, All, IfOk, length, map};
ghost use Rattle.ja_hier.specs.declared.skip.Skip.TheVariants.{NotVirtual};
ghost use Rattle.ja_hier.specs.LookUps.{Finds};
ghost use Rattle.ja_heads.specs.Classes.{AreSelections};
ghost use Rattle.ja_heads.specs.Signatures.{selected};

use crate::Signature;
use crate::signature::signatures;
use ja_base::{ClassId, Memory, Seq};
use ja_hier::Hier;
use ja_ir::{Selection, Selections};
use std::alloc::Global;

/// What virtual calls on an object of a class select, for each name and descriptor of a method that the
/// class or one above it declares.
pub(crate) fn selections(
    alloc: Global,
    hier: &Hier,
    class: ClassId,
    supers: &[ClassId],
) -> Result<Selections, Memory>
    requires class { class.0 < length hier.now }
    requires supers { All (λ d. d.0 < length hier.now) supers.now }
    ensures { IfOk result (AreSelections hier.now class.0 supers.now) }
{
    let set = signatures(alloc, hier.heads().as_slice(), class, supers)?;
    select_all(alloc, hier, class, set.as_slice())
}

/// What virtual calls of these signatures select.
fn select_all(
    alloc: Global,
    hier: &Hier,
    class: ClassId,
    signatures: &[Signature],
) -> Result<Selections, Memory>
    requires { class.0 < length hier.now }
    ensures signatures { IfOk result (λ selections. map selected selections ≡ signatures.now) }
    ensures targets { IfOk result (All (λ selection. Finds hier.now NotVirtual selection.name selection.desc class.0 selection.target)) }
{
    let mut selections = Seq::new(alloc);
    for signature in signatures {
        selections.push(select(alloc, hier, class, signature)?)?;
    }
    Ok(selections)
}

/// What a virtual call of a signature selects.
fn select(
    alloc: Global,
    hier: &Hier,
    class: ClassId,
    signature: &Signature,
) -> Result<Selection, Memory>
    requires { class.0 < length hier.now }
    ensures signature { IfOk result (λ selection. selected selection ≡ signature.now) }
    ensures target { IfOk result (λ selection. Finds hier.now NotVirtual selection.name selection.desc class.0 selection.target) }
{
    let target = hier.select(class, &signature.name, &signature.desc);
    let name = signature.name.copy(alloc)?;
    let desc = signature.desc.copy(alloc)?;
    Ok(Selection { name, desc, target })
}
