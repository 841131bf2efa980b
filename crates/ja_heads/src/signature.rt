ghost use Rattle.std.specs.Prelude.{◌≡◌, ◌<◌, ◌++◌, ◌∷◌, [], List, All, OnOk, IfOk, length, map};
ghost use Rattle.ja_heads.specs.declared.signature.Signature as declared;
ghost use Rattle.ja_heads.specs.Signatures.{first_seen, numbers_of, own_first, signature_of, signatures_of};
ghost use Rattle.ja_heads.specs.InnerSignatures.{signatures_beside};

use indexmap::IndexSet;
use ja_base::{ClassId, Memory, Name};
use ja_ir::{ClassHead, HeadMethod};
use std::alloc::Global;

/// The name and descriptor of a method.
#[derive(Drop, PartialEq, Eq, Hash)]
pub struct Signature {
    pub name: Name,
    pub desc: Name,
}

/// The signatures of the methods that a class and the other classes above it declare, each at the place
/// where it is first seen.
pub(crate) fn signatures(
    alloc: Global,
    heads: &[ClassHead],
    class: ClassId,
    supers: &[ClassId],
) -> Result<IndexSet<Signature>, Memory>
    requires class { class.0 < length heads.now }
    requires supers { All (λ d. d.0 < length heads.now) supers.now }
    ensures { IfOk result (λ set. set.keys ≡ first_seen (signatures_of heads.now (own_first class.0 (numbers_of supers.now)))) }
{
    let mut set = IndexSet::new(alloc);
    add_class(alloc, &mut set, heads[class.0 as usize].methods.as_slice())?;
    for d in supers {
        add_other(alloc, &mut set, heads, class, *d)?;
    }
    Ok(set)
}

/// Adds the signatures of the methods of another class.
fn add_other(
    alloc: Global,
    set: &mut IndexSet<Signature>,
    heads: &[ClassHead],
    class: ClassId,
    other: ClassId,
) -> Result<(), Memory>
    requires { other.0 < length heads.now }
    ensures { OnOk result ((seen : List declared.Signature) → set.old.keys ≡ first_seen seen → set.new.keys ≡ first_seen (seen ++ signatures_beside heads.now class.0 other.0)) }
{
    if other.0 == class.0 {
        return Ok(());
    }
    add_class(alloc, set, heads[other.0 as usize].methods.as_slice())?;
    Ok(())
}

/// Adds the signatures of the methods of a class.
fn add_class(
    alloc: Global,
    set: &mut IndexSet<Signature>,
    methods: &[HeadMethod],
) -> Result<(), Memory>
    ensures { OnOk result ((seen : List declared.Signature) → set.old.keys ≡ first_seen seen → set.new.keys ≡ first_seen (seen ++ map signature_of methods.now)) }
{
    for method in methods {
        add_method(alloc, set, method)?;
    }
    Ok(())
}

/// Adds the signature of a method, where it is new.
fn add_method(
    alloc: Global,
    set: &mut IndexSet<Signature>,
    method: &HeadMethod,
) -> Result<(), Memory>
    ensures { OnOk result ((seen : List declared.Signature) → set.old.keys ≡ first_seen seen → set.new.keys ≡ first_seen (seen ++ signature_of method.now ∷ [])) }
{
    let name = method.name.copy(alloc)?;
    let desc = method.desc.copy(alloc)?;
    set.insert_full(Signature { name, desc })?;
    Ok(())
}
