ghost use Rattle.std.specs.Prelude.{◌≡◌, ◌<◌, length, map, false, All, IfOk};
ghost use Rattle.ja_ir.specs.declared.head.ClassHead.{ClassHead};
ghost use Rattle.ja_supertypes.specs.InnerForeign as spec;
ghost use Rattle.ja_supertypes.specs.InnerForeign.{is_foreign, is_some_foreign, names_foreign, AreRaised};
ghost use Rattle.std.specs.List.{list_any};

use indexmap::IndexSet;
use ja_base::{Flags, Memory, Name, Numbers, Seq};
use ja_ir::ClassHead;
use std::alloc::Global;

/// Whether the name is one of the library and not `java/lang/Object`.
fn is_foreign(names: &IndexSet<Name>, name: &Name) -> bool
    ensures { result ≡ is_foreign names.now.keys name.now }
{
    names.get_index_of(name).is_none() && name.bytes() != b"java/lang/Object".as_slice()
}

/// The same of a name, if there is one.
fn is_some_foreign(names: &IndexSet<Name>, name: &Option<Name>) -> bool
    ensures { result ≡ is_some_foreign names.now.keys name.now }
{
    match name {
        None => false,
        Some(name) => is_foreign(names, name),
    }
}

/// Whether one of the names is such a name.
fn has_foreign(names: &IndexSet<Name>, listed: &[Name]) -> bool
    ensures { result ≡ list_any (is_foreign names.now.keys) listed.now }
{
    listed.iter().any(|name| is_foreign(names, name))
}

/// Whether a class itself names a library class other than `java/lang/Object`.
fn names_foreign(names: &IndexSet<Name>, head: &ClassHead) -> bool
    ensures { result ≡ names_foreign names.now.keys head.now }
{
    is_some_foreign(names, &head.superclass) || has_foreign(names, head.interfaces.as_slice())
}

/// For each class whether it names such a class itself.
pub fn own_flags(
    alloc: Global,
    heads: &[ClassHead],
    names: &IndexSet<Name>,
) -> Result<Vec<bool>, Memory>
    ensures { IfOk result (λ flags. flags.items ≡ map (names_foreign names.now.keys) heads.now) }
{
    let mut flags = Vec::new(alloc);
    for head in heads {
        flags.push(names_foreign(names, head))?;
    }
    Ok(flags)
}

/// For each class whether it or a class above it has the flag.
pub fn raise(alloc: Global, own: &[bool], supers: &[Numbers]) -> Result<Flags, Memory>
    requires sizes { length own.now ≡ length supers.now }
    requires inside { All (λ list. All (λ d. d < length own.now) list) supers.now }
    ensures { IfOk result (λ flags. AreRaised own.now supers.now flags) }
{
    let mut flags = Seq::new(alloc);
    for class in 0..supers.len() {
        let raised = is_raised(own, supers[class].as_slice());
        let flag = own[class] || raised;
        flags.push(flag)?;
    }
    Ok(flags)
}

/// Whether one of these classes has the flag.
fn is_raised(own: &[bool], supers: &[u64]) -> bool
    requires { All (λ d. d < length own.now) supers.now }
    ensures { result ≡ spec.is_raised own.now supers.now }
{
    for above in supers {
        if own[*above as usize] {
            return true;
        }
    }
    false
}
