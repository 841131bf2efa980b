ghost use Rattle.std.specs.Prelude.{◌≡◌, ◌+◌, ◌++◌, ◌∷◌, ◌<◌, ◌≤◌, ◌^◌, [], All, IfOk, OnOk, length, sum_by};
ghost use Rattle.ja_hier.specs.declared.starts.Member.TheVariants.{Method};
ghost use Rattle.ja_hier.specs.Members.{count_of};
ghost use Rattle.ja_heads.specs.Initializers as specs;
ghost use Rattle.ja_heads.specs.Initializers.{initializers_from, initializers_in, initializers_of};
ghost use Rattle.ja_heads.specs.Signatures.{numbers_of};
ghost use Rattle.ja_base.specs.Limit.{max_numbered};

use ja_base::{ClassId, Memory, MethodId, Seq};
use ja_hier::Hier;
use ja_ir::{HeadMethod, MethodIds, is_abstract, is_static};
use std::alloc::Global;

/// The class initialisers that these classes declare, one class after another.
pub(crate) fn initializers(
    alloc: Global,
    hier: &Hier,
    classes: &[ClassId],
) -> Result<MethodIds, Memory>
    requires inside { All (λ d. d.0 < length hier.now) classes.now }
    requires methods { sum_by (count_of Method) hier.now ≤ max_numbered }
    ensures { IfOk result (λ inits. inits ≡ initializers_of hier.now (numbers_of classes.now)) }
{
    let mut inits = Seq::new(alloc);
    for class in classes {
        add_class(&mut inits, hier, *class)?;
    }
    Ok(inits)
}

/// Adds the class initialisers that a class declares.
fn add_class(inits: &mut MethodIds, hier: &Hier, class: ClassId) -> Result<(), Memory>
    requires inside { class.0 < length hier.now }
    requires methods { sum_by (count_of Method) hier.now ≤ max_numbered }
    ensures { OnOk result (inits.new ≡ inits.old ++ initializers_in hier.now class.0) }
{
    let head = hier.heads().at(class.0 as u64);
    let first = hier.first_method(class);
    let methods = head.methods.as_slice();
    add_methods(inits, first, methods)?;
    Ok(())
}

/// Adds the class initialisers among these methods, which are numbered from `first` on.
fn add_methods(inits: &mut MethodIds, first: u64, methods: &[HeadMethod]) -> Result<(), Memory>
    requires { first + length methods.now ≤ max_numbered }
    ensures { OnOk result (inits.new ≡ inits.old ++ initializers_from first methods.now) }
{
    for (k, method) in methods.iter().enumerate() {
        add_method(inits, first + k as u64, method)?;
    }
    Ok(())
}

/// Adds the method of this number, if it is a class initialiser.
fn add_method(inits: &mut MethodIds, number: u64, method: &HeadMethod) -> Result<(), Memory>
    requires { number < 2 ^ 32 }
    ensures { OnOk result (inits.new ≡ inits.old ++ initializers_from number (method.now ∷ [])) }
{
    if is_initializer(method) {
        inits.push(MethodId(number as u32))?;
    }
    Ok(())
}

/// Whether a method is a class initialiser.
fn is_initializer(method: &HeadMethod) -> bool
    ensures { result ≡ specs.is_initializer method.now }
{
    method.name.bytes() == b"<clinit>".as_slice()
        && (method.desc.bytes() == b"()V".as_slice()
            && (is_static(method.flags) && !is_abstract(method.flags)))
}
