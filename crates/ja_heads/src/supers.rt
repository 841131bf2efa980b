ghost use Rattle.std.specs.Prelude.{◌≡◌, ◌<◌, ◌^◌, ◌++◌, ◌∷◌, [], All, IfOk, OnOk, filter, nat_lt};
ghost use Rattle.ja_heads.specs.Signatures.{numbers_of};
ghost use Rattle.ja_heads.specs.InnerSupers.{with_own};

use ja_base::{ClassId, Memory, Seq};
use ja_ir::ClassIds;
use std::alloc::Global;

/// A class and those above it, in ascending order.
pub(crate) fn at_or_above(alloc: Global, class: ClassId, above: &[u64]) -> Result<ClassIds, Memory>
    requires { All (λ d. d < 2 ^ 32) above.now }
    ensures { IfOk result (λ ids. numbers_of ids ≡ with_own class.0 above.now) }
{
    let mut ids = Seq::new(alloc);
    add_lower(&mut ids, class, above)?;
    ids.push(class)?;
    add_higher(&mut ids, class, above)?;
    Ok(ids)
}

/// Adds the classes of lower numbers.
fn add_lower(ids: &mut ClassIds, class: ClassId, above: &[u64]) -> Result<(), Memory>
    requires { All (λ d. d < 2 ^ 32) above.now }
    ensures { OnOk result (numbers_of ids.new ≡ numbers_of ids.old ++ filter (λ d. nat_lt d class.0) above.now) }
{
    for d in above {
        if *d < class.0 as u64 {
            ids.push(ClassId(*d as u32))?;
        }
    }
    Ok(())
}

/// Adds the classes of higher numbers.
fn add_higher(ids: &mut ClassIds, class: ClassId, above: &[u64]) -> Result<(), Memory>
    requires { All (λ d. d < 2 ^ 32) above.now }
    ensures { OnOk result (numbers_of ids.new ≡ numbers_of ids.old ++ filter (λ d. nat_lt class.0 d) above.now) }
{
    for d in above {
        if *d > class.0 as u64 {
            ids.push(ClassId(*d as u32))?;
        }
    }
    Ok(())
}
