ghost use Rattle.std.specs.Prelude.{◌≡◌};
ghost use Rattle.ja_hier.specs.Faults as faults;
ghost use Rattle.ja_hier.specs.LookUps as lookups;

use crate::skip::Skip;
use ja_base::access_flags::{PRIVATE, PROTECTED, PUBLIC, STATIC};
use ja_ir::is_abstract;

/// Whether the method is neither private nor static.
pub fn is_virtual(flags: u32) -> bool
    ensures { result ≡ faults.is_virtual flags }
{
    flags & u32::from(PRIVATE) == 0 && flags & u32::from(STATIC) == 0
}

/// Whether only classes of the same package may override the method.
pub fn is_package_private(flags: u32) -> bool
    ensures { result ≡ faults.is_package_private flags }
{
    flags & u32::from(PUBLIC) == 0 && flags & u32::from(PROTECTED) == 0 && is_virtual(flags)
}

/// Whether a look-up passes over methods of these flags.
pub fn skips(skip: Skip, flags: u32) -> bool
    ensures { result ≡ lookups.skips skip flags }
{
    match skip {
        Skip::NoMethod => false,
        Skip::NotVirtual => !is_virtual(flags),
        Skip::NoDefault => !(is_virtual(flags) && !is_abstract(flags)),
    }
}
