ghost use Rattle.std.specs.Prelude.{◌≡◌};
ghost use Rattle.ja_ir.specs.Lookup as lookup;

use ja_base::access_flags::{ABSTRACT, INTERFACE, STATIC};

/// Whether a field or a method belongs to its class and not to an object.
pub fn is_static(flags: u32) -> bool
    ensures { result ≡ lookup.is_static flags }
{
    flags & u32::from(STATIC) != 0
}

/// Whether a class is an interface.
pub fn is_interface(flags: u32) -> bool
    ensures { result ≡ lookup.is_interface flags }
{
    flags & u32::from(INTERFACE) != 0
}

/// Whether a class has no objects of its own, or a method has no code.
pub fn is_abstract(flags: u32) -> bool
    ensures { result ≡ lookup.is_abstract flags }
{
    flags & u32::from(ABSTRACT) != 0
}
