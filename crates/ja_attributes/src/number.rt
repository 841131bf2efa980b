//! Fields of bytes that begin `base` bytes into the file.

ghost use Rattle.std.specs.Prelude.{◌≡◌};
ghost use Rattle.ja_attributes.specs.declared.fault.AttributeFault.TheVariants.{End};
ghost use Rattle.ja_attributes.specs.Part.{u2, u4, Reads};
ghost use Rattle.ja_attributes.specs.InnerSteps.{IsWithin, onward};

use crate::AttributeFault;
use ja_bytes::Cursor;

/// A number of two bytes.
pub fn two_bytes(c: &mut Cursor<'_>, base: u64) -> Result<u16, AttributeFault>
    requires { IsWithin base c.old }
    ensures { Reads (λ n. n) (u2 End) (onward base c.old) (onward base c.new) result }
{
    match c.u2() {
        Ok(number) => Ok(number),
        Err(end) => Err(AttributeFault::End { at: base + end.at }),
    }
}

/// A number of four bytes.
pub fn four_bytes(c: &mut Cursor<'_>, base: u64) -> Result<u32, AttributeFault>
    requires { IsWithin base c.old }
    ensures { Reads (λ n. n) (u4 End) (onward base c.old) (onward base c.new) result }
{
    match c.u4() {
        Ok(number) => Ok(number),
        Err(end) => Err(AttributeFault::End { at: base + end.at }),
    }
}
