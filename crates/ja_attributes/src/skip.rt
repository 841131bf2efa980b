ghost use Rattle.std.specs.Prelude.{◌≡◌, Err, OnOk, IfErr, MatchResult};
ghost use Rattle.ja_bytes.specs.Reading.{Reading};
ghost use Rattle.ja_attributes.specs.declared.fault.AttributeFault.{AttributeFault};
ghost use Rattle.ja_attributes.specs.Part.{Reads};
ghost use Rattle.ja_attributes.specs.Attribute.{PassesAny};
ghost use Rattle.ja_attributes.specs.Faults.{any_attribute, any_attributes, IsAnyFault};
ghost use Rattle.ja_attributes.specs.InnerSteps.{IsWithin, onward};

use crate::AttributeFault;
use crate::attribute::attribute_in;
use crate::number::two_bytes;
use ja_bytes::Cursor;
use ja_pool::Pool;

/// Passes over one attribute.
fn any_attribute(c: &mut Cursor<'_>, base: u64, pool: &Pool) -> Result<(), AttributeFault>
    requires { IsWithin base c.old }
    ensures { Reads (λ u. u) (any_attribute pool.now) (onward base c.old) (onward base c.new) result }
{
    attribute_in(c, base, pool)?;
    Ok(())
}

/// Passes over the attributes of bytes that begin `base` bytes into the file.
pub(crate) fn any_attributes(
    c: &mut Cursor<'_>,
    base: u64,
    pool: &Pool,
) -> Result<(), AttributeFault>
    requires { IsWithin base c.old }
    ensures { Reads (λ u. u) (any_attributes pool.now) (onward base c.old) (onward base c.new) result }
{
    let count = two_bytes(c, base)?;
    for _done in 0..count {
        any_attribute(c, base, pool)?;
    }
    Ok(())
}

/// Passes over attributes, from their number on (JVM specification 4.7).
///
/// The name of each must be a text of the pool. Their contents are not read. At an error
/// nothing is said of the cursor.
pub fn skip_attributes(c: &mut Cursor<'_>, pool: &Pool) -> Result<(), AttributeFault>
    // What is passed over are attributes.
    ensures ok { OnOk result (PassesAny pool.now c.old c.new) }
    // Attributes are passed over.
    ensures only { (new : Reading) → PassesAny pool.now c.old new → MatchResult result (λ _. c.new ≡ new) (λ _. ⊥) }
    // An error is the first fault.
    ensures fault { IfErr result (IsAnyFault pool.now c.old) }
    // The first fault is the error.
    ensures first { (fault : AttributeFault) → IsAnyFault pool.now c.old fault → result ≡ Err fault }
{
    any_attributes(c, 0, pool)
}
