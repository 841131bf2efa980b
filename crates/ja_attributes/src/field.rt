ghost use Rattle.std.specs.Prelude.{◌≡◌, ℕ, Option, length, Err, IfOk, IfErr, MatchResult};
ghost use Rattle.std.specs.Int.{w16, to_be_bytes};
ghost use Rattle.ja_bytes.specs.Reading.{Reading};
ghost use Rattle.ja_attributes.specs.declared.fault.AttributeFault.{AttributeFault};
ghost use Rattle.ja_attributes.specs.Part.{Reads};
ghost use Rattle.ja_attributes.specs.Attribute.{PassesField, is_value_tag};
ghost use Rattle.ja_attributes.specs.Faults.{first_constant, field_attribute, field_attributes, IsFieldFault};
ghost use Rattle.ja_attributes.specs.InnerSteps.{content_of, behind_all, seen};

use crate::AttributeFault;
use crate::attribute::{Attribute, is_named, next_attribute};
use crate::number::two_bytes;
use ja_base::tag::{DOUBLE, FLOAT, INTEGER, LONG, STRING, Tag};
use ja_bytes::Cursor;
use ja_pool::Pool;

/// Whether an entry with this tag may be the value of a field (JVM specification 4.7.2).
fn is_value_tag(tag: Tag) -> bool
    ensures { result ≡ is_value_tag tag }
{
    matches!(tag, INTEGER | FLOAT | LONG | DOUBLE | STRING)
}

/// The number that two bytes spell.
fn number_of(bytes: &[u8]) -> u16
    requires { length bytes.now ≡ 2 }
    ensures { to_be_bytes w16 result ≡ bytes.now }
{
    u16::from_be_bytes([bytes[0], bytes[1]])
}

/// What the first ConstantValue attribute of a field names, where this one was found before.
fn first_constant(
    attribute: &Attribute<'_>,
    pool: &Pool,
    found: Option<u16>,
) -> Result<Option<u16>, AttributeFault>
    ensures { Reads (λ x. x) (first_constant pool.now found attribute.now.at) (content_of (seen attribute.now)) (behind_all (content_of (seen attribute.now))) result }
{
    if found.is_some() {
        return Err(AttributeFault::BadAttribute { at: attribute.at });
    }
    if attribute.content.len() != 2 {
        return Err(AttributeFault::BadAttribute { at: attribute.at });
    }
    let index = number_of(attribute.content);
    if !is_value_tag(pool.tag(u32::from(index))) {
        return Err(AttributeFault::BadIndex { at: attribute.from });
    }
    Ok(Some(index))
}

/// What an attribute of a field names, where this was found before.
fn field_attribute(
    c: &mut Cursor<'_>,
    pool: &Pool,
    found: Option<u16>,
) -> Result<Option<u16>, AttributeFault>
    ensures { Reads (λ x. x) (field_attribute pool.now found) c.old c.new result }
{
    let attribute = next_attribute(c, pool)?;
    if !is_named(pool, attribute.name, b"ConstantValue") {
        return Ok(found);
    }
    first_constant(&attribute, pool, found)
}

/// What the attributes of a field name.
fn all_attributes(c: &mut Cursor<'_>, pool: &Pool) -> Result<Option<u16>, AttributeFault>
    ensures { Reads (λ x. x) (field_attributes pool.now) c.old c.new result }
{
    let count = two_bytes(c, 0)?;
    let mut found = None;
    for _done in 0..count {
        found = field_attribute(c, pool, found)?;
    }
    Ok(found)
}

/// Reads the attributes of a field, from their number on (JVM specification 4.7 and 4.7.2).
///
/// The answer is the pool index that the ConstantValue attribute names, where there is one: that of an
/// Integer, a Float, a Long, a Double or a String. The name of each attribute must be a text of the pool.
/// At an error nothing is said of the cursor.
pub fn field_attributes(c: &mut Cursor<'_>, pool: &Pool) -> Result<Option<u16>, AttributeFault>
    // What is read is spelled so.
    ensures ok { IfOk result (PassesField pool.now c.old c.new) }
    // What is spelled so is read.
    ensures only { (new : Reading) (constant : Option ℕ) → PassesField pool.now c.old new constant →
        MatchResult result (λ found. (found ≡ constant) × (c.new ≡ new)) (λ _. ⊥) }
    // An error is the first fault.
    ensures fault { IfErr result (IsFieldFault pool.now c.old) }
    // The first fault is the error.
    ensures first { (fault : AttributeFault) → IsFieldFault pool.now c.old fault → result ≡ Err fault }
{
    all_attributes(c, pool)
}
