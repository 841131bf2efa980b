ghost use Rattle.std.specs.Prelude.{◌≡◌, ◌⊎◌, IsTrue, IsFalse, Option, codes, IfOk, IfErr, MatchResult};
ghost use Rattle.ja_bytes.specs.Reading.{Reading};
ghost use Rattle.ja_attributes.specs.declared.fault.AttributeFault.{AttributeFault};
ghost use Rattle.ja_attributes.specs.declared.fault.AttributeFault.TheVariants.{BadAttribute, Memory};
ghost use Rattle.ja_attributes.specs.declared.code.MethodCode.{MethodCode};
ghost use Rattle.ja_attributes.specs.Part.{ReadsUnless};
ghost use Rattle.ja_attributes.specs.Attribute.{PassesMethod};
ghost use Rattle.ja_attributes.specs.Faults.{with_code, is_due, only_code, method_attribute, method_attributes, IsMethodFault, OrMemory};

use crate::attribute::{is_named, next_attribute};
use crate::code::code_content;
use crate::number::two_bytes;
use crate::{AttributeFault, MethodCode};
use ja_bytes::Cursor;
use ja_pool::Pool;
use std::alloc::Global;

/// The Code attributes of a method, as far as they are read.
#[derive(Drop)]
pub enum Codes {
    Absent,
    Single(MethodCode),
    Several,
}

/// One more Code attribute.
fn with_code(found: Codes, code: MethodCode) -> Codes
    ensures { result ≡ with_code found code }
{
    match found {
        Codes::Absent => Codes::Single(code),
        Codes::Single(_) => Codes::Several,
        Codes::Several => Codes::Several,
    }
}

/// The Code attributes behind the next attribute of a method, where these stand before it.
fn method_attribute(
    alloc: Global,
    c: &mut Cursor<'_>,
    pool: &Pool,
    found: Codes,
) -> Result<Codes, AttributeFault>
    ensures { ReadsUnless Memory (λ x. x) (method_attribute pool.now found) c.old c.new result }
{
    let attribute = next_attribute(c, pool)?;
    if !is_named(pool, attribute.name, b"Code") {
        return Ok(found);
    }
    let code = code_content(alloc, &attribute, pool)?;
    Ok(with_code(found, code))
}

/// The code of a method that has these Code attributes, and needs a code or needs none.
fn due_code(
    found: Codes,
    needs_code: bool,
    flags_at: u64,
) -> Result<Option<MethodCode>, AttributeFault>
    ensures { MatchResult result (λ code. IsTrue (is_due needs_code found) × (code ≡ only_code found))
        (λ fault. IsFalse (is_due needs_code found) × (fault ≡ BadAttribute flags_at)) }
{
    match found {
        Codes::Absent if !needs_code => Ok(None),
        Codes::Single(code) if needs_code => Ok(Some(code)),
        _ => Err(AttributeFault::BadAttribute { at: flags_at }),
    }
}

/// The code that the attributes of a method give.
fn all_attributes(
    alloc: Global,
    c: &mut Cursor<'_>,
    pool: &Pool,
    needs_code: bool,
    flags_at: u64,
) -> Result<Option<MethodCode>, AttributeFault>
    ensures { ReadsUnless Memory (λ x. x) (method_attributes pool.now needs_code flags_at) c.old c.new result }
{
    let count = two_bytes(c, 0)?;
    let mut found = Codes::Absent;
    for _done in 0..count {
        found = method_attribute(alloc, c, pool, found)?;
    }
    due_code(found, needs_code, flags_at)
}

/// Reads the attributes of a method, from their number on (JVM specification 4.7 and 4.7.3).
///
/// A method that needs a code has exactly one Code attribute, and any other method has none. The name of
/// each attribute must be a text of the pool, those of the attributes inside a Code attribute too. A Code
/// attribute is judged where it stands, its content first and then its code. The number of Code attributes
/// is judged behind all attributes, and its fault names `flags_at`, the place of the method's flags. At an
/// error nothing is said of the cursor.
pub fn method_attributes(
    alloc: Global,
    c: &mut Cursor<'_>,
    pool: &Pool,
    needs_code: bool,
    flags_at: u64,
) -> Result<Option<MethodCode>, AttributeFault>
    // What is read is spelled so.
    ensures ok { IfOk result (PassesMethod pool.now needs_code c.old c.new) }
    // What is spelled so is read, unless memory runs out.
    ensures only { (new : Reading) (code : Option MethodCode) → PassesMethod pool.now needs_code c.old new code →
        MatchResult result (λ found. (found ≡ code) × (c.new ≡ new)) (λ fault. fault ≡ Memory) }
    // An error is the first fault, or want of memory.
    ensures fault { IfErr result (OrMemory (IsMethodFault pool.now needs_code flags_at c.old)) }
    // The first fault is the error, unless memory runs out.
    ensures first { (fault : AttributeFault) → IsMethodFault pool.now needs_code flags_at c.old fault →
        MatchResult result (λ _. ⊥) (λ error. (error ≡ fault) ⊎ (error ≡ Memory)) }
{
    all_attributes(alloc, c, pool, needs_code, flags_at)
}
