//! The content of a Code attribute (JVM specification 4.7.3).

ghost use Rattle.std.specs.Prelude.{◌≡◌, ◌+◌, ◌≤◌, ◌<◌, ◌^◌, [], length, IfOk};
ghost use Rattle.ja_attributes.specs.declared.fault.AttributeFault.TheVariants.{Memory};
ghost use Rattle.ja_attributes.specs.Part.{times, Reads, ReadsUnless};
ghost use Rattle.ja_attributes.specs.Faults.{handler, is_code_length, code_array, code_layout, in_content, code_content};
ghost use Rattle.ja_attributes.specs.InnerSteps.{onward, IsWithin, content_of, behind_all, seen, undecodable};

use crate::AttributeFault;
use crate::attribute::Attribute;
use crate::number::{four_bytes, two_bytes};
use crate::skip::any_attributes;
use ja_bytes::Cursor;
use ja_code::{Code, CodeFault, RawHandler, decode};
use ja_pool::Pool;
use std::alloc::Global;

/// The code of a method, and the size of its frame (JVM specification 4.7.3).
#[derive(Drop)]
pub struct MethodCode {
    pub code: Code,
    pub max_stack: u32,
    pub max_locals: u32,
}

/// The fields of a Code attribute, without the attributes in it.
#[derive(Drop)]
struct Fields<'a> {
    max_stack: u16,
    max_locals: u16,
    code: &'a [u8],
    rows: Vec<RawHandler>,
}

/// An entry of an exception table.
fn handler(c: &mut Cursor<'_>, base: u64) -> Result<RawHandler, AttributeFault>
    requires { IsWithin base c.old }
    ensures { Reads (λ h. h) handler (onward base c.old) (onward base c.new) result }
{
    let start = two_bytes(c, base)?;
    let end = two_bytes(c, base)?;
    let handler = two_bytes(c, base)?;
    let catch_type = two_bytes(c, base)?;
    Ok(RawHandler {
        start,
        end,
        handler,
        catch_type,
    })
}

/// The entries of an exception table.
fn handlers(
    alloc: Global,
    c: &mut Cursor<'_>,
    base: u64,
    count: u16,
) -> Result<Vec<RawHandler>, AttributeFault>
    requires { IsWithin base c.old }
    ensures count { IfOk result (λ rows. length rows.items ≡ count) }
    ensures reads { ReadsUnless Memory (λ rows. rows.items) (times count handler) (onward base c.old) (onward base c.new) result }
{
    let mut rows = Vec::new(alloc);
    for _done in 0..count {
        let row = handler(c, base)?;
        match rows.push(row) {
            Ok(()) => {}
            Err(_) => return Err(AttributeFault::Memory),
        }
    }
    Ok(rows)
}

/// Whether a code array may have this length (JVM specification 4.7.3).
fn is_code_length(len: u32) -> bool
    ensures { result ≡ is_code_length len }
{
    1 <= len && len <= 65535
}

/// The code array behind its length.
fn code_array<'a>(c: &mut Cursor<'a>, base: u64, at: u64) -> Result<&'a [u8], AttributeFault>
    requires { IsWithin base c.old }
    ensures short { IfOk result (λ code. length code.now ≤ 65535) }
    ensures reads { Reads (λ code. code.now) (code_array at) (onward base c.old) (onward base c.new) result }
{
    let len = four_bytes(c, base)?;
    if !is_code_length(len) {
        return Err(AttributeFault::BadAttribute { at });
    }
    match c.take(u64::from(len)) {
        Ok(code) => Ok(code),
        Err(end) => Err(AttributeFault::End { at: base + end.at }),
    }
}

/// The fields of the Code attribute that begins at a place.
fn fields_of<'a>(
    alloc: Global,
    c: &mut Cursor<'a>,
    base: u64,
    pool: &Pool,
    at: u64,
) -> Result<Fields<'a>, AttributeFault>
    requires { IsWithin base c.old }
    ensures short { IfOk result (λ f. length f.code.now ≤ 65535) }
    ensures few { IfOk result (λ f. length f.rows.items ≤ 65535) }
    ensures end { IfOk result (λ _. c.new.rest ≡ []) }
    ensures reads { ReadsUnless Memory (λ f. record { max_stack = f.max_stack; max_locals = f.max_locals; code = f.code.now; rows = f.rows.items })
        (code_layout pool.now at) (onward base c.old) (onward base c.new) result }
{
    let max_stack = two_bytes(c, base)?;
    let max_locals = two_bytes(c, base)?;
    let code = code_array(c, base, at)?;
    let count = two_bytes(c, base)?;
    let rows = handlers(alloc, c, base, count)?;
    any_attributes(c, base, pool)?;
    if !c.rest().is_empty() {
        return Err(AttributeFault::BadAttribute { at });
    }
    Ok(Fields {
        max_stack,
        max_locals,
        code,
        rows,
    })
}

/// A fault among the fields of the attribute that begins at a place.
fn in_content(at: u64, fault: AttributeFault) -> AttributeFault
    ensures { result ≡ in_content at fault }
{
    match fault {
        AttributeFault::End { .. } => AttributeFault::BadAttribute { at },
        other => other,
    }
}

/// The fault of a code array that is not decoded.
fn undecodable(fault: CodeFault) -> AttributeFault
    ensures { result ≡ undecodable fault }
{
    match fault {
        CodeFault::Memory => AttributeFault::Memory,
        wrong => AttributeFault::Undecodable(wrong),
    }
}

/// What a Code attribute spells.
pub fn code_content(
    alloc: Global,
    attribute: &Attribute<'_>,
    pool: &Pool,
) -> Result<MethodCode, AttributeFault>
    requires { attribute.now.from + length attribute.now.content.now < 2 ^ 64 }
    ensures { ReadsUnless Memory (λ code. code) (code_content pool.now attribute.now.at) (content_of (seen attribute.now)) (behind_all (content_of (seen attribute.now))) result }
{
    let mut c = Cursor::new(attribute.content);
    let fields = match fields_of(alloc, &mut c, attribute.from, pool, attribute.at) {
        Ok(fields) => fields,
        Err(fault) => return Err(in_content(attribute.at, fault)),
    };
    match decode(
        alloc,
        fields.code,
        pool.tags(),
        pool.dims(),
        fields.rows.as_slice(),
    ) {
        Ok(code) => Ok(MethodCode {
            code,
            max_stack: u32::from(fields.max_stack),
            max_locals: u32::from(fields.max_locals),
        }),
        Err(fault) => Err(undecodable(fault)),
    }
}
