//! Methods with their code (JVM specification 4.6, 4.7.3).

ghost use Rattle.std.specs.Prelude.{◌≡◌, ◌++◌, ◌∷◌, [], ℕ, List, codes, length, OnOk, IfOk};
ghost use Rattle.ja_attributes.specs.Attribute.{attributes_bytes, handler_bytes};
ghost use Rattle.ja_assembly.specs.InnerLabels.{places};
ghost use Rattle.ja_assembly.specs.Assembled.{u2, catch_index, row_of, text_index};
ghost use Rattle.ja_assembly.specs.Members.{ranges_in};
ghost use Rattle.ja_maker.specs.InnerWriting.{pool_in, IsFew, rows_in, content_bytes};

use crate::code_bytes::{Labels, place_or_0};
use crate::pool_bytes::{class_index, text_index};
use crate::put::{put_bytes, put_u2, put_u4};
use ja_assembly::{parted, place_behind};
use ja_base::{Bytes, Memory, Name};
use ja_listing::{Frame, Item};
use ja_writable::Wants;
use std::alloc::Global;

/// The index of what is caught, 0 for anything.
fn catch_index(alloc: Global, pool: &Wants, catch: &Option<Name>) -> Result<u64, Memory>
    requires { IsFew pool.now }
    ensures { IfOk result (λ index. index ≡ catch_index (pool_in pool.now) catch.now) }
{
    match catch {
        None => Ok(0),
        Some(name) => class_index(alloc, pool, name),
    }
}

/// The four numbers of an entry of the exception table.
fn put_row(out: &mut Bytes, start: u64, end: u64, handler: u64, catch: u64) -> Result<(), Memory>
    ensures { OnOk result (out.new ≡ out.old ++ (u2 start ++ (u2 end ++ (u2 handler ++ u2 catch)))) }
{
    put_u2(out, start)?;
    put_u2(out, end)?;
    put_u2(out, handler)?;
    put_u2(out, catch)
}

/// An entry of the exception table.
fn put_range(
    alloc: Global,
    out: &mut Bytes,
    pool: &Wants,
    labels: &Labels,
    start: &Name,
    end: &Name,
    handler: &Name,
    catch: &Option<Name>,
) -> Result<(), Memory>
    requires { IsFew pool.now }
    ensures { OnOk result (out.new ≡ out.old ++ handler_bytes (row_of (pool_in pool.now) (places labels.now) (record { start = start.now; end = end.now; handler = handler.now; catch = catch.now }))) }
{
    let caught = catch_index(alloc, pool, catch)?;
    put_row(
        out,
        place_or_0(labels, start),
        place_or_0(labels, end),
        place_or_0(labels, handler),
        caught,
    )
}

/// The number of entries of the exception table that come before the next method.
fn count_rows(items: &[Item]) -> Result<u64, Memory>
    ensures { IfOk result (λ count. (superclass : List ℕ) → count ≡ length (ranges_in superclass items.now)) }
{
    let mut count = 0u64;
    let mut rest = items;
    while let Some((item, behind)) = parted(rest) {
        match item {
            Item::Try { .. } => count = place_behind(count, 1)?,
            Item::Method { .. } => return Ok(count),
            Item::Initializer => return Ok(count),
            Item::Field { .. } => {}
            Item::Instruction { .. } => {}
        }
        rest = behind;
    }
    Ok(count)
}

/// The entries of the exception table that come before the next method.
fn put_rows(
    alloc: Global,
    out: &mut Bytes,
    pool: &Wants,
    labels: &Labels,
    items: &[Item],
) -> Result<(), Memory>
    requires { IsFew pool.now }
    ensures { OnOk result ((superclass : List ℕ) → out.new ≡ out.old ++ rows_in (pool_in pool.now) (places labels.now) (ranges_in superclass items.now)) }
{
    let mut rest = items;
    while let Some((item, behind)) = parted(rest) {
        match item {
            Item::Try {
                start,
                end,
                handler,
                catch,
            } => {
                put_range(alloc, out, pool, labels, start, end, handler, catch)?;
            }
            Item::Method { .. } => return Ok(()),
            Item::Initializer => return Ok(()),
            Item::Field { .. } => {}
            Item::Instruction { .. } => {}
        }
        rest = behind;
    }
    Ok(())
}

/// The content of the attribute of a code.
pub(crate) fn content_of(
    alloc: Global,
    pool: &Wants,
    labels: &Labels,
    frame: Frame,
    code: &Bytes,
    behind: &[Item],
) -> Result<Bytes, Memory>
    requires { IsFew pool.now }
    ensures { IfOk result (λ content. (superclass : List ℕ) → content ≡ content_bytes (pool_in pool.now) (places labels.now) frame code.now (ranges_in superclass behind.now)) }
{
    let mut content = Bytes::new(alloc);
    put_u2(&mut content, u64::from(frame.stack.size))?;
    put_u2(&mut content, u64::from(frame.locals.size))?;
    put_u4(&mut content, code.len())?;
    put_bytes(&mut content, code.as_slice())?;
    put_u2(&mut content, count_rows(behind)?)?;
    put_rows(alloc, &mut content, pool, labels, behind)?;
    put_u2(&mut content, 0)?;
    Ok(content)
}

/// The attributes of a method with this content of its code.
pub(crate) fn put_code(
    alloc: Global,
    out: &mut Bytes,
    pool: &Wants,
    content: &Bytes,
) -> Result<(), Memory>
    requires { IsFew pool.now }
    ensures { OnOk result (out.new ≡ out.old ++ attributes_bytes (record { attribute_name_index = text_index (pool_in pool.now) (codes "Code"); info = content.now } ∷ [])) }
{
    let name = text_index(alloc, pool, b"Code")?;
    put_u2(out, 1)?;
    put_u2(out, name)?;
    put_u4(out, content.len())?;
    put_bytes(out, content.as_slice())
}
