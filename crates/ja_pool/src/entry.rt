ghost use Rattle.std.specs.Prelude.{◌≡◌, ◌≤◌, length, IfOk, IfErr};
ghost use Rattle.ja_pool.specs.Pool.{IsEntryFault};
ghost use Rattle.ja_pool.specs.InnerShape.{ReadsEntry, ReadsEntries, StopsAtEntry, OrMemory};

use crate::PoolFault;
use crate::payload::payload;
use crate::shape::{Shape, shape_of};
use crate::slot::{NOTHING, Slot, add};
use ja_bytes::Cursor;
use std::alloc::Global;

/// The next entry; `last` says whether one index is left. The place of a text is held as an offset from
/// `base`.
pub fn entry(c: &mut Cursor<'_>, base: u64, last: bool) -> Result<Slot, PoolFault>
    requires { base ≤ c.old.place }
    ensures ok { IfOk result (ReadsEntry c.old c.new base last) }
    ensures fault { IfErr result (IsEntryFault c.old.place last c.old.rest) }
{
    let place = c.place();
    let tag = match c.u1() {
        Ok(tag) => tag,
        Err(end) => return Err(PoolFault::End { at: end.at }),
    };
    let Some(shape) = shape_of(tag) else {
        return Err(PoolFault::BadTag { at: place, tag });
    };
    if last && shape.is_wide() {
        return Err(PoolFault::PoolWidth { at: place });
    }
    match payload(c, shape, tag, base) {
        Ok(form) => Ok(Slot { place, form }),
        Err(fault) => Err(fault),
    }
}

/// The entries for the indices below the count. Places of texts are held as offsets from where the cursor
/// stands.
pub fn entries(alloc: Global, c: &mut Cursor<'_>, count: u16) -> Result<Vec<Slot>, PoolFault>
    requires { 1 ≤ count }
    ensures ok { IfOk result (λ slots. ReadsEntries c.old c.new slots.items) }
    ensures full { IfOk result (λ slots. length slots.items ≡ count) }
    ensures fault { IfErr result (OrMemory (StopsAtEntry c.old count)) }
{
    let base = c.place();
    let mut slots = Vec::new(alloc);
    if slots.push(NOTHING).is_err() {
        return Err(PoolFault::Memory);
    }
    while slots.len() < count as usize {
        let last = slots.len() + 1 == count as usize;
        let slot = match entry(c, base, last) {
            Ok(slot) => slot,
            Err(fault) => return Err(fault),
        };
        match add(&mut slots, slot) {
            Ok(()) => {}
            Err(_) => return Err(PoolFault::Memory),
        }
    }
    Ok(slots)
}
