ghost use Rattle.std.specs.Prelude.{◌≡◌, ◌≤◌, IfOk, IfErr, MatchResult};
ghost use Rattle.ja_bytes.specs.Reading.{Reading};
ghost use Rattle.ja_pool.specs.Table.{Table};
ghost use Rattle.ja_pool.specs.Pool.{PassesPool, IsFirstFault};
ghost use Rattle.ja_pool.specs.InnerShape.{ReadsTable, IsFaultBehind, OrMemory};

use crate::check::first_wrong;
use crate::entry::entries;
use crate::look::all_tags;
use crate::{Pool, PoolFault};
use ja_bytes::Cursor;
use std::alloc::Global;

/// The pool behind its count.
fn pool_behind(alloc: Global, c: &mut Cursor<'_>, count: u16) -> Result<Pool, PoolFault>
    requires { 1 ≤ count }
    ensures ok { IfOk result (ReadsTable c.old c.new count) }
    ensures fault { IfErr result (OrMemory (IsFaultBehind c.old count)) }
{
    let bytes = c.rest();
    let base = c.place();
    let slots = match entries(alloc, c, count) {
        Ok(slots) => slots,
        Err(fault) => return Err(fault),
    };
    let tags = match all_tags(alloc, &slots) {
        Ok(tags) => tags,
        Err(_) => return Err(PoolFault::Memory),
    };
    let end = c.place();
    if let Some(at) = first_wrong(&tags, &slots) {
        return Err(PoolFault::BadIndex { at });
    }
    let (texts, _) = bytes.split_at((end - base) as usize);
    match Pool::new(alloc, texts, slots, tags) {
        Ok(pool) => Ok(pool),
        Err(_) => Err(PoolFault::Memory),
    }
}

/// The pool from its count on.
fn pool_from(alloc: Global, c: &mut Cursor<'_>) -> Result<Pool, PoolFault>
    ensures ok { IfOk result (PassesPool c.old c.new) }
    ensures fault { IfErr result (OrMemory (IsFirstFault c.old)) }
{
    let start = c.place();
    let count = match c.u2() {
        Ok(count) => count,
        Err(end) => return Err(PoolFault::End { at: end.at }),
    };
    if count == 0 {
        return Err(PoolFault::BadIndex { at: start });
    }
    pool_behind(alloc, c, count)
}

/// Reads a constant pool (JVM specification 4.4), from its count on.
///
/// At `Ok` the cursor stands right behind the pool. Any other answer but want of memory is the first fault:
/// of the count, of the entries in their order, or of their index fields in their order. Nothing is said of
/// the cursor then.
pub fn read_pool(alloc: Global, c: &mut Cursor<'_>) -> Result<Pool, PoolFault>
    // What is read is spelled so.
    ensures ok { IfOk result (PassesPool c.old c.new) }
    // What is spelled so is read, unless memory runs out.
    ensures only { (new : Reading) (table : Table) → PassesPool c.old new table →
        MatchResult result (λ pool. (pool ≡ table) × (c.new ≡ new)) (λ fault. fault ≡ PoolFault.Memory) }
    // Which fault it is.
    ensures fault { IfErr result (OrMemory (IsFirstFault c.old)) }
{
    pool_from(alloc, c)
}
