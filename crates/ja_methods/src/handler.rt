ghost use Rattle.std.specs.Prelude.{◌≡◌, ◌≤◌, ◌^◌, All, length, IfOk};
ghost use Rattle.std.specs.List.Sorted.{IsNonDecreasingBy};
ghost use Rattle.ja_code.specs.declared.instr.RawInstr.{RawInstr};
ghost use Rattle.ja_code.specs.declared.handler.RawHandler.{RawHandler};
ghost use Rattle.ja_methods.specs.Handlers.{NamesCaught, catch_of, handler_of, handlers_of};

use crate::place::index_of;
use ja_base::{Memory, Name, Seq};
use ja_code::{RawHandler, RawInstr};
use ja_hier::Hier;
use ja_ir::{Catch, Handler, Handlers};
use ja_pool::Pool;
use std::alloc::Global;

/// What an entry of an exception table catches.
fn catch_of(alloc: Global, hier: &Hier, pool: &Pool, catch_type: u16) -> Result<Catch, Memory>
    requires { NamesCaught pool.now catch_type }
    ensures { IfOk result (λ catch. catch ≡ catch_of hier.now pool.now catch_type) }
{
    if catch_type == 0 {
        return Ok(Catch::All);
    }
    let name = Name::of(alloc, pool.class_name(u32::from(catch_type)))?;
    match hier.class_named(&name) {
        None => Ok(Catch::Library),
        Some(class) => Ok(Catch::Program(class)),
    }
}

/// An entry of an exception table, by indices of instructions.
fn handler_of(
    alloc: Global,
    hier: &Hier,
    pool: &Pool,
    instrs: &[RawInstr],
    row: RawHandler,
) -> Result<Handler, Memory>
    requires order { IsNonDecreasingBy (λ (i : RawInstr). i.pc) instrs.now }
    requires few { length instrs.now ≤ 65535 }
    requires caught { NamesCaught pool.now row.catch_type }
    ensures { IfOk result (λ handler. handler ≡ handler_of hier.now pool.now instrs.now row) }
{
    let catch = catch_of(alloc, hier, pool, row.catch_type)?;
    Ok(Handler {
        start: index_of(instrs, u64::from(row.start)) as u32,
        end: index_of(instrs, u64::from(row.end)) as u32,
        target: index_of(instrs, u64::from(row.handler)) as u32,
        catch,
    })
}

/// The exception table, by indices of instructions.
pub fn handlers_of(
    alloc: Global,
    hier: &Hier,
    pool: &Pool,
    instrs: &[RawInstr],
    rows: &[RawHandler],
) -> Result<Handlers, Memory>
    requires order { IsNonDecreasingBy (λ (i : RawInstr). i.pc) instrs.now }
    requires few { length instrs.now ≤ 65535 }
    requires caught { All (λ (row : RawHandler). NamesCaught pool.now row.catch_type) rows.now }
    ensures { IfOk result (λ list. list ≡ handlers_of hier.now pool.now instrs.now rows.now) }
{
    let mut list = Seq::new(alloc);
    for row in rows {
        list.push(handler_of(alloc, hier, pool, instrs, *row)?)?;
    }
    Ok(list)
}
