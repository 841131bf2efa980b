ghost use Rattle.std.specs.Prelude.{◌<◌, OnOk};
ghost use Rattle.bdd_bench.specs.Ready.{IsReady};

use crate::failure::Failure;
use crate::pool::{Pool, SLOTS, Step};
use ja_bdd::Copies;
use ja_node_core::AnyAim;
use ja_node_table::NodeTable;

/// How the copy that two relations share is forgotten: one variable after the other, all variables
/// in one call, or all in the call that also makes the conjunction.
#[derive(Clone, Copy)]
pub enum Forgetting {
    Singly,
    AtOnce,
    InProduct,
}

fn one_copy(copy: u32) -> Copies {
    Copies {
        at_entry: copy == 0,
        at_present: copy == 1,
        at_next: copy == 2,
        at_callee: copy == 3,
    }
}

/// A relation with a copy's variables forgotten one after the other.
fn without(
    pool: &mut Pool,
    table: &NodeTable<AnyAim>,
    f: usize,
    copy: u32,
) -> Result<usize, Failure>
    requires ready { IsReady table.now pool.old }
    requires copy { copy < 4 }
    ensures { OnOk result (IsReady table.now pool.new) }
{
    let mut made = f;
    for slot in 0..SLOTS {
        made = pool.step(table, Step::Exists(4 * slot + copy), made, made)?;
    }
    Ok(made)
}

/// The relation that is composed of two, where the copy that both speak of is forgotten.
pub fn compose(
    pool: &mut Pool,
    table: &NodeTable<AnyAim>,
    forgetting: Forgetting,
    f: usize,
    g: usize,
    copy: u32,
) -> Result<usize, Failure>
    requires ready { IsReady table.now pool.old }
    requires copy { copy < 4 }
    ensures { OnOk result (IsReady table.now pool.new) }
{
    match forgetting {
        Forgetting::Singly => {
            let both = pool.step(table, Step::And, f, g)?;
            without(pool, table, both, copy)
        }
        Forgetting::AtOnce => {
            let both = pool.step(table, Step::And, f, g)?;
            pool.step(table, Step::ExistsAll(one_copy(copy)), both, both)
        }
        Forgetting::InProduct => pool.step(table, Step::AndExists(one_copy(copy)), f, g),
    }
}
