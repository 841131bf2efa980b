ghost use Rattle.std.specs.Prelude.{◌≡◌, IfOk, nat_lt};
ghost use Rattle.ja_ir.specs.Operations.{arguments};
ghost use Rattle.ja_operations.specs.Sites.{sinks_of, target_of, IsSiteOrNone};

use crate::refuse::finds_nothing;
use ja_base::{Memory, Name, Numbers};
use ja_hier::Hier;
use ja_ir::{CallOp, has_receiver};
use std::alloc::Global;

/// Where a call may pass a value to a sink: the positions of its sinks among its arguments, a receiver
/// first, and what it calls as it is printed.
#[derive(Drop)]
pub struct SinkCall {
    pub positions: Numbers,
    pub target: Name,
}

/// Whether a place is one of an argument of the call.
fn is_argument(call: &CallOp, place: u64) -> bool
    ensures { result ≡ nat_lt place (arguments call.now) }
{
    if has_receiver(call.kind) {
        place == 0 || place - 1 < call.params.len()
    } else {
        place < call.params.len()
    }
}

/// The sinks of a call that are among its arguments.
fn sinks_of(alloc: Global, call: &CallOp) -> Result<Numbers, Memory>
    ensures { IfOk result (λ sinks. sinks ≡ sinks_of call.now) }
{
    let mut sinks = Numbers::new(alloc);
    for place in call.row.sinks.as_slice() {
        if is_argument(call, *place) {
            sinks.push(*place)?;
        }
    }
    Ok(sinks)
}

/// What is called, as it is printed.
fn target_of(alloc: Global, call: &CallOp) -> Result<Name, Memory>
    ensures { IfOk result (λ target. target ≡ target_of call.now) }
{
    let mut bytes = Vec::from_slice(alloc, call.class.bytes())?;
    bytes.push(b'.')?;
    bytes.extend_from_slice(call.name.bytes())?;
    bytes.extend_from_slice(call.desc.bytes())?;
    Ok(Name::from_vec(bytes))
}

/// The sinks of a call and what it calls, where it is a site: a call whose row has a sink among its
/// arguments, and whose method no program class has.
pub fn site_of(alloc: Global, hier: &Hier, call: &CallOp) -> Result<Option<SinkCall>, Memory>
    ensures { IfOk result (IsSiteOrNone hier.now call.now) }
{
    let positions = sinks_of(alloc, call)?;
    if positions.is_empty() || !finds_nothing(hier, &call.class, &call.name, &call.desc) {
        return Ok(None);
    }
    let target = target_of(alloc, call)?;
    Ok(Some(SinkCall { positions, target }))
}
