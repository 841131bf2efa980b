ghost use Rattle.std.specs.Prelude.{◌≡◌, map, IfOk};
ghost use Rattle.ja_ir.specs.Handlers.{dest_among};
ghost use Rattle.ja_tokens.specs.Shapes.{place_meant};

use crate::token::at_or_below;
use ja_base::{Memory, Seq};
use ja_ir::{Catch, Handler, Program};
use std::alloc::Global;

/// A place to which an exception goes.
#[derive(Clone, Copy)]
pub enum ThrownTo {
    /// The target of a handler in the method.
    Handler(u32),
    /// Out of the method.
    Caller,
}

/// The places to which an exception of the token may go that is thrown at instruction `i` of a method
/// with these handlers (JVM specification 2.10).
pub fn thrown_to(
    alloc: Global,
    p: &Program,
    handlers: &[Handler],
    i: u32,
    token: u32,
) -> Result<Seq<ThrownTo>, Memory>
    ensures { IfOk result (λ places. map place_meant places ≡ dest_among p.now i token handlers.now) }
{
    let mut places = Seq::new(alloc);
    for handler in handlers {
        if handler.start <= i && i < handler.end {
            match handler.catch {
                Catch::All => {
                    places.push(ThrownTo::Handler(handler.target))?;
                    return Ok(places);
                }
                Catch::Program(class) => {
                    if at_or_below(p, token, class.0) {
                        places.push(ThrownTo::Handler(handler.target))?;
                        return Ok(places);
                    }
                }
                Catch::Library => places.push(ThrownTo::Handler(handler.target))?,
            }
        }
    }
    places.push(ThrownTo::Caller)?;
    Ok(places)
}
