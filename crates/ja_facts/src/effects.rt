ghost use Rattle.std.specs.Prelude.{◌≡◌, ◌<◌, ◌↔◌, [], false, true, length, slice_index_or, IfOk, IsTrue};
ghost use Rattle.ja_facts.specs.FactTables.{has_effect, no_effects_of, empty_effects};
ghost use Rattle.ja_facts.specs.Listing.{with_listed_in};

use crate::build::flag_row;
use crate::params::param_count;
use crate::rows::{Rows, lend_listed_in, listed_in};
use ja_base::{Memory, MethodId};
use ja_ir::{Method, Program};
use std::alloc::Global;
use std::marker::Model;

/// What each method may change of what it was given: objects that a parameter reached when it began,
/// or, with the number of its parameters, what the static fields reached and these themselves.
#[derive(Drop)]
pub struct Effects {
    flags: Rows<Rows<bool>>,
}

impl Model for Effects {
    ghost use Rattle.std.specs.Prelude.{List, Bool};

    ghost Value = { List (List Bool) };

    ghost view = { λ effects. effects.flags };
}

impl Effects {
    /// The effects of a program: none.
    pub fn new(alloc: Global, p: &Program) -> Result<Effects, Memory>
        ensures { IfOk result (λ effects. effects ≡ empty_effects p.now) }
    {
        let mut flags = Rows::new(alloc);
        for method in p.methods().as_slice() {
            flags.push(method_flags(alloc, method)?)?;
        }
        Ok(Effects { flags })
    }

    /// Whether a method has effect `k`.
    pub fn has(&self, m: MethodId, k: u32) -> bool
        ensures { result ≡ has_effect self.now m.0 k }
    {
        *listed_in(&self.flags, m.0, k, &false)
    }

    /// Adds effect `k` of a method, and tells whether it is new.
    pub fn add(&mut self, m: MethodId, k: u32) -> bool
        requires { k < length (slice_index_or self.old m.0 []) }
        ensures added { self.new ≡ with_listed_in self.old m.0 k true }
        ensures changed { IsTrue result ↔ (has_effect self.old m.0 k ≡ false) }
    {
        let was = self.has(m, k);
        *lend_listed_in(&mut self.flags, m.0, k) = true;
        !was
    }
}

// The flags of a method, none of them set. No memory holds 2^64 flags.
fn method_flags(alloc: Global, method: &Method) -> Result<Rows<bool>, Memory>
    ensures { IfOk result (λ row. row ≡ no_effects_of method.now) }
{
    let params = param_count(method);
    if params == u64::MAX {
        return Err(Memory);
    }
    flag_row(alloc, params + 1)
}
