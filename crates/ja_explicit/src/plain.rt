ghost use Rattle.std.specs.Prelude.{◌≡◌, ◌≤◌, ◌<◌, ◌+◌, ◌^◌, IfOk, IfErr, IfSome, IfNone, length, slice_get, nat_lt, Some};
ghost use Rattle.ja_facts.specs.Verdict.{AreVerdictsOf};
ghost use Rattle.ja_explicit.specs.Given.{AreGiven, AreNarrow, IsFirstWide, Taints, value_count, most_values};
ghost use Rattle.ja_explicit.specs.Faults.{IsCause};

use crate::fault::PlainFault;
use crate::solve::least;
use crate::warning::flags_of;
use ja_base::{Flags, MethodId, SiteId};
use ja_facts::Facts;
use ja_ir::{Method, Program};
use std::alloc::Global;
use std::marker::Model;

/// The least solution of a program's equations of taint: which of its sites are warned.
#[derive(Drop)]
pub struct PlainSolution {
    warned: Flags,
}

impl Model for PlainSolution {
    ghost use Rattle.std.specs.Prelude.{List, Bool};

    ghost Value = { List Bool };

    ghost view = { λ solution. solution.warned };
}

impl PlainSolution {
    ghost use Rattle.std.specs.Prelude.{◌≡◌, ◌<◌, Some, length, slice_get};

    /// Whether a site is warned.
    pub fn warned(&self, s: SiteId) -> bool
        requires { s.0 < length self.now }
        ensures { slice_get self.now s.0 ≡ Some result }
    {
        *self.warned.at(s.0 as u64)
    }
}

// Whether a frame has more than ten values.
fn is_wide(method: &Method) -> bool
    requires { value_count method.now < 2 ^ 32 }
    ensures { result ≡ nat_lt most_values (value_count method.now) }
{
    method.locals + method.stack > 10
}

// The first method whose frame has more than ten values, if there is one, and how many these are.
fn first_wide(p: &Program) -> Option<(MethodId, u32)>
    ensures wide { IfSome result (λ r. IsFirstWide p.now r.0.0 r.1) }
    ensures narrow { IfNone result (AreNarrow p.now) }
{
    let methods = p.methods();
    for m in 0..methods.len() {
        let method = methods.at(m);
        if is_wide(method) {
            return Some((MethodId(m as u32), method.locals + method.stack));
        }
    }
    None
}

/// Which sites of a program are warned by the least solution of its equations of taint, over the given
/// tables of facts. `FrameTooWide` comes exactly where some frame has more than ten values; `Memory` is the
/// one other answer.
///
/// It keeps each fact in words and applies all rules until nothing is new: a slow reference for the solver
/// on diagrams.
pub fn solve_plain(alloc: Global, p: &Program, facts: &Facts) -> Result<PlainSolution, PlainFault>
    requires given { AreGiven p.now facts.now }
    ensures exact { IfOk result (λ warned. AreVerdictsOf p.now (λ c. Taints p.now facts.now) p.now.sites warned) }
    ensures narrow { IfOk result (λ warned. AreNarrow p.now) }
    ensures wide { IfErr result (IsCause p.now) }
{
    let _whole = p.methods();
    if let Some((method, values)) = first_wide(p) {
        return Err(PlainFault::FrameTooWide { method, values });
    }
    let table = least(alloc, p, facts)?;
    let warned = flags_of(alloc, p, &table)?;
    Ok(PlainSolution { warned })
}
