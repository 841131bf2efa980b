ghost use Rattle.std.specs.Prelude.{◌≡◌, ◌↔◌, IfOk};
ghost use Rattle.ja_facts.specs.Least.{Least};
ghost use Rattle.ja_facts.specs.Held.{Fact, Rule};
ghost use Rattle.ja_facts.specs.Told.{TellsSets, TellsHeld};
ghost use Rattle.ja_holds.specs.Sized.{HasSets, HasOnlyItsFields};

use crate::classes::classes_of;
use crate::fields::with_fields;
use crate::tokens::find_tokens;
use ja_base::Memory;
use ja_facts::{ClassSets, Holds};
use ja_ir::Program;
use std::alloc::Global;

/// Which fields and bags an object of a token, or what a field refers to, may reach: the least for the
/// given sets of fields and bags. `Memory` is the one other answer.
pub fn holds(alloc: Global, p: &Program, c: &ClassSets) -> Result<Holds, Memory>
    requires { HasOnlyItsFields p.now c.now }
    ensures exact { IfOk result (λ held. (f : Fact) → TellsHeld p.now held f ↔ Least (Rule p.now (TellsSets p.now c.now)) f) }
    ensures sets { IfOk result (HasSets p.now) }
{
    let classes = classes_of(alloc, p, c)?;
    let found = find_tokens(alloc, p, c, &classes)?;
    with_fields(alloc, p, c, found)
}
