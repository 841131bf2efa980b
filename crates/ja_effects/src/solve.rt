ghost use Rattle.std.specs.Prelude.{◌≡◌, ◌↔◌, ℕ, ◌<◌, [], false, Some, length, slice_get, IfOk};
ghost use Rattle.ja_facts.specs.Least.{Least};
ghost use Rattle.ja_facts.specs.Sharing.{Fact, EffectRule, IsEffect};
ghost use Rattle.ja_facts.specs.Told.{IsGraphFor, TellsGraph, TellsHeap};
ghost use Rattle.ja_names.specs.Tables.{HasPairSets, HasFlags};
ghost use Rattle.ja_effects.specs.Inner.{IsSound, IsClosedAt, HasAllDirect, lacking};
ghost use Rattle.ja_effects.specs.Stages.{Step};

use crate::calls::enter_at;
use crate::direct::touch_all;
use ja_base::Memory;
use ja_facts::{CallGraph, Effects, Pairs};
use ja_ir::Program;
use ja_names::frame_of;
use std::alloc::Global;

// Adds the effects of a method by the methods that its instructions enter; says whether one is new.
fn enter_method(p: &Program, g: &CallGraph, s: &Pairs, m: u32, effects: &mut Effects) -> bool
    requires graph { IsGraphFor p.now g.now }
    requires sets { HasPairSets p.now s.now }
    requires inside { m < length p.now.methods }
    requires flags { HasFlags p.now effects.old }
    requires sound { IsSound p.now g.now s.now effects.old }
    ensures step { Step p.now g.now s.now effects.old effects.new result }
    ensures closed { result ≡ false → (i : ℕ) → IsClosedAt p.now (TellsGraph p.now g.now) s.now effects.new m i }
{
    let method = p.methods().at(m as u64);
    let frame = frame_of(p, m);
    let mut changed = false;
    for i in 0..method.code.len() {
        changed |= enter_at(p, g, s, m, method, frame, i as u32, effects);
    }
    changed
}

// Adds the effects of methods by the methods that they enter; says whether one is new.
fn round(p: &Program, g: &CallGraph, s: &Pairs, effects: &mut Effects) -> bool
    requires graph { IsGraphFor p.now g.now }
    requires sets { HasPairSets p.now s.now }
    requires flags { HasFlags p.now effects.old }
    requires sound { IsSound p.now g.now s.now effects.old }
    ensures step { Step p.now g.now s.now effects.old effects.new result }
    ensures closed { result ≡ false → (m i : ℕ) → IsClosedAt p.now (TellsGraph p.now g.now) s.now effects.new m i }
{
    let mut changed = false;
    for m in 0..p.methods().len() {
        changed |= enter_method(p, g, s, m as u32, effects);
    }
    changed
}

/// What each method may change of what it was given: the least for the given pairs. `Memory` is the one
/// other answer.
pub fn effects(alloc: Global, p: &Program, g: &CallGraph, s: &Pairs) -> Result<Effects, Memory>
    requires graph { IsGraphFor p.now g.now }
    requires sets { HasPairSets p.now s.now }
    ensures exact { IfOk result (λ table. (f : Fact) → IsEffect f → TellsHeap p.now (TellsGraph p.now g.now) s.now table f ↔ Least (EffectRule p.now (TellsGraph p.now g.now) (TellsHeap p.now (TellsGraph p.now g.now) s.now [])) f) }
    ensures flags { IfOk result (HasFlags p.now) }
{
    let mut effects = Effects::new(alloc, p)?;
    touch_all(p, g, s, &mut effects);
    'rounds: while round(p, g, s, &mut effects) {}
    Ok(effects)
}
