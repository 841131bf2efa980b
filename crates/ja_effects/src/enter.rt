ghost use Rattle.std.specs.Prelude.{◌≡◌, ◌⊎◌, ℕ, ◌+◌, ◌≤◌, ◌<◌, true, false, Some, length, slice_get};
ghost use Rattle.ja_ir.specs.declared.method.Method.{Method};
ghost use Rattle.ja_ir.specs.Params.{param_count};
ghost use Rattle.ja_facts.specs.Crossings.{Enters};
ghost use Rattle.ja_facts.specs.FactTables.{name_count};
ghost use Rattle.ja_facts.specs.Sharing.{Root, Name, Old};
ghost use Rattle.ja_facts.specs.Told.{TellsGraph, IsNamed, IsEffectNumber, PairHas, EffectHas};
ghost use Rattle.ja_names.specs.Frames.{IsFrameOf, IsSmall};
ghost use Rattle.ja_names.specs.Tables.{HasPairSets, HasFlags};
ghost use Rattle.ja_effects.specs.Inner.{Gains, IsSound, IsPassed, lacking};
ghost use Rattle.ja_effects.specs.Stages.{Step};

use crate::marks::touch;
use ja_base::MethodId;
use ja_facts::{CallGraph, Effects, Pairs};
use ja_ir::{Method, Program};
use ja_names::{Frame, frame_of};

// Adds the effects of an instruction by an effect of a method that it enters, on what a name reaches.
fn pass(
    p: &Program,
    s: &Pairs,
    m: u32,
    method: &Method,
    frame: Frame,
    i: u32,
    n: u32,
    k: u32,
    x: u32,
    effects: &mut Effects,
) -> bool
    requires found { slice_get p.now.methods m ≡ Some method.now }
    requires frame { IsFrameOf method.now frame }
    requires small { IsSmall frame }
    requires sets { HasPairSets p.now s.now }
    requires inside { i < length method.now.code }
    requires name { x < name_count method.now }
    requires flags { HasFlags p.now effects.old }
    ensures flags { HasFlags p.now effects.new }
    ensures gains { (callee : Method) (e : Root) (a : Name) → slice_get p.now.methods n ≡ Some callee → IsEffectNumber callee e k → IsNamed method.now a x → Gains p.now effects.old effects.new (λ q r. (q ≡ m) × EffectHas p.now effects.old n e × PairHas p.now s.now m i a (Old r)) }
    ensures idle { result ≡ false → effects.new ≡ effects.old }
    ensures falls { result ≡ true → lacking effects.new < lacking effects.old }
{
    if !effects.has(MethodId(n), k) {
        return false;
    }
    touch(p, s, m, method, frame, i, x, effects)
}

// Adds the effects of an instruction by those of a method that it enters with so many arguments over so
// many values on the stack.
fn pass_all(
    p: &Program,
    g: &CallGraph,
    s: &Pairs,
    m: u32,
    method: &Method,
    frame: Frame,
    i: u32,
    n: u32,
    count: u32,
    under: u32,
    effects: &mut Effects,
) -> bool
    requires found { slice_get p.now.methods m ≡ Some method.now }
    requires frame { IsFrameOf method.now frame }
    requires small { IsSmall frame }
    requires sets { HasPairSets p.now s.now }
    requires inside { i < length method.now.code }
    requires callee { n < length p.now.methods }
    requires params { (callee : Method) → slice_get p.now.methods n ≡ Some callee → count ≤ param_count callee }
    requires room { under + count ≤ frame.stack }
    requires enters { Enters p.now (TellsGraph p.now g.now) m i n count under }
    requires flags { HasFlags p.now effects.old }
    requires sound { IsSound p.now g.now s.now effects.old }
    ensures step { Step p.now g.now s.now effects.old effects.new result }
    ensures closed { result ≡ false → IsPassed p.now s.now effects.new m i n count under }
{
    let params = frame_of(p, n).params;
    let statics = frame.statics();
    let mut changed = pass(p, s, m, method, frame, i, n, params, statics, effects);
    for a in 0..count {
        let x = frame.locals + under + a;
        changed |= pass(p, s, m, method, frame, i, n, a, x, effects);
    }
    changed
}

/// Adds the effects of an instruction by those of a method that it enters with so many arguments over so
/// many values on the stack, if there is such a method; says whether one is new.
pub fn enter(
    p: &Program,
    g: &CallGraph,
    s: &Pairs,
    m: u32,
    method: &Method,
    frame: Frame,
    i: u32,
    n: u32,
    count: u32,
    under: u32,
    effects: &mut Effects,
) -> bool
    requires found { slice_get p.now.methods m ≡ Some method.now }
    requires frame { IsFrameOf method.now frame }
    requires small { IsSmall frame }
    requires sets { HasPairSets p.now s.now }
    requires inside { i < length method.now.code }
    requires params { (callee : Method) → slice_get p.now.methods n ≡ Some callee → count ≤ param_count callee }
    requires room { under + count ≤ frame.stack }
    requires enters { Enters p.now (TellsGraph p.now g.now) m i n count under }
    requires flags { HasFlags p.now effects.old }
    requires sound { IsSound p.now g.now s.now effects.old }
    ensures step { Step p.now g.now s.now effects.old effects.new result }
    ensures closed { result ≡ false → IsPassed p.now s.now effects.new m i n count under }
{
    if (n as u64) >= p.methods().len() {
        return false;
    }
    pass_all(p, g, s, m, method, frame, i, n, count, under, effects)
}
