ghost use Rattle.std.specs.Prelude.{◌≡◌, ◌⊎◌, ℕ, ◌+◌, ◌≤◌, ◌<◌, true, false, Some, length, slice_get};
ghost use Rattle.ja_ir.specs.Params.{param_count};
ghost use Rattle.ja_facts.specs.FactTables.{name_count};
ghost use Rattle.ja_facts.specs.Sharing.{Root, Name, Old};
ghost use Rattle.ja_facts.specs.Told.{IsNamed, IsEffectNumber, PairHas};
ghost use Rattle.ja_names.specs.Frames.{IsFrameOf, IsSmall};
ghost use Rattle.ja_names.specs.Tables.{HasPairSets, HasFlags};
ghost use Rattle.ja_effects.specs.Inner.{Gains, IsTouched, lacking};

use ja_base::MethodId;
use ja_facts::{Effects, Pairs};
use ja_ir::{Method, Program};
use ja_names::Frame;

/// Adds an effect of a method, and says whether it is new.
pub fn mark(p: &Program, m: u32, method: &Method, k: u32, effects: &mut Effects) -> bool
    requires found { slice_get p.now.methods m ≡ Some method.now }
    requires flags { HasFlags p.now effects.old }
    requires root { k ≤ param_count method.now }
    ensures flags { HasFlags p.now effects.new }
    ensures gains { (r : Root) → IsEffectNumber method.now r k → Gains p.now effects.old effects.new (λ n s. (n ≡ m) × (s ≡ r)) }
    ensures idle { result ≡ false → effects.new ≡ effects.old }
    ensures falls { result ≡ true → lacking effects.new < lacking effects.old }
{
    if effects.has(MethodId(m), k) {
        return false;
    }
    effects.add(MethodId(m), k);
    true
}

// Adds the effect of a number where an instruction changes objects that a name reaches, if these share
// with what the root of that number reached when the method began.
fn touch_root(
    p: &Program,
    s: &Pairs,
    m: u32,
    method: &Method,
    frame: Frame,
    i: u32,
    x: u32,
    k: u32,
    effects: &mut Effects,
) -> bool
    requires found { slice_get p.now.methods m ≡ Some method.now }
    requires frame { IsFrameOf method.now frame }
    requires small { IsSmall frame }
    requires sets { HasPairSets p.now s.now }
    requires inside { i < length method.now.code }
    requires name { x < name_count method.now }
    requires root { k ≤ frame.params }
    requires flags { HasFlags p.now effects.old }
    ensures flags { HasFlags p.now effects.new }
    ensures gains { (a : Name) (r : Root) → IsNamed method.now a x → IsEffectNumber method.now r k → Gains p.now effects.old effects.new (λ n t. (n ≡ m) × (t ≡ r) × PairHas p.now s.now m i a (Old r)) }
    ensures idle { result ≡ false → effects.new ≡ effects.old }
    ensures falls { result ≡ true → lacking effects.new < lacking effects.old }
{
    if !s.at(MethodId(m), i).contains((x, frame.old(k))) {
        return false;
    }
    mark(p, m, method, k, effects)
}

/// Adds, for an instruction that changes objects which a name reaches, the effects on what these share
/// with at the method's beginning; says whether one is new.
pub fn touch(
    p: &Program,
    s: &Pairs,
    m: u32,
    method: &Method,
    frame: Frame,
    i: u32,
    x: u32,
    effects: &mut Effects,
) -> bool
    requires found { slice_get p.now.methods m ≡ Some method.now }
    requires frame { IsFrameOf method.now frame }
    requires small { IsSmall frame }
    requires sets { HasPairSets p.now s.now }
    requires inside { i < length method.now.code }
    requires name { x < name_count method.now }
    requires flags { HasFlags p.now effects.old }
    ensures flags { HasFlags p.now effects.new }
    ensures gains { (a : Name) → IsNamed method.now a x → Gains p.now effects.old effects.new (λ n r. (n ≡ m) × PairHas p.now s.now m i a (Old r)) }
    ensures idle { result ≡ false → effects.new ≡ effects.old }
    ensures falls { result ≡ true → lacking effects.new < lacking effects.old }
{
    let mut changed = false;
    for k in 0..frame.params + 1 {
        changed |= touch_root(p, s, m, method, frame, i, x, k, effects);
    }
    changed
}
