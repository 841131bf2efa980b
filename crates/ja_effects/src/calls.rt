ghost use Rattle.std.specs.Prelude.{◌≡◌, ◌⊎◌, ℕ, ◌+◌, ◌≤◌, ◌<◌, true, false, Some, Contains, length, slice_get};
ghost use Rattle.ja_ir.specs.declared.method.Method.{Method};
ghost use Rattle.ja_ir.specs.declared.op.CallOp.{CallOp};
ghost use Rattle.ja_ir.specs.Operations as operations;
ghost use Rattle.ja_ir.specs.Initializing.{InitAt};
ghost use Rattle.ja_facts.specs.ClassSets.{CallsMethod};
ghost use Rattle.ja_facts.specs.Slots.{CallAt};
ghost use Rattle.ja_facts.specs.FactTables.{is_reached, targets_at};
ghost use Rattle.ja_facts.specs.Told.{IsGraphFor, TellsGraph};
ghost use Rattle.ja_names.specs.Frames.{IsFrameOf, IsSmall};
ghost use Rattle.ja_names.specs.Tables.{HasPairSets, HasFlags};
ghost use Rattle.ja_effects.specs.Inner.{IsSound, IsPassed, IsClosedAt};
ghost use Rattle.ja_effects.specs.Stages.{Step};

use crate::enter::enter;
use ja_base::MethodId;
use ja_facts::{CallGraph, Effects, Pairs};
use ja_ir::{CallOp, Instr, Method, Op, Program, arguments};
use ja_names::Frame;

// Adds the effects of an instruction by the class initialisers that it may run.
fn enter_initializers(
    p: &Program,
    g: &CallGraph,
    s: &Pairs,
    m: u32,
    method: &Method,
    frame: Frame,
    i: u32,
    instr: &Instr,
    effects: &mut Effects,
) -> bool
    requires found { slice_get p.now.methods m ≡ Some method.now }
    requires frame { IsFrameOf method.now frame }
    requires small { IsSmall frame }
    requires sets { HasPairSets p.now s.now }
    requires instr { slice_get method.now.code i ≡ Some instr.now }
    requires runs { instr.now.reached ≡ true }
    requires reached { is_reached g.now m i ≡ true }
    requires flags { HasFlags p.now effects.old }
    requires sound { IsSound p.now g.now s.now effects.old }
    ensures step { Step p.now g.now s.now effects.old effects.new result }
    ensures closed { result ≡ false → (n : ℕ) → InitAt p.now m i n → IsPassed p.now s.now effects.new m i n 0 instr.now.height }
{
    let _whole = p.methods();
    let list = p.inits_of(&instr.op);
    let mut changed = false;
    for n in list {
        changed |= enter(p, g, s, m, method, frame, i, n.0, 0, instr.height, effects);
    }
    changed
}

// Adds the effects of a call by a target, if it has code.
fn enter_target(
    p: &Program,
    g: &CallGraph,
    s: &Pairs,
    m: u32,
    method: &Method,
    frame: Frame,
    i: u32,
    call: &CallOp,
    under: u32,
    n: u64,
    effects: &mut Effects,
) -> bool
    requires graph { IsGraphFor p.now g.now }
    requires found { slice_get p.now.methods m ≡ Some method.now }
    requires frame { IsFrameOf method.now frame }
    requires small { IsSmall frame }
    requires sets { HasPairSets p.now s.now }
    requires inside { i < length method.now.code }
    requires reached { is_reached g.now m i ≡ true }
    requires call { CallAt p.now m i call.now under }
    requires room { under + operations.arguments call.now ≤ frame.stack }
    requires target { Contains (targets_at g.now m i).methods n }
    requires flags { HasFlags p.now effects.old }
    requires sound { IsSound p.now g.now s.now effects.old }
    ensures step { Step p.now g.now s.now effects.old effects.new result }
    ensures closed { result ≡ false → TellsGraph p.now g.now (CallsMethod m i n) → IsPassed p.now s.now effects.new m i n (operations.arguments call.now) under }
{
    if n >= p.methods().len() || p.methods().at(n).code.is_empty() {
        return false;
    }
    let count = arguments(call) as u32;
    enter(
        p, g, s, m, method, frame, i, n as u32, count, under, effects,
    )
}

// Adds the effects of a call by its targets.
fn enter_targets(
    p: &Program,
    g: &CallGraph,
    s: &Pairs,
    m: u32,
    method: &Method,
    frame: Frame,
    i: u32,
    call: &CallOp,
    under: u32,
    effects: &mut Effects,
) -> bool
    requires graph { IsGraphFor p.now g.now }
    requires found { slice_get p.now.methods m ≡ Some method.now }
    requires frame { IsFrameOf method.now frame }
    requires small { IsSmall frame }
    requires sets { HasPairSets p.now s.now }
    requires inside { i < length method.now.code }
    requires reached { is_reached g.now m i ≡ true }
    requires call { CallAt p.now m i call.now under }
    requires room { under + operations.arguments call.now ≤ frame.stack }
    requires flags { HasFlags p.now effects.old }
    requires sound { IsSound p.now g.now s.now effects.old }
    ensures step { Step p.now g.now s.now effects.old effects.new result }
    ensures closed { result ≡ false → (n : ℕ) → TellsGraph p.now g.now (CallsMethod m i n) → IsPassed p.now s.now effects.new m i n (operations.arguments call.now) under }
{
    let targets = g.targets(MethodId(m), i).methods.as_slice();
    let mut changed = false;
    for n in targets {
        changed |= enter_target(p, g, s, m, method, frame, i, call, under, *n, effects);
    }
    changed
}

// Adds the effects of an instruction by the targets that it calls, if it is a call.
fn enter_call(
    p: &Program,
    g: &CallGraph,
    s: &Pairs,
    m: u32,
    method: &Method,
    frame: Frame,
    i: u32,
    instr: &Instr,
    effects: &mut Effects,
) -> bool
    requires graph { IsGraphFor p.now g.now }
    requires found { slice_get p.now.methods m ≡ Some method.now }
    requires frame { IsFrameOf method.now frame }
    requires small { IsSmall frame }
    requires sets { HasPairSets p.now s.now }
    requires instr { slice_get method.now.code i ≡ Some instr.now }
    requires runs { instr.now.reached ≡ true }
    requires reached { is_reached g.now m i ≡ true }
    requires flags { HasFlags p.now effects.old }
    requires sound { IsSound p.now g.now s.now effects.old }
    ensures step { Step p.now g.now s.now effects.old effects.new result }
    ensures closed { result ≡ false → (n under : ℕ) (call : CallOp) → CallAt p.now m i call under → TellsGraph p.now g.now (CallsMethod m i n) → IsPassed p.now s.now effects.new m i n (operations.arguments call) under }
{
    let _whole = p.methods();
    match &instr.op {
        Op::Call(call) => {
            let under = instr.height - arguments(call) as u32;
            enter_targets(p, g, s, m, method, frame, i, call, under, effects)
        }
        _ => false,
    }
}

/// Adds the effects of an instruction by the methods that it enters, if it is reached; says whether one
/// is new.
pub fn enter_at(
    p: &Program,
    g: &CallGraph,
    s: &Pairs,
    m: u32,
    method: &Method,
    frame: Frame,
    i: u32,
    effects: &mut Effects,
) -> bool
    requires graph { IsGraphFor p.now g.now }
    requires found { slice_get p.now.methods m ≡ Some method.now }
    requires frame { IsFrameOf method.now frame }
    requires small { IsSmall frame }
    requires sets { HasPairSets p.now s.now }
    requires inside { i < length method.now.code }
    requires flags { HasFlags p.now effects.old }
    requires sound { IsSound p.now g.now s.now effects.old }
    ensures step { Step p.now g.now s.now effects.old effects.new result }
    ensures closed { result ≡ false → IsClosedAt p.now (TellsGraph p.now g.now) s.now effects.new m i }
{
    if !g.reached(MethodId(m), i) {
        return false;
    }
    let instr = method.code.at(i as u64);
    let mut changed = enter_initializers(p, g, s, m, method, frame, i, instr, effects);
    changed |= enter_call(p, g, s, m, method, frame, i, instr, effects);
    changed
}
