ghost use Rattle.std.specs.Prelude.{◌≡◌, ◌⊎◌, ℕ, ◌+◌, ◌≤◌, ◌<◌, true, Some, length, slice_get};
ghost use Rattle.ja_ir.specs.declared.op.Op.TheVariants.{Call};
ghost use Rattle.ja_facts.specs.FactTables.{is_reached};
ghost use Rattle.ja_facts.specs.Told.{IsGraphFor, TellsGraph};
ghost use Rattle.ja_names.specs.Frames.{IsFrameOf, IsSmall};
ghost use Rattle.ja_names.specs.Tables.{HasPairSets, HasFlags};
ghost use Rattle.ja_effects.specs.Inner.{Direct, HasDirect, Gains};

use crate::library::touch_sources;
use crate::marks::{mark, touch};
use ja_base::MethodId;
use ja_facts::{CallGraph, Effects, Pairs};
use ja_ir::{CallOp, Instr, Method, Op, Program, arguments};
use ja_names::{Frame, frame_of};

// Adds the effects that a reached call has by the library.
fn touch_call(
    p: &Program,
    g: &CallGraph,
    s: &Pairs,
    m: u32,
    method: &Method,
    frame: Frame,
    i: u32,
    instr: &Instr,
    call: &CallOp,
    effects: &mut Effects,
)
    requires found { slice_get p.now.methods m ≡ Some method.now }
    requires frame { IsFrameOf method.now frame }
    requires small { IsSmall frame }
    requires sets { HasPairSets p.now s.now }
    requires instr { slice_get method.now.code i ≡ Some instr.now }
    requires runs { instr.now.reached ≡ true }
    requires reached { is_reached g.now m i ≡ true }
    requires call { instr.now.op ≡ Call call.now }
    requires flags { HasFlags p.now effects.old }
    ensures flags { HasFlags p.now effects.new }
    ensures gains { Gains p.now effects.old effects.new (λ n r. (n ≡ m) × Direct p.now (TellsGraph p.now g.now) s.now m i r) }
{
    let _whole = p.methods();
    if g.targets(MethodId(m), i).library {
        let under = instr.height - arguments(call) as u32;
        touch_sources(p, s, m, method, frame, i, call, under, effects);
    }
}

// Adds the effects that a reached instruction has itself.
fn touch_op(
    p: &Program,
    g: &CallGraph,
    s: &Pairs,
    m: u32,
    method: &Method,
    frame: Frame,
    i: u32,
    instr: &Instr,
    effects: &mut Effects,
)
    requires found { slice_get p.now.methods m ≡ Some method.now }
    requires frame { IsFrameOf method.now frame }
    requires small { IsSmall frame }
    requires sets { HasPairSets p.now s.now }
    requires instr { slice_get method.now.code i ≡ Some instr.now }
    requires runs { instr.now.reached ≡ true }
    requires reached { is_reached g.now m i ≡ true }
    requires flags { HasFlags p.now effects.old }
    ensures flags { HasFlags p.now effects.new }
    ensures gains { Gains p.now effects.old effects.new (λ n r. (n ≡ m) × Direct p.now (TellsGraph p.now g.now) s.now m i r) }
{
    let _whole = p.methods();
    match &instr.op {
        Op::PutField(_) => {
            let x = frame.locals + instr.height - 2;
            touch(p, s, m, method, frame, i, x, effects);
        }
        Op::ArrStore(_) => {
            let x = frame.locals + instr.height - 3;
            touch(p, s, m, method, frame, i, x, effects);
        }
        Op::PutStatic(_) => {
            mark(p, m, method, frame.params, effects);
        }
        Op::Call(call) => touch_call(p, g, s, m, method, frame, i, instr, call, effects),
        _ => {}
    }
}

// Adds the effects that an instruction has itself, if it is reached.
fn touch_at(
    p: &Program,
    g: &CallGraph,
    s: &Pairs,
    m: u32,
    method: &Method,
    frame: Frame,
    i: u32,
    effects: &mut Effects,
)
    requires graph { IsGraphFor p.now g.now }
    requires found { slice_get p.now.methods m ≡ Some method.now }
    requires frame { IsFrameOf method.now frame }
    requires small { IsSmall frame }
    requires sets { HasPairSets p.now s.now }
    requires inside { i < length method.now.code }
    requires flags { HasFlags p.now effects.old }
    ensures flags { HasFlags p.now effects.new }
    ensures gains { Gains p.now effects.old effects.new (λ n r. (n ≡ m) × Direct p.now (TellsGraph p.now g.now) s.now m i r) }
{
    if g.reached(MethodId(m), i) {
        let instr = method.code.at(i as u64);
        touch_op(p, g, s, m, method, frame, i, instr, effects);
    }
}

// Adds the effects that the instructions of a method have themselves.
fn touch_method(p: &Program, g: &CallGraph, s: &Pairs, m: u32, effects: &mut Effects)
    requires graph { IsGraphFor p.now g.now }
    requires sets { HasPairSets p.now s.now }
    requires inside { m < length p.now.methods }
    requires flags { HasFlags p.now effects.old }
    ensures flags { HasFlags p.now effects.new }
    ensures gains { Gains p.now effects.old effects.new (λ n r. (n ≡ m) × HasDirect p.now (TellsGraph p.now g.now) s.now m r) }
{
    let method = p.methods().at(m as u64);
    let frame = frame_of(p, m);
    for i in 0..method.code.len() {
        touch_at(p, g, s, m, method, frame, i as u32, effects);
    }
}

/// Adds the effects that instructions have themselves.
pub fn touch_all(p: &Program, g: &CallGraph, s: &Pairs, effects: &mut Effects)
    requires graph { IsGraphFor p.now g.now }
    requires sets { HasPairSets p.now s.now }
    requires flags { HasFlags p.now effects.old }
    ensures flags { HasFlags p.now effects.new }
    ensures gains { Gains p.now effects.old effects.new (λ m r. HasDirect p.now (TellsGraph p.now g.now) s.now m r) }
{
    for m in 0..p.methods().len() {
        touch_method(p, g, s, m as u32, effects);
    }
}
