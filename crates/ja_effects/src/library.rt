ghost use Rattle.std.specs.Prelude.{◌≡◌, ◌⊎◌, ℕ, ◌+◌, ◌≤◌, ◌<◌, ◌^◌, ◌↔◌, Some, length, slice_get};
ghost use Rattle.ja_facts.specs.ClassSets.{IsSource};
ghost use Rattle.ja_ir.specs.Operations as operations;
ghost use Rattle.ja_names.specs.Frames.{IsFrameOf, IsSmall};
ghost use Rattle.ja_names.specs.Tables.{HasPairSets, HasFlags};
ghost use Rattle.ja_effects.specs.Inner.{Gains, IsSourced, ReachesSource};

use crate::marks::touch;
use ja_facts::{Effects, Pairs};
use ja_ir::{CallOp, Method, Program, RowEffect, arguments, has_receiver};
use ja_names::Frame;

// Adds what the first so many arguments of a library call reach.
fn touch_arguments(
    p: &Program,
    s: &Pairs,
    m: u32,
    method: &Method,
    frame: Frame,
    i: u32,
    under: u32,
    count: u32,
    effects: &mut Effects,
)
    requires found { slice_get p.now.methods m ≡ Some method.now }
    requires frame { IsFrameOf method.now frame }
    requires small { IsSmall frame }
    requires sets { HasPairSets p.now s.now }
    requires inside { i < length method.now.code }
    requires room { under + count ≤ frame.stack }
    requires flags { HasFlags p.now effects.old }
    ensures flags { HasFlags p.now effects.new }
    ensures gains { Gains p.now effects.old effects.new (λ n r. (n ≡ m) × ReachesSource p.now s.now m i under count r) }
{
    for x in 0..count {
        touch(p, s, m, method, frame, i, frame.locals + under + x, effects);
    }
}

/// Adds the effects that a library call has by its sources.
pub fn touch_sources(
    p: &Program,
    s: &Pairs,
    m: u32,
    method: &Method,
    frame: Frame,
    i: u32,
    call: &CallOp,
    under: u32,
    effects: &mut Effects,
)
    requires found { slice_get p.now.methods m ≡ Some method.now }
    requires frame { IsFrameOf method.now frame }
    requires small { IsSmall frame }
    requires sets { HasPairSets p.now s.now }
    requires inside { i < length method.now.code }
    requires room { under + operations.arguments call.now ≤ frame.stack }
    requires flags { HasFlags p.now effects.old }
    ensures flags { HasFlags p.now effects.new }
    ensures gains { Gains p.now effects.old effects.new (λ n r. (n ≡ m) × IsSourced p.now s.now m i under call.now r) }
{
    let count = source_count(call);
    touch_arguments(p, s, m, method, frame, i, under, count, effects);
}

// How many of the first arguments of a library call are its sources.
fn source_count(call: &CallOp) -> u32
    requires { operations.arguments call.now < 2 ^ 32 }
    ensures few { result ≤ operations.arguments call.now }
    ensures sources { (x : ℕ) → (x < result) ↔ IsSource call.now x call.now.row.effect }
{
    match call.row.effect {
        RowEffect::Quiet => 0,
        RowEffect::Absorb => { if has_receiver(call.kind) { 1 } else { 0 } }
        RowEffect::Blend => arguments(call) as u32,
    }
}
