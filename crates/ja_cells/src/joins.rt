ghost use Rattle.std.specs.Prelude.{◌≡◌, ◌+◌, ◌<◌, ◌^◌, All, length, true, IfOk};
ghost use Rattle.ja_sets.specs.Sets.{Has};
ghost use Rattle.ja_ir.specs.Blocks.{StaysInside};
ghost use Rattle.ja_cells.specs.Joins.{HasJumps, HasAllJumps, HasTargets, Keeps, AreJoins, GoesOn};

use ja_base::Memory;
use ja_ir::{Handler, Instr, Method};
use ja_sets::TokenSet;
use std::alloc::Global;

// Adds a target of the instruction at an index, unless it is the next one.
fn add_jump(joins: &mut TokenSet, index: u64, target: u64)
    requires inside { target < length joins.old }
    requires index { index < length joins.old }
    requires few { length joins.old < 2 ^ 32 }
    ensures keeps { Keeps joins.old joins.new }
    ensures jump { (target ≡ index + 1 → ⊥) → Has joins.new target }
{
    if target == index + 1 {
        return;
    }
    joins.add(target as u32);
}

// Adds the targets of the instruction at an index other than the next one.
fn add_jumps(joins: &mut TokenSet, index: u64, next: &[u64])
    requires inside { All (λ target. target < length joins.old) next.now }
    requires index { index < length joins.old }
    requires few { length joins.old < 2 ^ 32 }
    ensures keeps { Keeps joins.old joins.new }
    ensures jumps { HasJumps joins.new index next.now }
{
    for target in next {
        add_jump(joins, index, *target);
    }
}

// Adds the targets of all instructions other than the next ones.
fn add_code(joins: &mut TokenSet, code: &[Instr])
    requires inside { All (λ instr. All (λ target. target < length joins.old) instr.next) code.now }
    requires size { length code.now ≡ length joins.old }
    requires few { length joins.old < 2 ^ 32 }
    ensures keeps { Keeps joins.old joins.new }
    ensures jumps { HasAllJumps joins.new code.now (length code.now) }
{
    for (index, instr) in code.iter().enumerate() {
        add_jumps(joins, index as u64, instr.next.as_slice());
    }
}

// Adds the targets of handlers.
fn add_targets(joins: &mut TokenSet, handlers: &[Handler])
    requires { All (λ handler. handler.target < length joins.old) handlers.now }
    ensures keeps { Keeps joins.old joins.new }
    ensures targets { HasTargets joins.new handlers.now }
{
    for handler in handlers {
        joins.add(handler.target);
    }
}

/// The instructions of a method to which jumps and handlers lead.
pub fn joins_of(alloc: Global, method: &Method) -> Result<TokenSet, Memory>
    requires inside { StaysInside method.now }
    requires few { length method.now.code < 2 ^ 32 }
    ensures { IfOk result (AreJoins method.now) }
{
    let code = method.code.as_slice();
    let mut joins = TokenSet::new(alloc, code.len() as u32)?;
    add_code(&mut joins, code);
    add_targets(&mut joins, method.handlers.as_slice());
    Ok(joins)
}

/// Whether an instruction goes on to the next one, to which nothing else leads.
pub fn goes_on(before: &Instr, joins: &TokenSet, next: u32) -> bool
    requires { next < length joins.now }
    ensures { result ≡ true → GoesOn before.now joins.now next }
{
    if joins.contains(next) || !before.reached {
        return false;
    }
    before.next.as_slice().contains(&(next as u64))
}
