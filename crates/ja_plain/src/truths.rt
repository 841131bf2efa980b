ghost use Rattle.std.specs.Prelude.{◌≡◌, ℕ, ◌≤◌, ◌<◌, ◌-◌, length, false, [], IfOk, OnOk, take, replicate};
ghost use Rattle.ja_class.specs.Runnable.{pops};
ghost use Rattle.ja_plain.specs.InnerPass.{UsesWithin, locals_after, stack_after, top_of};

use ja_base::Memory;
use ja_class::FirstOp;
use std::alloc::Global;

/// Which values of a frame may be tainted.
#[derive(Drop)]
pub struct Truths {
    /// By the local's number.
    pub locals: Vec<bool>,
    /// The topmost last.
    pub stack: Vec<bool>,
}

impl Truths {
    /// A frame of so many locals before its first instruction: nothing is tainted.
    pub fn new(alloc: Global, locals: u32) -> Result<Truths, Memory>
        ensures locals { IfOk result (λ t. t.locals.items ≡ replicate locals false) }
        ensures stack { IfOk result (λ t. t.stack.items ≡ []) }
    {
        Ok(Truths {
            locals: vec![in alloc; false; locals as usize]?,
            stack: Vec::new(alloc),
        })
    }

    /// Does one instruction, which finds its values and its local.
    pub fn step(&mut self, op: FirstOp) -> Result<(), Memory>
        requires takes { pops op ≤ length self.old.stack.items }
        requires local { UsesWithin (length self.old.locals.items) op }
        ensures locals { OnOk result (self.new.locals.items ≡ locals_after op self.old.locals.items self.old.stack.items) }
        ensures stack { OnOk result (self.new.stack.items ≡ stack_after op self.old.locals.items self.old.stack.items) }
    {
        match op {
            FirstOp::Load(local) => self.stack.push(self.locals[local as usize])?,
            FirstOp::Store(local) => self.locals[local as usize] = self.pop(),
            FirstOp::Text => self.stack.push(false)?,
            FirstOp::Pop | FirstOp::Sink => {
                self.pop();
            }
            FirstOp::Source => self.stack.push(true)?,
            FirstOp::Return => {}
        }
        Ok(())
    }

    /// Whether the topmost stack value may be tainted. There is one.
    pub fn top(&self) -> bool
        requires { 1 ≤ length self.now.stack.items }
        ensures { result ≡ top_of self.now.stack.items }
    {
        self.stack[self.stack.len() - 1]
    }

    // Takes the topmost stack value. There is one.
    fn pop(&mut self) -> bool
        requires { 1 ≤ length self.old.stack.items }
        ensures value { result ≡ top_of self.old.stack.items }
        ensures rest { self.new.stack.items ≡ take (length self.old.stack.items - 1) self.old.stack.items }
        ensures locals { self.new.locals.items ≡ self.old.locals.items }
    {
        let top = self.top();
        self.stack.pop();
        top
    }
}
