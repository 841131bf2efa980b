use crate::frame::Frame;
use crate::sources::Sources;
use crate::stacked::{Stacked, made_at, pushed};
use crate::starts::run_starts;
use ja_base::Memory;
use ja_ir::{Instr, Method, Op, pops, pushes};
use std::alloc::Global;

/// The most values that raise the weight of an instruction.
const MOST_DOUBLINGS: usize = 60;

/// What is found out of a method's code: which locals each value on the stack is made from, how
/// often, and which locals each local is made from.
#[derive(Drop)]
pub struct Walk {
    locals: usize,
    /// The values on the stack, the lowest first.
    stack: Vec<Stacked>,
    /// For each place on the stack and each local how much the values there weigh that were made
    /// from it.
    weights: Vec<u64>,
    /// Of what each local is made.
    made: Vec<Sources>,
}

/// Adds the weight of a value at the locals that it is made from; their weights begin at a place.
fn add_weight(weights: &mut [u64], first: usize, locals: usize, value: Stacked) {
    if value.made.is_empty() {
        return;
    }
    for local in 0..locals {
        let at = first.wrapping_add(local);
        if value.made.has(local) && at < weights.len() {
            weights[at] = weights[at].saturating_add(value.weight);
        }
    }
}

/// Adds the weights of the values from a place on.
fn add_weights(weights: &mut [u64], locals: usize, stack: &[Stacked], from: usize) {
    for at in from..stack.len() {
        add_weight(weights, at.wrapping_mul(locals), locals, stack[at]);
    }
}

/// Takes a local out of the sets of all values, and adds what those weigh that were made from it.
fn forget_local(weights: &mut [u64], locals: usize, stack: &mut [Stacked], local: usize) {
    for at in 0..stack.len() {
        let value = stack[at];
        if value.made.has(local) {
            let place = at.wrapping_mul(locals).wrapping_add(local);
            if place < weights.len() {
                weights[place] = weights[place].saturating_add(value.weight);
            }
            stack[at].made = value.made.without(local);
        }
    }
}

/// Each value weighs more: 2 for each one that is made from some local, multiplied.
fn weigh(stack: &mut [Stacked]) {
    let full = stack.iter().filter(|value| !value.made.is_empty()).count();
    let more = 1u64 << full.min(MOST_DOUBLINGS);
    for at in 0..stack.len() {
        stack[at].weight = stack[at].weight.saturating_add(more);
    }
}

impl Walk {
    /// Nothing is found out yet.
    fn new(alloc: Global, locals: usize, stack: usize) -> Result<Walk, Memory> {
        Ok(Walk {
            locals,
            stack: Vec::new(alloc),
            weights: Vec::from_elem(alloc, 0u64, locals.saturating_mul(stack))?,
            made: Vec::from_elem(alloc, Sources::NONE, locals)?,
        })
    }

    /// How much the values at a place on the stack weigh that were made from a local.
    pub fn weight(&self, value: usize, local: usize) -> u64 {
        let at = value.wrapping_mul(self.locals).wrapping_add(local);
        self.weights.get(at).copied().unwrap_or(0)
    }

    /// Of what a local is made.
    pub fn made(&self, local: usize) -> Sources {
        self.made.get(local).copied().unwrap_or(Sources::NONE)
    }

    /// The values from a place on are gone.
    fn drop_from(&mut self, from: usize) {
        add_weights(
            self.weights.as_mut_slice(),
            self.locals,
            self.stack.as_slice(),
            from,
        );
        self.stack.truncate(from);
    }

    /// A run begins with so many values on the stack, of which nothing is known.
    fn begin(&mut self, height: u32) -> Result<(), Memory> {
        self.drop_from(0);
        for _value in 0..height {
            self.stack.push(Stacked::of(Sources::NONE))?;
        }
        Ok(())
    }

    /// A local gets a value that is made from these.
    fn store(&mut self, local: usize, made: Sources) {
        forget_local(
            self.weights.as_mut_slice(),
            self.locals,
            self.stack.as_mut_slice(),
            local,
        );
        if local < self.made.len() {
            self.made[local] = self.made[local].with(made);
        }
    }

    /// An operation is done.
    fn step(&mut self, alloc: Global, op: &Op) -> Result<(), Memory> {
        let height = self.stack.len().saturating_sub(pops(op) as usize);
        let popped = Vec::from_slice(alloc, &self.stack[height..])?;
        self.drop_from(height);
        if let Op::Store(_, local) = op {
            self.store(*local as usize, made_at(popped.as_slice(), 0));
        }
        for at in 0..pushes(op) {
            self.stack
                .push(Stacked::of(pushed(op, popped.as_slice(), at as usize)))?;
        }
        Ok(())
    }

    /// An instruction that is reached is done; a run may begin at it.
    fn instr(&mut self, alloc: Global, instr: &Instr, starts: bool) -> Result<(), Memory> {
        if starts || self.stack.len() != instr.height as usize {
            self.begin(instr.height)?;
        }
        weigh(self.stack.as_mut_slice());
        self.step(alloc, &instr.op)
    }

    /// What the code of a method tells of its slots.
    pub fn of(alloc: Global, method: &Method, frame: Frame) -> Result<Walk, Memory> {
        let code = method.code.as_slice();
        let starts = run_starts(alloc, code, method.handlers.as_slice())?;
        let mut walk = Walk::new(alloc, frame.locals, frame.stack)?;
        for (index, instr) in code.iter().enumerate() {
            if instr.reached {
                walk.instr(alloc, instr, starts.get(index).copied().unwrap_or(true))?;
            }
        }
        walk.begin(0)?;
        Ok(walk)
    }
}
