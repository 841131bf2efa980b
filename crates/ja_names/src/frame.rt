ghost use Rattle.std.specs.Prelude.{◌≡◌, ◌+◌, ◌<◌, ◌≤◌, Some, length, slice_get};
ghost use Rattle.ja_ir.specs.declared.method.Method.{Method};
ghost use Rattle.ja_names.specs.Frames.{IsFrameOf, IsSmall, statics_of, old_of};

use ja_facts::param_count;
use ja_ir::Program;

/// How many locals, values on the stack and parameters a method has: its names are numbered by these.
#[derive(Clone, Copy)]
pub struct Frame {
    pub locals: u32,
    pub stack: u32,
    pub params: u32,
}

impl Frame {
    /// The number of the static fields: it comes after those of the slots.
    pub fn statics(&self) -> u32
        requires { IsSmall self.now }
        ensures { result ≡ statics_of self.now }
    {
        self.locals + self.stack + 2
    }

    /// The number of what parameter `k` reached when the method began, or the static fields did, whose
    /// number is that of the parameters.
    pub fn old(&self, k: u32) -> u32
        requires small { IsSmall self.now }
        requires root { k ≤ self.now.params }
        ensures { result ≡ old_of self.now k }
    {
        self.statics() + 1 + k
    }
}

/// The frame of a method.
pub fn frame_of(p: &Program, m: u32) -> Frame
    requires { m < length p.now.methods }
    ensures frame { (method : Method) → slice_get p.now.methods m ≡ Some method → IsFrameOf method result }
    ensures small { IsSmall result }
{
    let method = p.methods().at(m as u64);
    let params = param_count(method);
    Frame {
        locals: method.locals,
        stack: method.stack,
        params: params as u32,
    }
}
