ghost use Rattle.std.specs.Prelude.{◌≡◌, ◌+◌, ◌≤◌};
ghost use Rattle.ja_ir.specs.Lookup.{is_member};
ghost use Rattle.ja_ir.specs.Operations.{count_of};
ghost use Rattle.ja_base.specs.Descriptor.{words_of_all};
ghost use Rattle.ja_order.specs.Order.{HasFrame};
ghost use Rattle.ja_base.specs.Limit.{max_frame_values};

use ja_base::JavaType;
use ja_ir::{Method, is_static};

/// How many locals a method's parameters take, how many locals there are, and how many values on the
/// stack.
#[derive(Clone, Copy)]
pub struct Frame {
    pub params: usize,
    pub locals: usize,
    pub stack: usize,
}

/// How many words values of these types take.
fn words_of(types: &[JavaType]) -> u32
    requires { words_of_all types.now ≤ max_frame_values }
    ensures { result ≡ words_of_all types.now }
{
    types.iter().map(|type_| type_.kind.words()).sum()
}

/// How many locals a receiver takes.
fn receiver_words(method: &Method) -> u32
    ensures { result ≡ count_of (is_member method.now.flags) }
{
    if is_static(method.flags) { 0 } else { 1 }
}

impl Frame {
    ghost use Rattle.ja_order.specs.Inner.{IsFrameOf, IsSmall};

    /// The frame of a method.
    pub fn of(method: &Method) -> Frame
        requires { HasFrame method.now }
        ensures frame { IsFrameOf method.now result }
        ensures small { IsSmall result }
    {
        let params = words_of(method.types.params.as_slice()) + receiver_words(method);
        Frame {
            params: params as usize,
            locals: method.locals as usize,
            stack: method.stack as usize,
        }
    }

    /// The frame of a method without code, as if it had no parameters.
    pub fn bare(method: &Method) -> Frame
        requires { method.now.locals + method.now.stack ≤ max_frame_values }
        ensures locals { result.locals ≡ method.now.locals }
        ensures stack { result.stack ≡ method.now.stack }
        ensures small { IsSmall result }
    {
        Frame {
            params: 0,
            locals: method.locals as usize,
            stack: method.stack as usize,
        }
    }

    /// The number of slots.
    pub fn slots(self) -> usize
        requires { IsSmall self }
        ensures { result ≡ self.locals + self.stack + 2 }
    {
        self.locals + self.stack + 2
    }
}
