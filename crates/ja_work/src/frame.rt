ghost use Rattle.std.specs.Prelude.{◌≡◌, ◌+◌, ◌≤◌};
ghost use Rattle.ja_work.specs.Orders.{IsOrder};
ghost use Rattle.ja_base.specs.Limit.{max_frame_values};

use ja_base::Seq;

/// The slots of a method's frame, and where each stands among the variables of its diagrams.
///
/// The slots are numbered: the locals, the values on the stack from the bottom, the one for what was
/// stored, and the one for what is thrown. Slot `n` stands at `places[n]`, and `slots[j]` stands at
/// place `j`. The variable of a slot at place `j` is `4 * j` in the copy at the method's entry, and one,
/// two and three more in the copies at present, next and of a callee.
#[derive(Drop)]
pub struct Frame {
    pub locals: u32,
    pub stack: u32,
    pub places: Seq<u32>,
    pub slots: Seq<u32>,
    pub ghost small: { locals + stack ≤ max_frame_values },
    pub ghost order: { ∥ IsOrder (locals + stack + 2) places slots ∥₁ },
}

/// The frames of a program's methods, in their order.
pub type Frames = Seq<Frame>;
