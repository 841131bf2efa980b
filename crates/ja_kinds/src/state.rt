use ja_base::{Kind, Seq};

/// A list of kinds.
pub type KindList = Seq<Kind>;

/// The kinds of the locals, word by word, and of the values on the stack, from the bottom.
///
/// A local of two words has its kind at the first, and the second is not usable.
#[derive(Drop)]
pub struct KindState {
    pub locals: KindList,
    pub stack: KindList,
}

/// What is known before an instruction.
#[derive(Drop)]
pub enum State {
    /// No way leads there.
    Unreached,
    /// Each way that leads there brings this stack, and locals that may be taken for these.
    Known(KindState),
    /// Ways with different stacks meet, or come from an instruction that does not take what it finds.
    Clash,
}
