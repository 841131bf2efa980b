ghost use Rattle.std.specs.Prelude.{◌≡◌, ◌<◌, length, slice_get, option_copied, Some};

use crate::state::KindState;
use ja_base::Seq;
use std::marker::Model;

/// What is known before each instruction of a method, which contracts see as a list.
#[derive(Drop)]
pub struct Kinds {
    states: Seq<Option<KindState>>,
}

impl Model for Kinds {
    ghost use Rattle.std.specs.Prelude.{List, Option};
    ghost use Rattle.ja_kinds.specs.declared.state.KindState.{KindState};

    ghost Value = { List (Option KindState) };

    ghost view = { λ kinds. kinds.states };
}

impl Kinds {
    /// The kinds before instructions, in their order. It takes no memory.
    pub(crate) fn of(states: Seq<Option<KindState>>) -> Kinds
        ensures { result ≡ states }
    {
        Kinds { states }
    }

    /// The kinds of the locals and of the stack before an instruction of the method, by its index; `None`
    /// where it is not reached. It takes no memory.
    pub fn at(&self, i: u32) -> Option<&KindState>
        requires { i < length self.now }
        ensures { slice_get self.now i ≡ Some (option_copied result) }
    {
        self.states.at(u64::from(i)).as_ref()
    }
}
