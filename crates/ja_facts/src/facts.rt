ghost use Rattle.std.specs.Prelude.{◌≡◌, ◌+◌, ◌*◌, ◌<◌, ◌≤◌};
ghost use Rattle.ja_base.specs.Limit.{max_frame_values};

use crate::{CallGraph, ClassSets, Effects, Holds, Pairs, Reach};

/// What the analyses before the equations of taint found.
#[derive(Drop)]
pub struct Facts {
    pub sets: ClassSets,
    pub graph: CallGraph,
    pub pairs: Pairs,
    pub effects: Effects,
    pub reach: Reach,
    pub holds: Holds,
}

/// The variable of a place in the order of a method's slots, in one of the four copies of the method's assignments: 0 at
/// its entry, 1 at present, 2 next, 3 in a callee. There are at most 514 places: one for each local and each value on the
/// stack, and those for what was stored and for what is thrown.
pub fn var_of(place: u32, copy: u32) -> u32
    requires place_in_frame { place ≤ max_frame_values + 1 }
    requires copy_of_four { copy ≤ 3 }
    ensures { result ≡ 4 * place + copy }
{
    4 * place + copy
}
