ghost use Rattle.std.specs.Prelude.{◌≡◌, ◌+◌, ◌≤◌, length};
ghost use Rattle.ja_facts.specs.FactTables.{name_count, live_count};
ghost use Rattle.ja_base.specs.Limit.{max_frame_values};

use ja_ir::Method;
use ja_sets::PairSet;

/// What the tables of facts have before an instruction.
#[derive(Clone, Copy)]
pub struct Before<'a> {
    pub(crate) method: &'a Method,
    pub(crate) pairs: &'a PairSet,
    pub(crate) reach: &'a PairSet,
    /// Whether a call may go to a method without code.
    pub(crate) is_abstract: bool,
    /// Whether a call may go to the library.
    pub(crate) is_library: bool,
    ghost small: { method.now.locals + method.now.stack ≤ max_frame_values },
    ghost pairs_count: { length pairs.now ≡ name_count method.now },
    ghost reach_count: { length reach.now ≡ live_count method.now },
}
