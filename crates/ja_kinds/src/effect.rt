use crate::state::KindList;
use ja_base::Kind;
use ja_code::Rearrangement;

/// What an instruction does to a frame, with what its operands and the constant pool say.
#[derive(Drop)]
pub enum Effect {
    /// Pushes the local at a place.
    Loads(Kind, u64),
    /// Pops into the local at a place.
    Stores(Kind, u64),
    /// Uses an int local where it stands.
    Counts(u64),
    /// Moves words.
    Moves(Rearrangement),
    /// Pops values of some kinds and pushes values of others, each from the bottom.
    Exchanges { taken: KindList, pushed: KindList },
    /// Ends the method, with a value where there is a kind.
    Leaves(Option<Kind>),
}
