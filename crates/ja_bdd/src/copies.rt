/// Some of the four copies of a relation's variables, where variable `v` is of copy `v % 4`.
///
/// A relation speaks of each slot of a frame up to four times: as it was at the method's entry, as
/// it is at present, as it is next, and as the callee of a call has it.
#[derive(Clone, Copy)]
pub struct Copies {
    pub at_entry: bool,
    pub at_present: bool,
    pub at_next: bool,
    pub at_callee: bool,
}

impl Copies {
    ghost use Rattle.std.specs.Prelude.{◌≡◌, IsTrue};
    ghost use Rattle.ja_bdd.specs.Copies.{in_copies};
    ghost use Rattle.ja_bdd.specs.Inner.{AreSameCopies};

    /// Whether a variable is of one of these copies.
    pub fn has(self, var: u32) -> bool
        ensures { result ≡ in_copies self var }
    {
        match var % 4 {
            0 => self.at_entry,
            1 => self.at_present,
            2 => self.at_next,
            _ => self.at_callee,
        }
    }

    /// Whether both are the same copies.
    pub(crate) fn is_one(self, other: Copies) -> bool
        ensures { IsTrue result → AreSameCopies self other }
    {
        self.at_entry == other.at_entry
            && self.at_present == other.at_present
            && self.at_next == other.at_next
            && self.at_callee == other.at_callee
    }
}
