ghost use Rattle.std.specs.Prelude.{◌≡◌};
ghost use Rattle.ja_node_table.specs.Rule.{IsTaken};

use ja_node_core::Aim;

/// There was no room for a word: another node stands at each place of its path.
///
/// Only `NodeTable::make` gives it. It keeps the word, the number of slots and the aim of the
/// table, and that the nodes which were seen stand in canonical words for that aim.
#[derive(Drop)]
pub struct Full<A: Aim> {
    pub(crate) word: u64,
    pub(crate) slots: u64,
    pub(crate) aim: A,
    pub ghost taken: { ∥ IsTaken A.aims record { aim = aim; slots = slots } word ∥₁ },
}

impl<A: Aim> Full<A> {
    ghost use Rattle.std.specs.Prelude.{◌≡◌};
    ghost use Rattle.ja_node_core.specs.Tree.{HasFunctions};
    ghost use Rattle.ja_node_core.specs.Word.{places};
    ghost use Rattle.ja_node_table.specs.Seats.{wanted_word, full_slots, full_aim};

    /// The word that was asked for.
    pub fn word(&self) -> u64
        ensures { result ≡ wanted_word self.now }
    {
        self.word
    }

    /// How many slots the table has.
    pub fn slots(&self) -> u64
        ensures { result ≡ full_slots self.now }
    {
        self.slots
    }

    /// The aim of the table has as many different functions as the path of a word has places:
    /// those of the nodes that were seen there.
    pub fn law_functions(&self)
        ensures { ∥ HasFunctions (A.aims (full_aim self.now)) (places (full_slots self.now)) ∥₁ }
    {}
}
