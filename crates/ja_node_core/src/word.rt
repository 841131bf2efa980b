ghost use Rattle.std.specs.Prelude.{◌≡◌, ◌^◌, ◌<◌, ◌≤◌};
ghost use Rattle.ja_node_core.specs.Word.{word_of, var_of, low_of, high_of};
ghost use Rattle.ja_base.specs.Limit.{last_variable};

/// The bits of a child in a word.
const NODE_BITS: u32 = 26;

const NODE_MASK: u64 = 0x3ff_ffff;

/// A node of a decision diagram, by its number: 0 is the constant false, 1 the constant true,
/// and every other number is the place of the node's word in its table.
#[derive(Clone, Copy, PartialEq, Eq)]
pub struct Node {
    pub number: u32,
    pub ghost small: { number < 2 ^ 26 },
}

impl Node {
    /// The constant false.
    pub const FALSE: Node = Node { number: 0 };

    /// The constant true.
    pub const TRUE: Node = Node { number: 1 };
}

/// What the word of a node says: its variable, the child where that is false, and the child
/// where it is true.
#[derive(Clone, Copy)]
pub struct Parts {
    pub var: u32,
    pub lo: Node,
    pub hi: Node,
    pub ghost small: { var ≤ last_variable },
}

impl Parts {
    /// The word of these parts: 12 bits for the variable plus 1, then 26 bits for each child.
    pub fn word(&self) -> u64
        ensures word { result ≡ word_of self.now.var self.now.lo.number self.now.hi.number }
        ensures parts { (var_of result ≡ self.now.var) × (low_of result ≡ self.now.lo.number) × (high_of result ≡ self.now.hi.number) }
    {
        let upper = (u64::from(self.var) + 1) << NODE_BITS | u64::from(self.lo.number);
        upper << NODE_BITS | u64::from(self.hi.number)
    }

    /// The parts of a node's word.
    pub fn of_word(word: u64) -> Parts
        requires { (2 ^ 52 ≤ word) × (word < 2 ^ 64) × (var_of word ≤ last_variable) }
        ensures { (result.var ≡ var_of word) × (result.lo.number ≡ low_of word) × (result.hi.number ≡ high_of word) }
    {
        Parts {
            var: (word >> (2 * NODE_BITS)) as u32 - 1,
            lo: Node {
                number: (word >> NODE_BITS & NODE_MASK) as u32,
            },
            hi: Node {
                number: (word & NODE_MASK) as u32,
            },
        }
    }
}
