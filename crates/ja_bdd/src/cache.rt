ghost use Rattle.std.specs.Prelude.{◌<◌, ◌≤◌};

use crate::copies::Copies;
use ja_node_table::Node;

/// How many entries a cache has, where nothing else was chosen.
pub const ENTRIES: usize = 1_024;

/// The most entries that a cache may have.
pub const MAX_ENTRIES: usize = 1_048_576;

/// How many places of a cache may have answers to renamings.
pub const SHIFT_ENTRIES: usize = 4_096;

/// The golden ratio of 2^64, whose products have well mixed upper bits.
const MIXER: u64 = 0x9e37_79b9_7f4a_7c15;

/// A way to join two functions.
#[derive(Clone, Copy)]
pub enum Joint {
    And,
    Or,
}

impl Joint {
    ghost use Rattle.std.specs.Prelude.{◌≡◌, IsTrue};

    /// Whether both are one way.
    fn is_one(self, other: Joint) -> bool
        ensures { IsTrue result → self ≡ other }
    {
        match self {
            Joint::And => matches!(other, Joint::And),
            Joint::Or => matches!(other, Joint::Or),
        }
    }
}

/// What an operation was asked.
#[derive(Clone, Copy)]
pub enum Question {
    Join(Joint, Node, Node),
    Forget(Node, u32),
    Shift(Node),
    Product(Node, Node, Copies),
}

/// A question with its answer.
#[derive(Clone, Copy)]
pub struct Entry {
    pub asked: Question,
    pub made: Node,
}

/// What a new cache has at each place: the conjunction of the constant false with itself.
pub const NOTHING: Entry = Entry {
    asked: Question::Join(Joint::And, Node::FALSE, Node::FALSE),
    made: Node::FALSE,
};

impl Question {
    ghost use Rattle.std.specs.Prelude.{◌≡◌, ◌<◌, ◌≤◌, true, IsTrue};
    ghost use Rattle.ja_bdd.specs.Inner.{is_shift, IsSame};

    /// Whether a renaming was asked for.
    pub fn is_shift(self) -> bool
        ensures { result ≡ is_shift self }
    {
        matches!(self, Question::Shift(_))
    }

    /// Whether the same was asked.
    pub fn is_one(self, other: Question) -> bool
        ensures { IsTrue result → IsSame self other }
    {
        match (self, other) {
            (Question::Join(joint, f, g), Question::Join(other, a, b)) => {
                joint.is_one(other) && f.number == a.number && g.number == b.number
            }
            (Question::Forget(f, var), Question::Forget(a, other)) => {
                f.number == a.number && var == other
            }
            (Question::Shift(f), Question::Shift(a)) => f.number == a.number,
            (Question::Product(f, g, copies), Question::Product(a, b, others)) => {
                f.number == a.number && g.number == b.number && copies.is_one(others)
            }
            _ => false,
        }
    }

    /// The one place of a cache of so many entries where the answer may be kept.
    pub fn place(self, entries: usize) -> usize
        requires { (1 ≤ entries) × (entries ≤ MAX_ENTRIES) }
        ensures within { result < entries }
        ensures early { is_shift self ≡ true → result < SHIFT_ENTRIES }
    {
        let (kind, first, second) = match self {
            Question::Join(Joint::And, f, g) => (0, f.number, g.number),
            Question::Join(Joint::Or, f, g) => (1, f.number, g.number),
            Question::Forget(f, var) => (2, f.number, var),
            Question::Shift(f) => (3, f.number, 0),
            Question::Product(f, g, _) => (4, f.number, g.number),
        };
        let key = u64::from(first) << 34 ^ u64::from(second) << 3 ^ kind;
        let room = if self.is_shift() {
            entries.min(SHIFT_ENTRIES)
        } else {
            entries
        };
        scaled(key.wrapping_mul(MIXER) >> 32, room)
    }
}

/// So much of the numbers below `entries`, as a 32 bit number is of all of these.
fn scaled(upper: u64, entries: usize) -> usize
    requires upper { upper < 4294967296 }
    requires entries { (1 ≤ entries) × (entries ≤ MAX_ENTRIES) }
    ensures { result < entries }
{
    (upper * entries as u64 >> 32) as usize
}
