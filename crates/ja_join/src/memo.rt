ghost use Rattle.std.specs.Prelude.{◌≡◌, ◌<◌, ◌≤◌, length};
ghost use Rattle.std.specs.List.{All};

use crate::rule::States;
use ja_base::Memory;
use ja_node_table::Node;
use std::alloc::Global;

/// The golden ratio of 2^64, whose products have well mixed upper bits.
const MIXER: u64 = 0x9e37_79b9_7f4a_7c15;

/// A question of a step, with its answer.
#[derive(Clone, Copy)]
pub(crate) struct Noted {
    pub(crate) call: u64,
    pub(crate) at: usize,
    pub(crate) states: States,
    pub(crate) asked: Node,
    pub(crate) told: Node,
    pub(crate) made: Node,
}

/// What an empty place has. No call has this number.
const NOTHING: Noted = Noted {
    call: 0,
    at: 0,
    states: States {
        waiting: 0,
        seen: 0,
    },
    asked: Node::FALSE,
    told: Node::FALSE,
    made: Node::FALSE,
};

impl Noted {
    ghost use Rattle.std.specs.Prelude.{◌≡◌, IsTrue};

    /// Whether this is the answer of a call to a question.
    fn answers(&self, call: u64, at: usize, states: States, asked: Node, told: Node) -> bool
        ensures { IsTrue result → (self.now.call ≡ call) × (self.now.at ≡ at) × (self.now.states ≡ states) × (self.now.asked.number ≡ asked.number) × (self.now.told.number ≡ told.number) }
    {
        self.call == call
            && self.at == at
            && self.states.is_one(states)
            && self.asked.number == asked.number
            && self.told.number == told.number
    }
}

/// Answers of the steps inside one step, so that no question is asked twice: a lossy cache.
#[derive(Drop)]
pub struct Memo {
    pub(crate) entries: Vec<Noted>,
    // The number of the present call. What was noted in earlier ones counts no more. After all
    // numbers but the last, nothing is noted.
    pub(crate) call: u64,
    ghost counted: { (1 ≤ length entries.items) × (length entries.items ≤ 1048576) },
    ghost earlier: { All (λ e. (e.call ≤ call) × (e.call < 18446744073709551615)) entries.items },
}

impl Memo {
    ghost use Rattle.std.specs.Prelude.{◌≡◌, ◌≢◌, ◌⊎◌, ◌≤◌, ◌<◌, ℕ, IfOk, IfSome, Some, slice_get, slice_set};
    ghost use Rattle.ja_join.specs.declared.memo.Noted.{Noted};
    ghost use Rattle.ja_join.specs.Inner.{HasNoted};
    ghost use Rattle.ja_join.specs.Memos.{entry_count};

    /// A memo of so many entries, at most 2^20.
    pub fn new(alloc: Global, entries: usize) -> Result<Memo, Memory>
        requires { (1 ≤ entries) × (entries ≤ 1048576) }
        ensures { IfOk result (λ memo. entry_count memo ≡ entries) }
    {
        let entries = Vec::from_elem(alloc, NOTHING, entries)?;
        Ok(Memo { entries, call: 0 })
    }

    /// Begins a new call, in which nothing is noted yet.
    pub(crate) fn begin(&mut self)
        ensures { (i : ℕ) (e : Noted) → slice_get self.new.entries.items i ≡ Some e → e.call ≢ self.new.call }
    {
        if self.call < u64::MAX {
            self.call += 1;
        }
    }

    /// The one place of an answer.
    fn place(&self, at: usize, states: States, asked: Node, told: Node) -> usize
        ensures { result < length self.now.entries.items }
    {
        let states = u64::from(states.waiting) << 32 | u64::from(states.seen);
        let nodes = u64::from(asked.number) << 32 | u64::from(told.number);
        let key = nodes ^ (at as u64 ^ states.wrapping_mul(MIXER)).wrapping_mul(MIXER);
        scaled(key.wrapping_mul(MIXER) >> 32, self.entries.len())
    }

    /// What was answered in this call, if it is noted.
    pub(crate) fn find(&self, at: usize, states: States, asked: Node, told: Node) -> Option<Node>
        ensures { IfSome result (λ n. HasNoted self.now at states asked.number told.number n.number) }
    {
        let place = self.place(at, states, asked, told);
        let noted = self.entries[place];
        if noted.answers(self.call, at, states, asked, told) {
            Some(noted.made)
        } else {
            None
        }
    }

    /// Notes an answer of this call.
    pub(crate) fn keep(&mut self, at: usize, states: States, asked: Node, told: Node, made: Node)
        ensures call { self.new.call ≡ self.old.call }
        ensures kept { (self.new ≡ self.old) ⊎ ((i : ℕ) × (self.new.entries.items ≡ slice_set self.old.entries.items i record { call = self.old.call; at = at; states = states; asked = asked; told = told; made = made })) }
    {
        if self.call == u64::MAX {
            return;
        }
        let place = self.place(at, states, asked, told);
        self.entries[place] = Noted {
            call: self.call,
            at,
            states,
            asked,
            told,
            made,
        };
    }
}

/// So much of the numbers below `entries`, as a 32 bit number is of all of these.
fn scaled(upper: u64, entries: usize) -> usize
    requires upper { upper < 4294967296 }
    requires entries { (1 ≤ entries) × (entries ≤ 1048576) }
    ensures { result < entries }
{
    (upper * entries as u64 >> 32) as usize
}
