ghost use Rattle.std.specs.Prelude.{IsTrue};
ghost use Rattle.ja_join.specs.Ascending.{AscendFrom, AscendFrom-prop, IsToldFrom, TellFrom, TellFrom-prop, Precedes};

use ja_base::{MAX_VARIABLES, Memory};
use std::alloc::Global;

/// Which states of a rule are possible, as bits: those that wait for a true value among several slots,
/// and those that have seen one or wait for none.
#[derive(Clone, Copy)]
pub struct States {
    pub waiting: u32,
    pub seen: u32,
}

/// Which states a variable leaves, where it has one truth before and one after: those that wait and stay so,
/// those that have seen, and those that wait and now see.
#[derive(Clone, Copy)]
pub struct Masks {
    pub waiting: u32,
    pub seen: u32,
    pub sees: u32,
}

/// What a rule does at a variable, for each truth of the variable before and then after.
#[derive(Clone, Copy)]
pub struct Move {
    pub variable: u32,
    /// Whether the variable is forgotten: then what is made looks at it no more, and only the masks for a
    /// truth of false after count.
    pub forgets: bool,
    /// The variable of a callee whose truth is that of this one before, if there is one.
    pub told: Option<u32>,
    pub low_low: Masks,
    pub low_high: Masks,
    pub high_low: Masks,
    pub high_high: Masks,
}

/// A relation between the truths of variables before and after an end of an instruction, as a machine that
/// reads both from the first variable to the last. All other variables are kept.
#[derive(Drop)]
pub struct Rule {
    /// In the order of their variables, at most 4,094, and of the callee's variables that they tell of.
    pub moves: Vec<Move>,
    /// The states before the first move, and those that may be left after the last.
    pub start: States,
    pub accepted: States,
    pub ghost ascending: { AscendFrom 0 moves.items } by { AscendFrom-prop 0 moves.items },
    pub ghost telling: { TellFrom 0 moves.items } by { TellFrom-prop 0 moves.items },
}

/// Whether a variable of a callee, if there is one, is at most 4,094.
fn is_small(told: Option<u32>) -> bool
    ensures { IsTrue result → IsToldFrom 0 told }
{
    match told {
        Some(var) => var < MAX_VARIABLES,
        None => true,
    }
}

/// Whether a move comes before another one, and the variable of the callee that it tells of before the
/// other's, if both tell of one.
fn precedes(first: &Move, second: &Move) -> bool
    ensures { IsTrue result → Precedes first.now second.now }
{
    let is_told_before = match (first.told, second.told) {
        (Some(one), Some(other)) => one < other,
        _ => true,
    };
    first.variable < second.variable && is_told_before
}

impl Rule {
    ghost use Rattle.std.specs.Prelude.{◌≡◌, ◌++◌, ◌∷◌, [], IsTrue, OnOk};
    ghost use Rattle.ja_join.specs.Ascending.{MayFollow};

    /// A rule without a move yet.
    pub fn new(alloc: Global, start: States, accepted: States) -> Rule
        ensures frame { (result.start ≡ start) × (result.accepted ≡ accepted) }
        ensures moves { result.moves.items ≡ [] }
    {
        Rule {
            moves: Vec::new(alloc),
            start,
            accepted,
        }
    }

    /// Whether a move may be added: its variable and the callee's that it tells of, if there is one, are at
    /// most 4,094 and come after those of all other moves.
    pub fn may_push(&self, step: &Move) -> bool
        ensures { IsTrue result → MayFollow self.now.moves.items step.now }
    {
        step.variable < MAX_VARIABLES
            && is_small(step.told)
            && self.moves.iter().all(|before| precedes(before, step))
    }

    /// Adds a move behind the others.
    pub fn push(&mut self, step: Move) -> Result<(), Memory>
        requires { MayFollow self.old.moves.items step }
        ensures frame { (self.new.start ≡ self.old.start) × (self.new.accepted ≡ self.old.accepted) }
        ensures moves { OnOk result (self.new.moves.items ≡ self.old.moves.items ++ step ∷ []) }
    {
        self.moves.push(step)?;
        Ok(())
    }
}

impl States {
    ghost use Rattle.std.specs.Prelude.{◌≡◌, ◌≤◌, ◌↔◌, IsTrue, Bool};
    ghost use Rattle.ja_join.specs.Moves.{next_states, accepts, IsDead};

    /// Whether no state is possible.
    pub fn is_dead(self) -> bool
        ensures { IsTrue result → IsDead self }
    {
        self.waiting == 0 && self.seen == 0
    }

    /// Whether both are the same.
    pub fn is_one(self, other: States) -> bool
        ensures { IsTrue result → self ≡ other }
    {
        self.waiting == other.waiting && self.seen == other.seen
    }

    /// The states that a move leaves, where its variable has these truths.
    pub fn next(self, step: &Move, before: bool, after: bool) -> States
        ensures { result ≡ next_states step.now before after self }
    {
        let masks = match (before, after) {
            (false, false) => step.low_low,
            (false, true) => step.low_high,
            (true, false) => step.high_low,
            (true, true) => step.high_high,
        };
        States {
            waiting: self.waiting & masks.waiting,
            seen: self.seen & masks.seen | self.waiting & masks.sees,
        }
    }

    /// Whether one of these states may be left.
    pub fn is_accepted(self, accepted: States) -> bool
        ensures { result ≡ accepts accepted self }
    {
        self.waiting & accepted.waiting != 0 || self.seen & accepted.seen != 0
    }
}
