//! Rules of a frame of three slots.
ghost use Rattle.std.specs.Prelude.{◌≡◌, ◌≤◌, ◌<◌};

use ja_base::Memory;
use ja_join::{Masks, Move, Rule, States};
use std::alloc::Global;

/// All of these states go on as they are.
fn go(states: u32) -> Masks {
    Masks {
        waiting: states,
        seen: states,
        sees: 0,
    }
}

/// A slot that is kept, and tells which states go on: some where it is false, others where it is true.
fn told(place: u32, low: u32, high: u32) -> Move
    requires { place < 3 }
{
    Move {
        variable: 4 * place + 1,
        forgets: false,
        told: None,
        low_low: go(low),
        low_high: go(0),
        high_low: go(0),
        high_high: go(high),
    }
}

/// A slot that is overwritten: with false where some states go on, with true where others do.
fn written(place: u32, low: u32, high: u32) -> Move
    requires { place < 3 }
{
    Move {
        variable: 4 * place + 1,
        forgets: false,
        told: None,
        low_low: go(low),
        low_high: go(high),
        high_low: go(low),
        high_high: go(high),
    }
}

/// A slot that is kept, one of several: state 0 waits for a true one among them, state 1 goes on where
/// none is true.
fn one_of(place: u32) -> Move
    requires { place < 3 }
{
    Move {
        variable: 4 * place + 1,
        forgets: false,
        told: None,
        low_low: go(3),
        low_high: go(0),
        high_low: go(0),
        high_high: Masks {
            waiting: 0,
            seen: 1,
            sees: 1,
        },
    }
}

/// Adds a move behind the others.
fn add(rule: &mut Rule, step: Move) -> Result<(), Memory> {
    if !rule.may_push(&step) {
        return Err(Memory);
    }
    rule.push(step)
}

/// The rule of some moves, with two states, the first of which may wait.
fn rule_of(alloc: Global, waits: bool, moves: &[Move]) -> Result<Rule, Memory> {
    let start = if waits {
        States {
            waiting: 1,
            seen: 2,
        }
    } else {
        States {
            waiting: 0,
            seen: 3,
        }
    };
    let accepted = States {
        waiting: 0,
        seen: 3,
    };
    let mut rule = Rule::new(alloc, start, accepted);
    for step in moves {
        add(&mut rule, *step)?;
    }
    Ok(rule)
}

/// Slot 1 becomes what slot 0 is.
fn copy(alloc: Global) -> Result<Rule, Memory> {
    rule_of(alloc, false, &[told(0, 1, 2), written(1, 1, 2)])
}

/// Slot 2 becomes true where slot 0 or slot 1 is, else false.
fn mix(alloc: Global) -> Result<Rule, Memory> {
    rule_of(alloc, true, &[one_of(0), one_of(1), written(2, 2, 1)])
}

/// Slot 0 becomes true where slot 1 or slot 2 is, else false: what it becomes is told before they are.
fn mix_before(alloc: Global) -> Result<Rule, Memory> {
    rule_of(alloc, true, &[written(0, 2, 1), one_of(1), one_of(2)])
}

/// Slot 1 becomes anything.
fn guess(alloc: Global) -> Result<Rule, Memory> {
    rule_of(alloc, false, &[written(1, 1, 1)])
}

/// Slot 2 stays, where it is true and slot 1 becomes false; nothing else is allowed.
fn narrow(alloc: Global) -> Result<Rule, Memory> {
    rule_of(alloc, false, &[written(1, 1, 0), told(2, 0, 1)])
}

/// Slot 1 is handed over as variable 0 of a callee, and is false from then on; slot 2 becomes what the callee
/// answers, its variable 1, which stands at the next variable of slot 2.
fn call(alloc: Global) -> Result<Rule, Memory> {
    let handed = Move {
        told: Some(0),
        ..written(1, 3, 0)
    };
    let answer = Move {
        variable: 10,
        forgets: true,
        told: Some(1),
        ..told(2, 1, 0)
    };
    let answer = Move {
        high_low: go(2),
        ..answer
    };
    rule_of(alloc, false, &[handed, written(2, 1, 2), answer])
}

/// Nothing is allowed.
fn none(alloc: Global) -> Rule {
    let states = States {
        waiting: 1,
        seen: 0,
    };
    let accepted = States {
        waiting: 0,
        seen: 1,
    };
    Rule::new(alloc, states, accepted)
}

/// A rule by its name.
#[derive(Clone, Copy)]
pub enum RuleName {
    Copy,
    Mix,
    MixBefore,
    Guess,
    Narrow,
    Nothing,
    Call,
}

impl RuleName {
    /// The name as it prints.
    pub fn text(self) -> &'static str {
        match self {
            RuleName::Copy => "copy",
            RuleName::Mix => "mix",
            RuleName::MixBefore => "mix before",
            RuleName::Guess => "guess",
            RuleName::Narrow => "narrow",
            RuleName::Nothing => "none",
            RuleName::Call => "call",
        }
    }

    /// The rule.
    pub fn rule(self, alloc: Global) -> Result<Rule, Memory> {
        match self {
            RuleName::Copy => copy(alloc),
            RuleName::Mix => mix(alloc),
            RuleName::MixBefore => mix_before(alloc),
            RuleName::Guess => guess(alloc),
            RuleName::Narrow => narrow(alloc),
            RuleName::Nothing => Ok(none(alloc)),
            RuleName::Call => call(alloc),
        }
    }
}
