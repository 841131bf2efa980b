ghost use Rattle.std.specs.Prelude.{◌≡◌, ◌++◌, ◌≤◌, ◌<◌, ◌+◌, ◌^◌, [], ◌∷◌, length, IfOk, OnOk, if◌then◌else◌};
ghost use Rattle.ja_facts.specs.FactTables.{slot_count};
ghost use Rattle.ja_explicit.specs.Given.{value_count, most_values};
ghost use Rattle.ja_explicit.specs.InnerWords as words;
ghost use Rattle.ja_explicit.specs.InnerRules.{clauses_of, IsReady};

use crate::chance::Chance;
use crate::clauses::clause_of;
use crate::rule::Rule;
use crate::words::{bit, fits, spot_at};
use ja_base::{Memory, Seq};
use ja_ir::Method;
use std::alloc::Global;

// The number of bits of a word of a frame.
fn slot_count(method: &Method) -> u32
    requires { value_count method.now ≤ most_values }
    ensures { result ≡ slot_count method.now }
{
    method.locals + method.stack + 2
}

// The number of words of a frame.
fn word_count(method: &Method) -> u32
    requires { value_count method.now ≤ most_values }
    ensures { result ≡ 2 ^ slot_count method.now }
{
    1 << slot_count(method)
}

// Whether a slot may be true, and whether it may be false, by a rule after a word.
fn chance(to: &Method, rule: &Rule, from: &Method, word: u32, n: u32) -> Chance
    requires to { value_count to.now ≤ most_values }
    requires from { value_count from.now ≤ most_values }
    requires ready { IsReady rule.now }
    ensures { result ≡ words.chance to.now (clauses_of rule.now) (words.says from.now word) n }
{
    let clause = clause_of(rule, spot_at(to, n));
    Chance {
        high: fits(from, word, &clause, true),
        low: fits(from, word, &clause, false),
    }
}

// The same for all slots of a frame.
fn chances(
    alloc: Global,
    to: &Method,
    rule: &Rule,
    from: &Method,
    word: u32,
) -> Result<Seq<Chance>, Memory>
    requires to { value_count to.now ≤ most_values }
    requires from { value_count from.now ≤ most_values }
    requires ready { IsReady rule.now }
    ensures chances { IfOk result (λ list. list ≡ words.chances to.now (clauses_of rule.now) (words.says from.now word)) }
    ensures few { IfOk result (λ list. length list ≤ 12) }
{
    let mut list = Seq::new(alloc);
    let count = slot_count(to);
    for n in 0..count {
        list.push(chance(to, rule, from, word, n))?;
    }
    Ok(list)
}

// Whether chances allow a bit of a word.
fn allows(chance: Chance, truth: bool) -> bool
    ensures { result ≡ (if truth then chance.high else chance.low) }
{
    if truth { chance.high } else { chance.low }
}

// Whether chances allow a word from a bit on.
fn passes(chances: &[Chance], word: u32, n: u32) -> bool
    requires { n + length chances.now ≤ 32 }
    ensures { result ≡ words.passes chances.now word n }
{
    match chances {
        [] => true,
        [first, rest @ ..] => allows(*first, bit(word, n)) && passes(rest, word, n + 1),
    }
}

// Adds a word to a list, if chances allow it.
fn add_word(list: &mut Seq<u32>, chances: &[Chance], word: u32) -> Result<(), Memory>
    requires { length chances.now ≤ 32 }
    ensures { OnOk result (list.new ≡ list.old ++ words.word_if chances.now word) }
{
    if passes(chances, word, 0) {
        list.push(word)
    } else {
        Ok(())
    }
}

/// The words of a frame that a rule allows after a word.
pub fn next_words(
    alloc: Global,
    to: &Method,
    rule: &Rule,
    from: &Method,
    word: u32,
) -> Result<Seq<u32>, Memory>
    requires to { value_count to.now ≤ most_values }
    requires from { value_count from.now ≤ most_values }
    requires ready { IsReady rule.now }
    ensures { IfOk result (λ list. list ≡ words.next_words to.now (clauses_of rule.now) (words.says from.now word)) }
{
    let allowed = chances(alloc, to, rule, from, word)?;
    let mut list = Seq::new(alloc);
    let count = word_count(to);
    for next in 0..count {
        add_word(&mut list, allowed.as_slice(), next)?;
    }
    Ok(list)
}
