ghost use Rattle.std.specs.Prelude.{◌≡◌, ◌+◌, ◌<◌, ◌≤◌};
ghost use Rattle.ja_facts.specs.Slots.{OnStack};
ghost use Rattle.ja_facts.specs.Formulas as formulas;
ghost use Rattle.ja_work.specs.Clauses as clauses;
ghost use Rattle.ja_explicit.specs.Given.{value_count, most_values};
ghost use Rattle.ja_explicit.specs.InnerWords as words;

use ja_ir::Method;
use ja_work::{Clause, Spot};

/// Whether bit `n` of a word is one.
pub fn bit(word: u32, n: u32) -> bool
    requires { n < 32 }
    ensures { result ≡ words.bit word n }
{
    (word >> n) & 1 == 1
}

/// Whether a local is true in a word of a frame.
pub fn local_is_true(method: &Method, word: u32, local: u32) -> bool
    requires { value_count method.now ≤ most_values }
    ensures { result ≡ clauses.value (words.says method.now word) (Spot.Local local) }
{
    local < method.locals && bit(word, local)
}

/// Whether the value over so many others on the stack is true in a word of a frame.
pub fn stacked_is_true(method: &Method, word: u32, place: u64) -> bool
    requires { value_count method.now ≤ most_values }
    ensures { result ≡ (words.says method.now word).slot (OnStack place) }
{
    place < method.stack as u64 && bit(word, method.locals + place as u32)
}

/// Whether a word of a frame says that something tainted was stored.
pub fn dirt_is_true(method: &Method, word: u32) -> bool
    requires { value_count method.now ≤ most_values }
    ensures { result ≡ (words.says method.now word).dirt }
{
    bit(word, method.locals + method.stack)
}

/// Whether a word of a frame says that what is thrown is tainted.
pub fn exc_is_true(method: &Method, word: u32) -> bool
    requires { value_count method.now ≤ most_values }
    ensures { result ≡ (words.says method.now word).exc }
{
    bit(word, method.locals + method.stack + 1)
}

/// Whether a spot is true in a word of a frame.
pub fn is_true(method: &Method, word: u32, spot: Spot) -> bool
    requires { value_count method.now ≤ most_values }
    ensures { result ≡ clauses.value (words.says method.now word) spot }
{
    match spot {
        Spot::Local(local) => local_is_true(method, word, local),
        Spot::OnStack(place) => stacked_is_true(method, word, place as u64),
        Spot::Dirt => dirt_is_true(method, word),
        Spot::Exc => exc_is_true(method, word),
    }
}

/// Whether one of so many values on the stack, over so many others, is true in a word of a frame.
pub fn some_stacked(method: &Method, word: u32, under: u32, count: u32) -> bool
    requires { value_count method.now ≤ most_values }
    ensures { result ≡ formulas.any_stacked (words.says method.now word) under count }
{
    for k in 0..count {
        if stacked_is_true(method, word, under as u64 + k as u64) {
            return true;
        }
    }
    false
}

// Whether a spot, if there is one, is true in a word of a frame.
fn some_spot(method: &Method, word: u32, spot: Option<Spot>) -> bool
    requires { value_count method.now ≤ most_values }
    ensures { result ≡ clauses.value_if (words.says method.now word) spot }
{
    match spot {
        Some(spot) => is_true(method, word, spot),
        None => false,
    }
}

// Where a clause lets its spot be true.
fn bound(method: &Method, word: u32, clause: &Clause) -> bool
    requires { value_count method.now ≤ most_values }
    ensures { result ≡ clauses.bound clause.now (words.says method.now word) }
{
    clause.always
        || some_spot(method, word, clause.one)
        || some_stacked(method, word, clause.first, clause.count)
}

/// Whether a clause lets its spot have this truth after a word of a frame.
pub fn fits(method: &Method, word: u32, clause: &Clause, after: bool) -> bool
    requires { value_count method.now ≤ most_values }
    ensures { result ≡ clauses.fits clause.now (words.says method.now word) after }
{
    if bound(method, word, clause) {
        !clause.exact || after
    } else {
        !after
    }
}

/// The spot of a number in a frame.
pub fn spot_at(method: &Method, n: u32) -> Spot
    requires { value_count method.now ≤ most_values }
    ensures { result ≡ words.spot_at method.now n }
{
    if n < method.locals {
        return Spot::Local(n);
    }
    if n < method.locals + method.stack {
        return Spot::OnStack(n - method.locals);
    }
    if n == method.locals + method.stack {
        return Spot::Dirt;
    }
    Spot::Exc
}
