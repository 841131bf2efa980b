ghost use Rattle.std.specs.Prelude.{◌≡◌, ◌≤◌, ◌<◌, ◌^◌, length};
ghost use Rattle.ja_ir.specs.Params.{param_count};
ghost use Rattle.ja_facts.specs.ClassTables.{token_count};
ghost use Rattle.ja_explicit.specs.Given.{value_count, most_values};

use crate::table::Table;
use ja_clauses::{Before, Summary, Through};
use ja_facts::Facts;
use ja_ir::{Entry, Method, Op, Program};
use ja_work::Way;

/// An operation with so many values on the stack before it, and what the tables of facts have there.
#[derive(Clone, Copy)]
pub struct Here<'a> {
    pub before: Before<'a>,
    pub op: &'a Op,
    pub height: u32,
}

/// A call of a method with so many arguments over so many values, from a word of the caller's frame.
#[derive(Clone, Copy)]
pub struct Handing<'a> {
    pub callee: &'a Method,
    pub count: u32,
    pub under: u32,
    pub caller: &'a Method,
    pub word: u32,
    pub ghost narrow: { value_count caller.now ≤ most_values },
}

/// A call of an entry by the environment.
#[derive(Clone, Copy)]
pub struct Opening<'a> {
    pub program: &'a Program,
    pub facts: &'a Facts,
    pub table: &'a Table,
    pub entry: &'a Entry,
    pub method: &'a Method,
    pub ghost few: { param_count method.now < 2 ^ 32 },
    pub ghost tokens: { length facts.now.holds.tokens ≡ token_count program.now },
}

/// What says which words may come after a word.
#[derive(Clone, Copy)]
pub enum Rule<'a> {
    Normal(Here<'a>),
    Exceptional(Here<'a>, Way),
    Returns(Through<'a>, bool, Summary),
    Throws(Through<'a>, Summary),
    Caught,
    Handed(Handing<'a>),
    Opened(Opening<'a>),
}
