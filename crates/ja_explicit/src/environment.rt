ghost use Rattle.ja_ir.specs.Params.{param_count};
ghost use Rattle.std.specs.Prelude.{◌≡◌, ◌++◌, ◌≤◌, ◌<◌, ◌^◌, [], ◌∷◌, Some, length, slice_get, OnOk, if◌then◌else◌};
ghost use Rattle.ja_ir.specs.Lookup.{is_member};
ghost use Rattle.ja_ir.specs.Entries as entries;
ghost use Rattle.ja_ir.specs.Initializing.{inits_of_class};
ghost use Rattle.ja_explicit.specs.Given.{AreGiven, AreNarrow, value_count, most_values};
ghost use Rattle.ja_explicit.specs.Tables.{items_of};
ghost use Rattle.ja_explicit.specs.InnerStarts as starts;

use crate::item::Item;
use crate::rule::{Opening, Rule};
use crate::stepping::next_words;
use crate::table::Table;
use ja_base::{Memory, MethodId, Seq};
use ja_facts::Facts;
use ja_ir::{Entry, Method, Program, is_static};
use std::alloc::Global;

// Adds that class initialisers may run.
fn add_initializers(out: &mut Seq<Item>, inits: &[MethodId]) -> Result<(), Memory>
    ensures { OnOk result (out.new ≡ out.old ++ starts.initializers inits.now) }
{
    for m in inits {
        out.push(Item::Context {
            method: m.0 as u64,
            entry: 0,
        })?;
    }
    Ok(())
}

// Adds that those of a class may run.
fn add_initializers_of(out: &mut Seq<Item>, p: &Program, class: u32) -> Result<(), Memory>
    ensures { OnOk result (out.new ≡ out.old ++ starts.initializers (inits_of_class (slice_get p.now.classes class))) }
{
    if class as u64 >= p.classes().len() {
        return Ok(());
    }
    add_initializers(out, p.classes().at(class as u64).inits.as_slice())
}

// Whether a method makes an object of a class ready without arguments.
fn is_constructor(method: &Method, class: u32) -> bool
    ensures { result ≡ entries.is_constructor class method.now }
{
    method.class.0 == class
        && (!is_static(method.flags)
            && (method.name.bytes() == b"<init>".as_slice()
                && (method.desc.bytes() == b"()V".as_slice() && method.code.len() > 0)))
}

// The constructor without parameters that a class declares, if there is one.
fn constructor_of(p: &Program, class: u32) -> Option<u64>
    ensures { result ≡ entries.constructor_of p.now class }
{
    for (m, method) in p.methods().as_slice().iter().enumerate() {
        if is_constructor(method, class) {
            return Some(m as u64);
        }
    }
    None
}

// Adds that the constructor of a class may run, where an entry has a receiver.
fn add_constructs(
    out: &mut Seq<Item>,
    p: &Program,
    class: u32,
    method: &Method,
) -> Result<(), Memory>
    ensures { OnOk result (out.new ≡ out.old ++ (if is_member method.now.flags then starts.constructs (entries.constructor_of p.now class) else [])) }
{
    if is_static(method.flags) {
        return Ok(());
    }
    match constructor_of(p, class) {
        Some(m) => out.push(Item::Context {
            method: m,
            entry: 0,
        }),
        None => Ok(()),
    }
}

// Adds that a method may be called with each of some words.
fn add_contexts(out: &mut Seq<Item>, m: u32, words: &[u32]) -> Result<(), Memory>
    ensures { OnOk result (out.new ≡ out.old ++ starts.contexts m words.now) }
{
    for word in words {
        out.push(Item::Context {
            method: m as u64,
            entry: *word,
        })?;
    }
    Ok(())
}

// Adds that the method of an entry may be called.
fn add_opens(
    alloc: Global,
    out: &mut Seq<Item>,
    p: &Program,
    facts: &Facts,
    table: &Table,
    entry: &Entry,
    method: &Method,
) -> Result<(), Memory>
    requires given { AreGiven p.now facts.now }
    requires narrow { value_count method.now ≤ most_values }
    requires few { param_count method.now < 2 ^ 32 }
    ensures { OnOk result (out.new ≡ out.old ++ starts.opens p.now facts.now (items_of table.now) entry.now (Some method.now)) }
{
    add_constructs(out, p, entry.class.0, method)?;
    let rule = Rule::Opened(Opening {
        program: p,
        facts,
        table,
        entry,
        method,
    });
    let words = next_words(alloc, method, &rule, method, 0)?;
    add_contexts(out, entry.method.0, words.as_slice())
}

// Adds what comes of an entry.
fn add_enters(
    alloc: Global,
    out: &mut Seq<Item>,
    p: &Program,
    facts: &Facts,
    table: &Table,
    entry: &Entry,
) -> Result<(), Memory>
    requires given { AreGiven p.now facts.now }
    requires narrow { AreNarrow p.now }
    ensures { OnOk result (out.new ≡ out.old ++ starts.enters p.now facts.now (items_of table.now) entry.now) }
{
    add_initializers_of(out, p, entry.class.0)?;
    if entry.method.0 as u64 >= p.methods().len() {
        return Ok(());
    }
    let method = p.methods().at(entry.method.0 as u64);
    add_opens(alloc, out, p, facts, table, entry, method)
}

// Adds what comes of some entries.
fn add_enters_each(
    alloc: Global,
    out: &mut Seq<Item>,
    p: &Program,
    facts: &Facts,
    table: &Table,
    entries: &[Entry],
) -> Result<(), Memory>
    requires given { AreGiven p.now facts.now }
    requires narrow { AreNarrow p.now }
    ensures { OnOk result (out.new ≡ out.old ++ starts.enters_each p.now facts.now (items_of table.now) entries.now) }
{
    for entry in entries {
        add_enters(alloc, out, p, facts, table, entry)?;
    }
    Ok(())
}

/// Adds what the environment may call, where something tainted was stored into the cells of a table.
pub fn add_starts(
    alloc: Global,
    out: &mut Seq<Item>,
    p: &Program,
    facts: &Facts,
    table: &Table,
) -> Result<(), Memory>
    requires given { AreGiven p.now facts.now }
    requires narrow { AreNarrow p.now }
    ensures { OnOk result (out.new ≡ out.old ++ starts.enters_each p.now facts.now (items_of table.now) p.now.entries) }
{
    add_enters_each(alloc, out, p, facts, table, p.entries().as_slice())
}
