//! The class sets as their `new` makes them, and what they answer after writes.
ghost use Rattle.std.specs.Prelude.{◌≡◌};
ghost use Rattle.ja_ir.specs.Sample.{sample};

use crate::sample::{CONSTRUCTOR, MAIN, MEMBER, WITHOUT_CODE};
use crate::tables::set_of;
use ja_base::{FieldId, Memory};
use ja_facts::{ClassSets, FlatRows, Rows};
use ja_ir::{Program, Token};
use ja_sets::TokenSet;
use std::alloc::Global;

/// The least members of two slots, and of what the same two instructions throw.
fn of_code(sets: &ClassSets) -> [Option<u32>; 4] {
    [
        sets.slot(MAIN, 1, 0).next_from(0),
        sets.slot(MAIN, 3, 0).next_from(0),
        sets.thrown(MAIN, 1).next_from(0),
        sets.thrown(MAIN, 3).next_from(0),
    ]
}

/// The least members of two parameters, of a result, and of what a method throws.
fn of_methods(sets: &ClassSets) -> [Option<u32>; 4] {
    [
        sets.param(CONSTRUCTOR, 0).next_from(0),
        sets.param(MEMBER, 0).next_from(0),
        sets.result(MEMBER).next_from(0),
        sets.out(WITHOUT_CODE).next_from(0),
    ]
}

/// Adds the least members of some sets, those of a field and of a bag last.
fn add_least(out: &mut String, sets: &ClassSets) -> Result<(), Memory> {
    let field = sets.field(FieldId(0)).next_from(0);
    let bag = sets.bag(Token(4)).next_from(0);
    let (code, methods) = (of_code(sets), of_methods(sets));
    Ok(writeln!(out, "class sets {code:?} {methods:?} {field:?} {bag:?}")?)
}

/// Names a set for slot 0 before instruction 1 of the main method, and one for what instruction 3 throws.
fn share_two(alloc: Global, sets: &mut ClassSets) -> Result<(), Memory> {
    let pool = two_sets(alloc)?;
    let slots = slot_rows(alloc)?;
    let thrown = thrown_rows(alloc)?;
    sets.share(slots, thrown, pool);
    Ok(())
}

/// A pool of two sets, of one token each.
fn two_sets(alloc: Global) -> Result<Rows<TokenSet>, Memory> {
    let mut pool = Rows::new(alloc);
    pool.push(set_of(alloc, 5, 4)?)?;
    pool.push(set_of(alloc, 5, 2)?)?;
    Ok(pool)
}

/// The names of the slots of the first method: none before instruction 0, and one before instruction 1.
fn slot_rows(alloc: Global) -> Result<Rows<FlatRows>, Memory> {
    let mut rows = FlatRows::new(alloc);
    rows.push(&[])?;
    rows.push(&[0])?;
    let mut slots = Rows::new(alloc);
    slots.push(rows)?;
    Ok(slots)
}

/// The numbers of what the instructions of the first method throw: only the last of four has a name.
fn thrown_rows(alloc: Global) -> Result<Rows<Rows<u32>>, Memory> {
    let mut numbers = Rows::new(alloc);
    for number in [0u32, 0, 0, 2] {
        numbers.push(number)?;
    }
    let mut thrown = Rows::new(alloc);
    thrown.push(numbers)?;
    Ok(thrown)
}

/// Adds what the class sets tell at first, and after a slot and what is thrown are named a set.
pub fn add_code(out: &mut String, alloc: Global, program: &Program) -> Result<(), Memory> {
    let mut sets = ClassSets::new(alloc, program)?;
    add_shared(out, alloc, &mut sets)
}

/// Adds what class sets tell, before and after a slot and what is thrown are named a set.
fn add_shared(out: &mut String, alloc: Global, sets: &mut ClassSets) -> Result<(), Memory> {
    add_least(out, sets)?;
    share_two(alloc, sets)?;
    add_least(out, sets)
}

/// Adds what the class sets tell after writes of what a method takes, returns, and throws.
pub fn add_methods(out: &mut String, alloc: Global, program: &Program) -> Result<(), Memory>
    requires { program.now ≡ sample }
{
    let mut sets = ClassSets::new(alloc, program)?;
    sets.param_mut(MEMBER, 0).add(0);
    sets.result_mut(MEMBER).add(1);
    sets.out_mut(WITHOUT_CODE).add(3);
    add_least(out, &sets)
}

/// Adds what the class sets tell after writes of what is in a field and in a bag.
pub fn add_objects(out: &mut String, alloc: Global, program: &Program) -> Result<(), Memory>
    requires { program.now ≡ sample }
{
    let mut sets = ClassSets::new(alloc, program)?;
    sets.field_mut(FieldId(0)).add(2);
    sets.bag_mut(Token(4)).add(1);
    add_least(out, &sets)
}
