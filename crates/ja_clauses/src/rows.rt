ghost use Rattle.std.specs.Prelude.{◌≡◌, ◌^◌, ◌<◌, false};
ghost use Rattle.ja_ir.specs.Operations.{arguments};
ghost use Rattle.ja_work.specs.Ends as ends;

use crate::counts::argument_count;
use crate::plain::{moved, never};
use ja_base::Kind;
use ja_ir::{CallOp, RowEffect, RowFlow, RowResult};
use ja_work::{Clause, Spot};

/// Whether a row makes tainted things whatever the arguments are.
fn is_always(flow: RowFlow) -> bool
    ensures { result ≡ ends.is_always flow }
{
    match flow {
        RowFlow::Always => true,
        RowFlow::Never | RowFlow::Args => false,
    }
}

/// How many of so many arguments decide whether it does.
fn deciding(flow: RowFlow, count: u32) -> u32
    ensures { result ≡ ends.deciding flow count }
{
    match flow {
        RowFlow::Always | RowFlow::Never => 0,
        RowFlow::Args => count,
    }
}

/// How many of so many arguments decide what a member of the first of them is.
fn member_count(flow: RowFlow, count: u32) -> u32
    ensures { result ≡ ends.member_count flow count }
{
    match flow {
        RowFlow::Always => 0,
        RowFlow::Never => 1.min(count),
        RowFlow::Args => count,
    }
}

/// True at most by the flow of a library call, whose arguments lie over so many values.
pub fn by_flow(call: &CallOp, under: u32) -> Clause
    requires { arguments call.now < 2 ^ 32 }
    ensures { result ≡ ends.by_flow call.now under }
{
    let flow = call.row.flow;
    Clause {
        exact: false,
        always: is_always(flow),
        one: None,
        first: under,
        count: deciding(flow, argument_count(call)),
    }
}

/// The spot may become true by what a library call puts into the objects that it changes.
pub fn taking(exact: bool, call: &CallOp, under: u32, spot: Spot) -> Clause
    requires { arguments call.now < 2 ^ 32 }
    ensures { result ≡ ends.taking exact call.now under spot }
{
    Clause {
        exact,
        always: is_always(call.row.flow),
        one: Some(spot),
        first: under,
        count: argument_count(call),
    }
}

/// True at most where one of so many arguments is, and everywhere where `always` is set.
fn by_arguments(always: bool, under: u32, count: u32) -> Clause
    ensures { result ≡ record { exact = false; always = always; one = None; first = under; count = count } }
{
    Clause {
        exact: false,
        always,
        one: None,
        first: under,
        count,
    }
}

/// The reference that a library call answers.
fn answered(call: &CallOp, under: u32) -> Clause
    requires { arguments call.now < 2 ^ 32 }
    ensures { result ≡ ends.answer_by call.now.row.result call.now.row.effect call.now under }
{
    let flow = call.row.flow;
    let count = argument_count(call);
    match (call.row.result, call.row.effect) {
        (RowResult::Fresh, _) => by_flow(call, under),
        (RowResult::Argument, RowEffect::Quiet) => by_arguments(false, under, 1.min(count)),
        (RowResult::Member, RowEffect::Quiet) => {
            by_arguments(is_always(flow), under, member_count(flow, count))
        }
        _ => by_arguments(is_always(flow), under, count),
    }
}

/// What a library call answers of a kind: a primitive by its flow.
fn answer_of(kind: Kind, call: &CallOp, under: u32) -> Clause
    requires { arguments call.now < 2 ^ 32 }
    ensures { result ≡ ends.answer_of kind call.now under }
{
    match kind {
        Kind::R => answered(call, under),
        _ => by_flow(call, under),
    }
}

/// What a library call answers.
pub fn answer(call: &CallOp, under: u32) -> Clause
    requires { arguments call.now < 2 ^ 32 }
    ensures { result ≡ ends.answer call.now.result call.now under }
{
    match &call.result {
        Some(type_) => answer_of(type_.kind, call, under),
        None => never(),
    }
}

/// Whether something tainted was stored by a library call.
pub fn dirt_by(call: &CallOp, under: u32) -> Clause
    requires { arguments call.now < 2 ^ 32 }
    ensures { result ≡ ends.dirt_by call.now.row.effect call.now under }
{
    match call.row.effect {
        RowEffect::Quiet => moved(Spot::Dirt),
        _ => taking(true, call, under, Spot::Dirt),
    }
}
