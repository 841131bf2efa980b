use crate::ends::row::library_call;
use ja_base::{FieldId, Kind, Memory, Name, Numbers};
use ja_ir::{Op, Token};
use std::alloc::Global;

/// The operation that computes from two values.
fn mix(throws: bool) -> Op {
    Op::Mix {
        pops: 2,
        result: Kind::P1,
        throws,
    }
}

/// The operations that move values, and those that push what is new or computed.
fn making(number: usize) -> Op {
    match number {
        0 => Op::Nop,
        1 => Op::Load(Kind::R, 0),
        2 => Op::Store(Kind::R, 0),
        3 => Op::Branch { pops: 1 },
        4 => Op::Monitor,
        5 => Op::Const(Kind::P1),
        6 => Op::Text,
        7 => Op::New(Token(0)),
        8 => Op::NewArray {
            last: Token(0),
            dimensions: 1,
        },
        9 => Op::ArrLen,
        10 => Op::InstanceOf,
        11 => mix(false),
        _ => mix(true),
    }
}

/// The operations that read, write or end a method.
pub fn reading(number: usize) -> Op {
    match number {
        13 => Op::GetField(FieldId(0)),
        14 => Op::ArrLoad(Kind::R),
        15 => Op::GetStatic(FieldId(0)),
        16 | 17 => Op::PutField(FieldId(0)),
        18 | 19 => Op::ArrStore(Kind::R),
        20 => Op::PutStatic(FieldId(0)),
        21 => Op::Return(Some(Kind::R)),
        _ => Op::Throw,
    }
}

/// The operation that pops one value and pushes it twice.
fn twice(alloc: Global) -> Result<Op, Memory> {
    let mut pushes = Numbers::new(alloc);
    pushes.push(0)?;
    pushes.push(0)?;
    Ok(Op::Shuffle { pops: 1, pushes })
}

/// The operation of a case.
pub fn operation(alloc: Global, number: usize) -> Result<Op, Memory> {
    if number < 13 {
        return Ok(making(number));
    }
    if number < 23 {
        return Ok(reading(number));
    }
    if number == 23 {
        return Ok(Op::Cast(Name::of(alloc, b"A")?));
    }
    if number == 24 {
        return twice(alloc);
    }
    library_call(alloc, number - 25)
}
