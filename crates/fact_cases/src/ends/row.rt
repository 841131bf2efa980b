use ja_base::{Flags, JavaType, JavaTypes, Kind, Memory, Name, Numbers};
use ja_ir::{CallKind, CallOp, LibRow, Op, RowEffect, RowFlow, RowResult};
use std::alloc::Global;

/// What a row of the library says.
#[derive(Clone, Copy)]
struct Row {
    flow: RowFlow,
    effect: RowEffect,
    answer: RowResult,
}

/// The rows of the calls, in their order.
static ROWS: [Row; 12] = [
    Row {
        flow: RowFlow::Never,
        effect: RowEffect::Quiet,
        answer: RowResult::Fresh,
    },
    Row {
        flow: RowFlow::Always,
        effect: RowEffect::Quiet,
        answer: RowResult::Fresh,
    },
    Row {
        flow: RowFlow::Args,
        effect: RowEffect::Quiet,
        answer: RowResult::Fresh,
    },
    Row {
        flow: RowFlow::Never,
        effect: RowEffect::Quiet,
        answer: RowResult::Argument,
    },
    Row {
        flow: RowFlow::Never,
        effect: RowEffect::Quiet,
        answer: RowResult::Member,
    },
    Row {
        flow: RowFlow::Never,
        effect: RowEffect::Quiet,
        answer: RowResult::Any,
    },
    Row {
        flow: RowFlow::Never,
        effect: RowEffect::Blend,
        answer: RowResult::Argument,
    },
    Row {
        flow: RowFlow::Never,
        effect: RowEffect::Blend,
        answer: RowResult::Fresh,
    },
    Row {
        flow: RowFlow::Never,
        effect: RowEffect::Absorb,
        answer: RowResult::Fresh,
    },
    Row {
        flow: RowFlow::Args,
        effect: RowEffect::Absorb,
        answer: RowResult::Member,
    },
    Row {
        flow: RowFlow::Always,
        effect: RowEffect::Quiet,
        answer: RowResult::Fresh,
    },
    Row {
        flow: RowFlow::Always,
        effect: RowEffect::Quiet,
        answer: RowResult::Fresh,
    },
];

/// The type of texts.
fn text_type(alloc: Global) -> Result<JavaType, Memory> {
    let name = Name::of(alloc, b"java/lang/String")?;
    Ok(JavaType {
        kind: Kind::R,
        name,
    })
}

/// A row of the library, without sinks.
fn library_row(alloc: Global, row: Row) -> LibRow {
    LibRow {
        flow: row.flow,
        effect: row.effect,
        result: row.answer,
        sinks: Numbers::new(alloc),
        marks: Flags::new(alloc),
        category: 0,
    }
}

/// The parameters of a call of a kind, which takes one reference.
fn params(alloc: Global, kind: CallKind) -> Result<JavaTypes, Memory> {
    let mut params = JavaTypes::new(alloc);
    if kind == CallKind::Static {
        let text = text_type(alloc)?;
        params.push(text)?;
    }
    Ok(params)
}

/// The kind of the call with the row of a number: the one with number 9 has a receiver.
fn kind_of(number: usize) -> CallKind {
    if number == 9 {
        CallKind::Virtual
    } else {
        CallKind::Static
    }
}

/// A call of a kind with this row, which takes one reference and answers one.
fn call_of(alloc: Global, kind: CallKind, row: LibRow) -> Result<CallOp, Memory> {
    let class = Name::of(alloc, b"A")?;
    let name = Name::of(alloc, b"a")?;
    let desc = Name::of(alloc, b"()V")?;
    let params = params(alloc, kind)?;
    let text = text_type(alloc)?;
    Ok(CallOp {
        kind,
        class,
        name,
        desc,
        params,
        result: Some(text),
        row,
        found: None,
    })
}

/// A call that takes one reference and answers one, with the row of a number.
pub fn library_call(alloc: Global, number: usize) -> Result<Op, Memory> {
    let row = library_row(alloc, ROWS[number % 12]);
    Ok(Op::Call(call_of(alloc, kind_of(number), row)?))
}
