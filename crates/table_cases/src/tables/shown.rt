//! What answers are printed as.
use ja_ir::{LibRow, RowEffect, RowFlow, RowResult};
use ja_lib::TableFault;
use std::fmt;

/// What is wrong with a table, or `read`.
#[derive(Clone, Copy)]
pub struct FaultText(pub Option<TableFault>);

impl fmt::Display for FaultText {
    fn fmt<W: fmt::Write>(&self, f: &mut fmt::Formatter<W>) -> fmt::Result {
        match self.0 {
            None => f.write_str("read"),
            Some(TableFault::Text) => f.write_str("no text in TOML"),
            Some(TableFault::UnknownKey) => f.write_str("unknown key"),
            Some(TableFault::BadCategory) => f.write_str("bad category"),
            Some(TableFault::BadRow { row }) => write!(f, "bad row {row}"),
            Some(TableFault::BadEntry { entry }) => write!(f, "bad entry {entry}"),
            Some(TableFault::Memory) => f.write_str("out of memory"),
        }
    }
}

/// What a row says of a call.
#[derive(Clone, Copy)]
pub struct RowText<'a>(pub &'a LibRow);

impl fmt::Display for RowText<'_> {
    fn fmt<W: fmt::Write>(&self, f: &mut fmt::Formatter<W>) -> fmt::Result {
        write!(
            f,
            "flow {} effect {} result {} sinks {}",
            flow_word(self.0.flow),
            effect_word(self.0.effect),
            result_word(self.0.result),
            self.0.sinks.len()
        )
    }
}

/// The word of a flow.
fn flow_word(flow: RowFlow) -> &'static str {
    match flow {
        RowFlow::Always => "always",
        RowFlow::Never => "never",
        RowFlow::Args => "args",
    }
}

/// The word of an effect.
fn effect_word(effect: RowEffect) -> &'static str {
    match effect {
        RowEffect::Quiet => "quiet",
        RowEffect::Absorb => "absorb",
        RowEffect::Blend => "blend",
    }
}

/// The word of what a call answers.
fn result_word(given: RowResult) -> &'static str {
    match given {
        RowResult::Fresh => "fresh",
        RowResult::Argument => "argument",
        RowResult::Member => "member",
        RowResult::Any => "any",
    }
}
