//! A call as text.
use crate::program_text::shown::{MarksText, Shown, Spaced, TargetText, TypeText, separator};
use ja_base::{JavaType, JavaTypes};
use ja_ir::{CallKind, CallOp, LibRow, MethodAt, RowEffect, RowFlow, RowResult};
use std::fmt;

/// A call: what the instruction names, its row, and what it finds; and whether the program names categories
/// of marks.
#[derive(Clone, Copy)]
pub struct CallText<'a>(pub &'a CallOp, pub bool);

impl fmt::Display for CallText<'_> {
    fn fmt<W: fmt::Write>(&self, f: &mut fmt::Formatter<W>) -> fmt::Result {
        let call = self.0;
        write!(
            f,
            "call {} {} {} {}",
            call_word(call.kind),
            Shown(&call.class),
            Shown(&call.name),
            Shown(&call.desc)
        )?;
        write!(
            f,
            " ({}) {}",
            TypesText(&call.params),
            ResultText(&call.result)
        )?;
        write!(f, " {}", RowText(&call.row))?;
        if self.1 {
            write!(f, " {}", MarksText(call.row.marks.as_slice()))?;
            write!(f, " category {}", call.row.category)?;
        }
        write!(f, " found {}", FoundText(call.found))
    }
}

/// Types, parted by blanks.
#[derive(Clone, Copy)]
struct TypesText<'a>(&'a JavaTypes);

impl fmt::Display for TypesText<'_> {
    fn fmt<W: fmt::Write>(&self, f: &mut fmt::Formatter<W>) -> fmt::Result {
        for (at, java_type) in self.0.as_slice().iter().enumerate() {
            write!(f, "{}{}", separator(at), TypeText(java_type))?;
        }
        Ok(())
    }
}

/// The type of a result, and `-` where there is none.
#[derive(Clone, Copy)]
struct ResultText<'a>(&'a Option<JavaType>);

impl fmt::Display for ResultText<'_> {
    fn fmt<W: fmt::Write>(&self, f: &mut fmt::Formatter<W>) -> fmt::Result {
        match self.0 {
            Some(java_type) => write!(f, "{}", TypeText(java_type)),
            None => f.write_str("-"),
        }
    }
}

/// What a static or special call finds, and `-` for other calls.
#[derive(Clone, Copy)]
struct FoundText(Option<MethodAt>);

impl fmt::Display for FoundText {
    fn fmt<W: fmt::Write>(&self, f: &mut fmt::Formatter<W>) -> fmt::Result {
        match self.0 {
            Some(target) => write!(f, "{}", TargetText(target)),
            None => f.write_str("-"),
        }
    }
}

/// A row: when it makes tainted things, what it changes, what it answers, and its sinks.
#[derive(Clone, Copy)]
struct RowText<'a>(&'a LibRow);

impl fmt::Display for RowText<'_> {
    fn fmt<W: fmt::Write>(&self, f: &mut fmt::Formatter<W>) -> fmt::Result {
        let row = self.0;
        write!(
            f,
            "row {} {} {} [{}]",
            flow_word(row.flow),
            effect_word(row.effect),
            result_word(row.result),
            Spaced(row.sinks.as_slice())
        )
    }
}

/// The word of a call's kind.
fn call_word(kind: CallKind) -> &'static str {
    match kind {
        CallKind::Virtual => "virtual",
        CallKind::Special => "special",
        CallKind::Static => "static",
        CallKind::Interface => "interface",
        CallKind::StaticField => "staticfield",
        CallKind::MemberField => "memberfield",
    }
}

/// The word of a flow in the table file.
fn flow_word(flow: RowFlow) -> &'static str {
    match flow {
        RowFlow::Always => "always",
        RowFlow::Never => "none",
        RowFlow::Args => "args",
    }
}

/// The word of an effect in the table file.
fn effect_word(effect: RowEffect) -> &'static str {
    match effect {
        RowEffect::Quiet => "none",
        RowEffect::Absorb => "absorb",
        RowEffect::Blend => "blend",
    }
}

/// The word of a result in the table file.
fn result_word(answer: RowResult) -> &'static str {
    match answer {
        RowResult::Fresh => "fresh",
        RowResult::Argument => "self",
        RowResult::Member => "member",
        RowResult::Any => "any",
    }
}
