ghost use Rattle.std.specs.Prelude.{◌+◌, ◌^◌, ◌<◌};
ghost use Rattle.ja_ir.specs.Params.{param_count};

use crate::before::Before;
use ja_base::MethodId;
use ja_facts::Effects;
use ja_ir::Method;

/// A way through a method, which an instruction enters with so many arguments over so many values on
/// the stack.
#[derive(Clone, Copy)]
pub struct Through<'a> {
    pub(crate) before: Before<'a>,
    pub(crate) callee: &'a Method,
    pub(crate) effects: &'a Effects,
    pub(crate) n: MethodId,
    pub(crate) count: u32,
    pub(crate) under: u32,
    ghost fits: { under + count < 2 ^ 32 },
    ghost few: { param_count callee.now < 2 ^ 32 },
}
