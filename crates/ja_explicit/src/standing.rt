ghost use Rattle.std.specs.Prelude.{◌≡◌, ◌≤◌};
ghost use Rattle.ja_explicit.specs.Given.{value_count, most_values};

use ja_ir::Method;

/// A method and its number, with the words of its parameters and of its present assignment.
#[derive(Clone, Copy)]
pub struct Standing<'a> {
    pub method: &'a Method,
    pub m: u32,
    pub entry: u32,
    pub word: u32,
    pub ghost narrow: { value_count method.now ≤ most_values },
}
