//! The files of made classes.

ghost use Rattle.std.specs.Prelude.{◌≡◌, ◌≤◌, IfOk};
ghost use Rattle.ja_generator.specs.Made.{made_files};

use crate::class::file_by;
use crate::drawn::{MODULUS, drawn_after};
use ja_base::{Files, MAX_GENERATED_CLASSES, Memory};
use std::alloc::Global;

/// The class files of so many classes, made from a number.
///
/// Class `i` is named `G` and `i` in four decimal digits. It has a static method `f` from a text to a text and a `main`
/// that passes what `f` makes of a text to the sink `demo/Taint.sink`. With `x(0)` the remainder of the number by 65,537
/// and `x(i + 1) = (75 x(i) + 74) mod 65537`, the `f` of class `i` goes by `x = x(i + 1)`: by the remainder of `x` by 4 it
/// gives back its argument, `demo/Taint.copy` of it, the `f` of class `x / 4 mod i` of it (for class 0 the argument), or a
/// text of the source `demo/Taint.source`.
///
/// The only error is want of memory.
pub fn generated(alloc: Global, number: u32, classes: u32) -> Result<Files, Memory>
    requires { classes ≤ MAX_GENERATED_CLASSES }
    ensures { IfOk result (λ files. files ≡ made_files number classes) }
{
    let mut files = Files::new(alloc);
    let mut x = number % MODULUS;
    for i in 0..classes {
        x = drawn_after(x);
        files.push(file_by(alloc, x, i)?)?;
    }
    Ok(files)
}
