//! The numbers that the generator draws, and the names that it gives.

ghost use Rattle.std.specs.Prelude.{◌≡◌, ◌+◌, ◌%◌, ◌<◌, IfOk};
ghost use Rattle.ja_generator.specs.Drawn.{drawn_after, class_name, file_name};

use ja_base::{Memory, Name};
use std::alloc::Global;

/// Each drawn number is below this one, a prime.
pub(crate) const MODULUS: u32 = 65_537;

/// The number that is drawn after another.
pub(crate) fn drawn_after(x: u32) -> u32
    requires { x < MODULUS }
    ensures next { result ≡ drawn_after x }
    ensures below { result < MODULUS }
{
    (x * 75 + 74) % MODULUS
}

/// The last decimal digit of a number.
fn digit(n: u32) -> u8
    ensures { result ≡ 48 + n % 10 }
{
    b'0' + (n % 10) as u8
}

/// The name of class i.
pub(crate) fn class_name(alloc: Global, i: u32) -> Result<Name, Memory>
    ensures { IfOk result (λ name. name ≡ class_name i) }
{
    let name = [
        b'G',
        digit(i / 1_000),
        digit(i / 100),
        digit(i / 10),
        digit(i),
    ];
    Name::of(alloc, &name)
}

/// The name of its file.
pub(crate) fn file_name(alloc: Global, i: u32) -> Result<Name, Memory>
    ensures { IfOk result (λ name. name ≡ file_name i) }
{
    let name = [
        b'G',
        digit(i / 1_000),
        digit(i / 100),
        digit(i / 10),
        digit(i),
        b'.',
        b'c',
        b'l',
        b'a',
        b's',
        b's',
    ];
    Name::of(alloc, &name)
}
