ghost use Rattle.std.specs.Prelude.{◌≡◌, ℕ, ◌<◌, IfSome, Option, Some, None, if◌then◌else◌, nat_lt, bytes_eq, length, map, position};
ghost use Rattle.ja_code.specs.Opcode.{form_at, is_refused};
ghost use Rattle.ja_code.specs.Mnemonic.{mnemonic_at, opcode_for};
ghost use Rattle.ja_code.specs.Behaviour.{behaviour_at};

use crate::behaviour::Behaviour;
use crate::form::Form;
use crate::number::{
    ALOAD_0, ARETURN, INVOKEDYNAMIC, INVOKESPECIAL, INVOKESTATIC, JSR, JSR_W, LDC, RET, RETURN,
};
use crate::table::{OPCODES, Row};
use std::marker::Model;

/// An opcode (JVM specification 6.5): its number, 0 to 201.
#[derive(Clone, Copy, PartialEq, Eq)]
pub struct Opcode {
    number: u8,
}

impl Model for Opcode {
    ghost Value = { ℕ };

    ghost view = { λ opcode. opcode.number };

    ghost invariant = { λ opcode. opcode.number < 202 };

    ghost inverse = { λ number. record { number = number } };
}

/// Whether the analyser refuses the opcode of a number: subroutines and dynamic calls.
pub(crate) fn is_refused(number: u8) -> bool
    ensures { result ≡ is_refused number }
{
    matches!(number, JSR | RET | INVOKEDYNAMIC | JSR_W)
}

/// The operands that the opcode of a number takes; None above 201.
pub(crate) fn form_of(number: u8) -> Option<Form>
    ensures { result ≡ form_at number }
{
    if number > 201 {
        return None;
    }
    let opcode = Opcode { number };
    Some(opcode.form())
}

/// The place of the row with a mnemonic.
fn row_of(rows: &[Row], mnemonic: &[u8]) -> Option<usize>
    ensures place { result ≡ position (λ row. bytes_eq row.mnemonic.now mnemonic.now) rows.now }
    ensures inside { IfSome result (λ place. place < length rows.now) }
{
    rows.iter()
        .position(|row| row.mnemonic.as_bytes() == mnemonic)
}

/// The place of a mnemonic among those of the rows.
fn place_of(rows: &[Row], mnemonic: &[u8]) -> Option<usize>
    ensures place { result ≡ position (λ text. bytes_eq text mnemonic.now) (map (λ row. row.mnemonic.now) rows.now) }
    ensures inside { IfSome result (λ place. place < length rows.now) }
{
    row_of(rows, mnemonic)
}

/// The opcode of a row of the table.
fn opcode_in(place: usize) -> Opcode
    requires { place < 202 }
    ensures { result ≡ place }
{
    let row = &OPCODES[place];
    Opcode { number: row.number }
}

impl Opcode {
    pub const ALOAD_0: Opcode = Opcode { number: ALOAD_0 };

    pub const ARETURN: Opcode = Opcode { number: ARETURN };

    pub const INVOKESPECIAL: Opcode = Opcode {
        number: INVOKESPECIAL,
    };

    pub const INVOKESTATIC: Opcode = Opcode {
        number: INVOKESTATIC,
    };

    pub const LDC: Opcode = Opcode { number: LDC };

    pub const RETURN: Opcode = Opcode { number: RETURN };

    /// The opcode of a number; None above 201, where there is none.
    pub fn of(number: u8) -> Option<Opcode>
        ensures { result ≡ (if nat_lt number 202 then Some number else None) }
    {
        if number < 202 {
            Some(Opcode { number })
        } else {
            None
        }
    }

    /// The opcode with a mnemonic; None where no opcode has it.
    pub fn named(mnemonic: &[u8]) -> Option<Opcode>
        ensures { result ≡ opcode_for mnemonic.now }
    {
        match place_of(&OPCODES, mnemonic) {
            Some(place) => Some(opcode_in(place)),
            None => None,
        }
    }

    pub fn number(self) -> u8
        ensures number { result ≡ self }
        ensures most { result < 202 }
    {
        self.number
    }

    pub fn mnemonic(self) -> &'static str
        ensures { result.now ≡ mnemonic_at self }
    {
        OPCODES[self.number as usize].mnemonic
    }

    /// The operands that it takes.
    pub fn form(self) -> Form
        ensures { Some result ≡ form_at self }
    {
        OPCODES[self.number as usize].form
    }

    /// What it does; None for `jsr`, `ret`, `invokedynamic`, `jsr_w` and `wide`, which no decoded instruction has.
    pub fn behaviour(self) -> Option<Behaviour>
        ensures { result ≡ behaviour_at self }
    {
        OPCODES[self.number as usize].behaviour
    }

    /// Whether the analyser refuses it: subroutines and dynamic calls.
    pub fn is_refused(self) -> bool
        ensures { result ≡ is_refused self }
    {
        is_refused(self.number)
    }
}
