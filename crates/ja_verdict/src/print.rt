//! How bytes, names and numbers print. A text is made whole before any of it is written.
ghost use Rattle.std.specs.Prelude.{◌≡◌, ◌<◌, ◌++◌, OnOk};
ghost use Rattle.std.specs.Fmt.{decimal};
ghost use Rattle.ja_facts.specs.Verdict.{hex_digit, printed, printed_byte};

use ja_base::Memory;
use std::alloc::Global;

/// Appends bytes as they are.
pub fn push_text(out: &mut Vec<u8>, text: &[u8]) -> Result<(), Memory>
    ensures { OnOk result (out.new.items ≡ out.old.items ++ text.now) }
{
    out.extend_from_slice(text)?;
    Ok(())
}

/// Appends a number in decimal digits.
pub fn push_number(alloc: Global, out: &mut Vec<u8>, number: u64) -> Result<(), Memory>
    ensures { OnOk result (out.new.items ≡ out.old.items ++ decimal number) }
{
    let digits = format!(in alloc; "{number}")?;
    push_text(out, digits.as_bytes())
}

/// A hexadecimal digit, in lower case.
fn hex_digit_of(digit: u8) -> u8
    requires { digit < 16 }
    ensures { result ≡ hex_digit digit }
{
    if 10 <= digit { 87 + digit } else { 48 + digit }
}

/// Appends a byte of a name as it prints: itself, or `\x` and two hexadecimal digits.
fn push_printed_byte(out: &mut Vec<u8>, byte: u8) -> Result<(), Memory>
    ensures { OnOk result (out.new.items ≡ out.old.items ++ printed_byte byte) }
{
    if 33 <= byte && byte <= 126 && byte != 92 {
        push_text(out, &[byte])
    } else {
        push_text(
            out,
            &[92, 120, hex_digit_of(byte / 16), hex_digit_of(byte % 16)],
        )
    }
}

/// Appends a name as it prints, byte by byte.
pub fn push_name(out: &mut Vec<u8>, name: &[u8]) -> Result<(), Memory>
    ensures { OnOk result (out.new.items ≡ out.old.items ++ printed name.now) }
{
    for byte in name {
        push_printed_byte(out, *byte)?;
    }
    Ok(())
}
