//! Bytes as text.
use std::fmt;

/// Bytes as they print: those from `!` to `~` except `\` as themselves, and each other byte as `\x` and two
/// hexadecimal digits.
#[derive(Clone, Copy)]
pub struct ShownBytes<'a>(pub &'a [u8]);

impl fmt::Display for ShownBytes<'_> {
    fn fmt<W: fmt::Write>(&self, f: &mut fmt::Formatter<W>) -> fmt::Result {
        for byte in self.0 {
            write_byte(f, *byte)?;
        }
        Ok(())
    }
}

/// Writes a byte.
fn write_byte<W: fmt::Write>(f: &mut fmt::Formatter<W>, byte: u8) -> fmt::Result {
    if 33 <= byte && byte <= 126 && byte != 92 {
        f.write_char(char::from(byte))
    } else {
        write!(f, "\\x{byte:02x}")
    }
}
