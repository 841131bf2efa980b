//! Numbers as bytes, the highest byte first.

ghost use Rattle.std.specs.Prelude.{◌≡◌, ◌++◌, OnOk};
ghost use Rattle.ja_assembly.specs.Assembled.{u1, u2, u4};

use ja_base::{Bytes, Memory};

/// The lowest byte.
pub(crate) fn put_u1(out: &mut Bytes, n: u64) -> Result<(), Memory>
    ensures { OnOk result (out.new ≡ out.old ++ u1 n) }
{
    out.push((n % 256) as u8)
}

/// The two lowest bytes.
pub(crate) fn put_u2(out: &mut Bytes, n: u64) -> Result<(), Memory>
    ensures { OnOk result (out.new ≡ out.old ++ u2 n) }
{
    put_u1(out, n / 256)?;
    put_u1(out, n)
}

/// The four lowest bytes.
pub(crate) fn put_u4(out: &mut Bytes, n: u64) -> Result<(), Memory>
    ensures { OnOk result (out.new ≡ out.old ++ u4 n) }
{
    put_u1(out, n / 16777216)?;
    put_u1(out, n / 65536)?;
    put_u1(out, n / 256)?;
    put_u1(out, n)
}

/// The bytes of a text.
pub(crate) fn put_bytes(out: &mut Bytes, bytes: &[u8]) -> Result<(), Memory>
    ensures { OnOk result (out.new ≡ out.old ++ bytes.now) }
{
    for byte in bytes {
        out.push(*byte)?;
    }
    Ok(())
}
