ghost use Rattle.std.specs.Prelude.{◌≡◌, ◌+◌, ◌≤◌, length};
ghost use Rattle.ja_code.specs.Bytes.{u2_at, u4_at, far, near, rank, padding};

/// The two bytes from a place on as a number, the high byte first.
pub(crate) fn u2(bytes: &[u8], at: usize) -> u16
    requires { at + 2 ≤ length bytes.now }
    ensures { result ≡ u2_at bytes.now at }
{
    u16::from_be_bytes([bytes[at], bytes[at + 1]])
}

/// The four bytes from a place on as a number, the high byte first.
pub(crate) fn u4(bytes: &[u8], at: usize) -> u32
    requires { at + 4 ≤ length bytes.now }
    ensures { result ≡ u4_at bytes.now at }
{
    u32::from_be_bytes([bytes[at], bytes[at + 1], bytes[at + 2], bytes[at + 3]])
}

/// The target of a branch at `pc` with an offset of four bytes in two's complement.
///
/// A target before the start of the code wraps round to a place behind its end.
pub(crate) fn far_target(pc: u32, offset: u32) -> u32
    ensures { result ≡ far pc offset }
{
    pc.wrapping_add(offset)
}

/// The target of a branch at `pc` with an offset of two bytes in two's complement.
pub(crate) fn near_target(pc: u32, offset: u16) -> u32
    ensures { result ≡ near pc offset }
{
    let offset = u32::from(offset);
    if offset < 0x8000 {
        far_target(pc, offset)
    } else {
        far_target(pc, offset + 0xffff_0000)
    }
}

/// The place of a number in two's complement among all of them, so that places compare as the numbers do.
pub(crate) fn place(number: u32) -> u64
    ensures { result ≡ rank number }
{
    u64::from(number.wrapping_add(0x8000_0000))
}

/// How many bytes stand between the opcode of a switch at `pc` and the next multiple of four.
pub(crate) fn gap(pc: u32) -> usize
    ensures { result ≡ padding pc }
{
    3 - pc as usize % 4
}
