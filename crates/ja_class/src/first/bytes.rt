//! Numbers and bytes at the front of a slice.

ghost use Rattle.std.specs.Prelude.{◌≡◌};
ghost use Rattle.std.specs.Int.{w16, w32};
ghost use Rattle.ja_class.specs.InnerReading.{Gives, byte_at, number_at, after_number, bytes_at, pair_at, sized_at};

use super::FirstFault;

/// A number of two bytes, and the bytes after it.
pub(super) fn u16_at(bytes: &[u8]) -> Result<(u16, &[u8]), FirstFault>
    ensures { Gives (λ x. (x.0, x.1.now)) result (number_at w16 bytes.now) }
{
    if bytes.len() < 2 {
        return Err(FirstFault::Unbuilt);
    }
    let (front, rest) = bytes.split_at(2);
    Ok((u16::from_be_bytes([front[0], front[1]]), rest))
}

/// A number of four bytes, and the bytes after it.
pub(super) fn u32_at(bytes: &[u8]) -> Result<(u32, &[u8]), FirstFault>
    ensures { Gives (λ x. (x.0, x.1.now)) result (number_at w32 bytes.now) }
{
    if bytes.len() < 4 {
        return Err(FirstFault::Unbuilt);
    }
    let (front, rest) = bytes.split_at(4);
    let number = u32::from_be_bytes([front[0], front[1], front[2], front[3]]);
    Ok((number, rest))
}

/// The bytes after a number of two bytes, which must be this one.
#[tactic(auto, unfolding(crate::specs::InnerReading::after_number))]
pub(super) fn after_u16(bytes: &[u8], expected: u16) -> Result<&[u8], FirstFault>
    ensures { Gives (λ x. x.now) result (after_number w16 expected bytes.now) }
{
    let (number, rest) = u16_at(bytes)?;
    if number != expected {
        return Err(FirstFault::Unbuilt);
    }
    Ok(rest)
}

/// The bytes after a number of four bytes, which must be this one.
#[tactic(auto, unfolding(crate::specs::InnerReading::after_number))]
pub(super) fn after_u32(bytes: &[u8], expected: u32) -> Result<&[u8], FirstFault>
    ensures { Gives (λ x. x.now) result (after_number w32 expected bytes.now) }
{
    let (number, rest) = u32_at(bytes)?;
    if number != expected {
        return Err(FirstFault::Unbuilt);
    }
    Ok(rest)
}

/// The first bytes, and those after them.
pub(super) fn front_of(bytes: &[u8], count: usize) -> Result<(&[u8], &[u8]), FirstFault>
    ensures { Gives (λ x. (x.0.now, x.1.now)) result (bytes_at count bytes.now) }
{
    if bytes.len() < count {
        return Err(FirstFault::Unbuilt);
    }
    Ok(bytes.split_at(count))
}

/// The bytes behind their number of two bytes, and the bytes after them.
#[tactic(auto, unfolding(crate::specs::InnerReading::sized_at))]
pub(super) fn short_text(bytes: &[u8]) -> Result<(&[u8], &[u8]), FirstFault>
    ensures { Gives (λ x. (x.0.now, x.1.now)) result (sized_at w16 bytes.now) }
{
    let (count, rest) = u16_at(bytes)?;
    front_of(rest, count as usize)
}

/// Two numbers of two bytes, and the bytes after them.
#[tactic(auto, unfolding(crate::specs::InnerReading::pair_at))]
pub(super) fn u16_pair(bytes: &[u8]) -> Result<(u16, u16, &[u8]), FirstFault>
    ensures { Gives (λ x. ((x.0, x.1), x.2.now)) result (pair_at bytes.now) }
{
    let (first, rest) = u16_at(bytes)?;
    let (second, rest) = u16_at(rest)?;
    Ok((first, second, rest))
}

/// The bytes behind their number of four bytes, and the bytes after them.
#[tactic(auto, unfolding(crate::specs::InnerReading::sized_at))]
pub(super) fn long_bytes(bytes: &[u8]) -> Result<(&[u8], &[u8]), FirstFault>
    ensures { Gives (λ x. (x.0.now, x.1.now)) result (sized_at w32 bytes.now) }
{
    let (count, rest) = u32_at(bytes)?;
    front_of(rest, count as usize)
}

/// The first byte, and the bytes after it.
pub(super) fn u8_at(bytes: &[u8]) -> Result<(u8, &[u8]), FirstFault>
    ensures { Gives (λ x. (x.0, x.1.now)) result (byte_at bytes.now) }
{
    match bytes {
        [] => Err(FirstFault::Unbuilt),
        [first, rest @ ..] => Ok((*first, rest)),
    }
}
