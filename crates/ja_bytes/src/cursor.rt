ghost use Rattle.std.specs.Prelude.{◌≡◌, ◌<◌, ◌+◌, ◌∷◌, [], length, IfOk, IfErr};
ghost use Rattle.std.specs.Int.{w16, w32, to_be_bytes};
ghost use Rattle.ja_bytes.specs.Reading.{Passes, Ends};

use std::marker::Model;

/// The file ends inside a field, which begins at `at`.
#[derive(Clone, Copy, PartialEq, Eq, Debug)]
pub struct End {
    pub at: u64,
}

/// A reader of a file from its front. Contracts see its place and the bytes that are left.
///
/// All numbers are big-endian. Where fewer bytes are left than a field has, the answer is `End`, and the
/// cursor stays. No call takes memory.
#[derive(Drop)]
pub struct Cursor<'a> {
    place: u64,
    rest: &'a [u8],
}

impl<'a> Model for Cursor<'a> {
    ghost use Rattle.std.specs.Prelude.{◌+◌, ◌<◌, ◌^◌, length};
    ghost use Rattle.ja_bytes.specs.Reading.{Reading};

    ghost Value = { Reading };

    ghost view = { λ c. record { place = c.place; rest = c.rest.now } };

    ghost invariant = { λ c. c.place + length c.rest.now < 2 ^ 64 };
}

impl<'a> Cursor<'a> {
    /// A reader before the first of the bytes.
    pub fn new(bytes: &'a [u8]) -> Cursor<'a>
        ensures { result ≡ record { place = 0; rest = bytes.now } }
    {
        Cursor {
            place: 0,
            rest: bytes,
        }
    }

    /// How many bytes are behind the cursor.
    pub fn place(&self) -> u64
        ensures { result ≡ self.now.place }
    {
        self.place
    }

    /// The bytes that are left.
    pub fn rest(&self) -> &'a [u8]
        ensures { result.now ≡ self.now.rest }
    {
        self.rest
    }

    /// A number of one byte.
    #[inline]
    pub fn u1(&mut self) -> Result<u8, End>
        ensures ok { IfOk result (λ n. Passes self.old self.new (n ∷ [])) }
        ensures end { IfErr result (λ e. Ends self.old self.new 1 e.at) }
    {
        let field = self.take(1)?;
        Ok(field[0])
    }

    /// A number of two bytes.
    #[inline]
    pub fn u2(&mut self) -> Result<u16, End>
        ensures ok { IfOk result (λ n. Passes self.old self.new (to_be_bytes w16 n)) }
        ensures end { IfErr result (λ e. Ends self.old self.new 2 e.at) }
    {
        let field = self.take(2)?;
        Ok(u16::from_be_bytes([field[0], field[1]]))
    }

    /// A number of four bytes.
    #[inline]
    pub fn u4(&mut self) -> Result<u32, End>
        ensures ok { IfOk result (λ n. Passes self.old self.new (to_be_bytes w32 n)) }
        ensures end { IfErr result (λ e. Ends self.old self.new 4 e.at) }
    {
        let field = self.take(4)?;
        Ok(u32::from_be_bytes([field[0], field[1], field[2], field[3]]))
    }

    /// A field of `n` bytes.
    #[inline]
    pub fn take(&mut self, n: u64) -> Result<&'a [u8], End>
        ensures len { IfOk result (λ field. length field.now ≡ n) }
        ensures ok { IfOk result (λ field. Passes self.old self.new field.now) }
        ensures end { IfErr result (λ e. Ends self.old self.new n e.at) }
    {
        if (self.rest.len() as u64) < n {
            return Err(End { at: self.place });
        }
        let (field, rest) = self.rest.split_at(n as usize);
        self.place += n;
        self.rest = rest;
        Ok(field)
    }
}
