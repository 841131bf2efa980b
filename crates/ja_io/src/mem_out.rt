ghost use Rattle.std.specs.Prelude.{◌≡◌, ◌↔◌, ◌<◌, ◌≤◌, [], length, IfOk, IsErr, IsTrue};
ghost use Rattle.ja_io.specs.MemOut.{write_fails, taken_count, after_write};

use crate::{Out, OutFault};
use ja_base::{Memory, Numbers};
use std::alloc::Global;
use std::marker::Model;

/// A sink in memory, some of whose writes fail.
///
/// Its writes are numbered from 1, as far as a counter of 64 bits goes.
#[derive(Drop)]
pub struct MemOut {
    written: Vec<u8>,
    step: u64,
    room: u64,
    fails: Numbers,
    writes: u64,
    faults: u64,
}

impl Model for MemOut {
    ghost use Rattle.std.specs.Prelude.{◌≤◌, length, vec_capacity};
    ghost use Rattle.ja_io.specs.MemOut.{OutState};

    ghost Value = { OutState };

    ghost view = { λ o. record { written = o.written.items; step = o.step; room = o.room; fails = o.fails; writes = o.writes; faults = o.faults } };

    ghost invariant = { λ o. (1 ≤ o.step) × (length o.written.items ≤ o.room) × (o.room ≤ vec_capacity o.written) };
}

impl MemOut {
    /// A sink with room for `room` bytes, which takes at most `step` bytes at a time. The writes whose
    /// numbers are in `fails` fail. It reserves the room.
    pub fn new(alloc: Global, step: u64, room: u64, fails: Numbers) -> Result<MemOut, Memory>
        requires { 1 ≤ step }
        ensures { IfOk result (λ out. out ≡ record { written = []; step = step; room = room; fails = fails; writes = 0; faults = 0 }) }
    {
        let written = Vec::with_capacity(alloc, room as usize)?;
        Ok(MemOut {
            written,
            step,
            room,
            fails,
            writes: 0,
            faults: 0,
        })
    }

    /// The bytes that were written. It takes no memory.
    pub fn written(&self) -> &[u8]
        ensures { result.now ≡ self.now.written }
    {
        self.written.as_slice()
    }

    /// The number of writes that failed, as far as the counter goes. It takes no memory.
    pub fn faults(&self) -> u64
        ensures { result ≡ self.now.faults }
    {
        self.faults
    }
}

impl Out for MemOut {
    ghost use Rattle.std.specs.Prelude.{Some};

    ghost written = { λ o. Some o.written };

    ghost faults = { λ o. o.faults };

    /// Fails exactly where the write's number is to fail or the room is used up. Else it takes the least
    /// of the step, the piece's length and the room that is left.
    fn write(&mut self, piece: &[u8]) -> Result<u64, OutFault>
        requires { 0 < length piece.now }
        ensures fault { IsErr result ↔ IsTrue (write_fails self.old) }
        ensures count { IfOk result (λ n. n ≡ taken_count self.old piece.now) }
        ensures some { IfOk result (λ n. 1 ≤ n) }
        ensures after { self.new ≡ after_write self.old piece.now }
        ensures grows { self.old.faults ≤ self.new.faults }
    {
        self.writes = self.writes.saturating_add(1);
        let left = self.room - self.written.len() as u64;
        if left == 0 || self.fails.as_slice().contains(&self.writes) {
            self.faults = self.faults.saturating_add(1);
            return Err(OutFault);
        }
        let count = self.step.min(left).min(piece.len() as u64);
        self.written
            .extend_from_slice(&piece[..count as usize])
            .unwrap();
        Ok(count)
    }
}
