ghost use Rattle.std.specs.Prelude.{◌≡◌, ℕ, ◌<◌, ◌≤◌, List, Option, length, IfOk, OnOk, OnErr};
ghost use Rattle.std.specs.Io.KnownBytes.{WriteAppends};
ghost use Rattle.ja_base.specs.Cause.{Rose};

use thiserror::Error;

/// A sink of bytes.
///
/// Its meaning is the bytes that it tells to be written, which it may leave open, and a count of faults.
pub trait Out {
    /// The bytes that were written. `None` where the sink does not tell.
    ghost written: { Self → Option (List ℕ) };

    /// The number of faults, as far as the counter goes.
    ghost faults: { Self → ℕ };

    /// Writes the front of a piece that is not empty, and answers how many bytes it took: at least one.
    /// A fault takes nothing.
    fn write(&mut self, piece: &[u8]) -> Result<u64, OutFault>
        requires { 0 < length piece.now }
        ensures some { IfOk result (λ n. 1 ≤ n) }
        ensures within { IfOk result (λ n. n ≤ length piece.now) }
        ensures bytes { WriteAppends (written self.old) (written self.new) result piece.now }
        ensures fault { OnErr result (Rose (faults self.old) (faults self.new)) }
        ensures quiet { OnOk result (faults self.new ≡ faults self.old) }
        ensures grows { faults self.old ≤ faults self.new };
}

/// A write failed, and the sink counted a fault.
#[derive(Clone, Copy, PartialEq, Eq, Debug, Error)]
#[error("writing failed")]
pub struct OutFault;
