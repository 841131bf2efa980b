ghost use Rattle.std.specs.Prelude.{◌≡◌};

use crate::{Out, OutFault};
use std::io::Write;

/// The real sink: a stream of the system, as standard output.
///
/// It tells what its stream tells of the bytes that were written.
#[derive(Drop)]
pub struct StdOut<W: Write> {
    stream: W,
    faults: u64,
}

impl<W: Write> StdOut<W> {
    /// The sink over a stream. It takes no memory.
    pub fn new(stream: W) -> StdOut<W>
        ensures over { result.stream ≡ stream }
        ensures faults { result.faults ≡ 0 }
    {
        StdOut { stream, faults: 0 }
    }
}

impl<W: Write> Out for StdOut<W> {
    ghost written = { λ out. W.contents out.stream };

    ghost faults = { λ out. out.faults };

    /// Fails where the stream fails or takes no byte.
    fn write(&mut self, piece: &[u8]) -> Result<u64, OutFault> {
        match self.stream.write(piece) {
            Ok(count) if count > 0 => Ok(count as u64),
            _ => {
                self.faults = self.faults.saturating_add(1);
                Err(OutFault)
            }
        }
    }
}
