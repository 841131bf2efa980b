//! What a sink over a stream answers.
use ja_io::{Out, StdOut};
use std::alloc::Global;
use std::io::{self, Write};

/// A stream that takes no byte.
#[derive(Drop)]
pub struct Deaf;

impl Write for Deaf {
    fn write(&mut self, _buf: &[u8]) -> io::Result<usize> {
        Ok(0)
    }

    fn flush(&mut self) -> io::Result<()> {
        Ok(())
    }
}

/// How many bytes of a text a sink over the stream takes at once.
pub fn taken<W: Write + Drop>(alloc: Global, stream: W, text: &str) -> io::Result<String> {
    let piece = text.as_bytes();
    if piece.is_empty() {
        return Ok(String::from_str(alloc, "nothing to write")?);
    }
    match StdOut::new(stream).write(piece) {
        Ok(count) => Ok(format!(in alloc; " takes {count}")?),
        Err(_) => Ok(String::from_str(alloc, "fault")?),
    }
}
