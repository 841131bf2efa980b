use ja_base::Name;
use std::io::{self, ErrorKind};

/// A name as text, which a path of the system is made of.
pub(crate) fn text_of(name: &Name) -> io::Result<&str> {
    str::from_utf8(name.bytes()).map_err(|_| io::Error::from(ErrorKind::InvalidFilename))
}
