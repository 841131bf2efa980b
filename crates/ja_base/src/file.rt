use crate::{Bytes, Name, Seq};

/// A file of a folder: its path below the folder, with `/` between its parts, and its content.
#[derive(Debug, Drop)]
pub struct File {
    pub name: Name,
    pub bytes: Bytes,
}

/// A list of files.
pub type Files = Seq<File>;
