//! The class files that a listing makes.
use ja_base::{Bytes, File, Files, Memory, Name};
use ja_class::{ClassFault, read_class};
use ja_maker::{Listing, MakeFault, read_listing, write_class};
use std::alloc::{AllocError, Global};

/// Why a listing makes no class files.
#[derive(Clone, Copy, PartialEq, Eq, Debug)]
pub enum ListingFault {
    /// The item with this number breaks the notation or cannot be written.
    Item { number: u64 },
    /// The class at this place was written, and is not read back.
    Unread { place: u64 },
    /// Memory ran out.
    Memory,
}

impl From<Memory> for ListingFault {
    fn from(_memory: Memory) -> ListingFault {
        ListingFault::Memory
    }
}

impl From<AllocError> for ListingFault {
    fn from(_error: AllocError) -> ListingFault {
        ListingFault::Memory
    }
}

impl From<MakeFault> for ListingFault {
    fn from(fault: MakeFault) -> ListingFault {
        match fault {
            MakeFault::BadListing { line } => ListingFault::Item { number: line },
            MakeFault::Memory => ListingFault::Memory,
        }
    }
}

/// The files of a listing's classes, in byte order of their names. A class's file has the name that the class
/// has when its bytes are read, and `.class`.
pub fn class_files(alloc: Global, text: &[u8]) -> Result<Files, ListingFault> {
    let listings = read_listing(alloc, text)?;
    let mut files = Files::new(alloc);
    for (place, listing) in listings.as_slice().iter().enumerate() {
        files.push(class_file(alloc, place as u64, listing)?)?;
    }
    let mut files = files.into_vec();
    files.sort_by(|a: &File, b: &File| a.name.cmp(&b.name))?;
    Ok(Files::from_vec(files))
}

/// The file of the class at a place.
fn class_file(alloc: Global, place: u64, listing: &Listing) -> Result<File, ListingFault> {
    let bytes = write_class(alloc, listing)?;
    let name = file_name(alloc, place, bytes.as_slice())?;
    Ok(File { name, bytes })
}

/// The name of a class's file.
fn file_name(alloc: Global, place: u64, bytes: &[u8]) -> Result<Name, ListingFault> {
    match read_class(alloc, bytes) {
        Ok(class) => {
            let mut name = Vec::from_slice(alloc, class.head.name.bytes())?;
            name.extend_from_slice(b".class")?;
            Ok(Name::from_vec(name))
        }
        Err(ClassFault::Memory) => Err(ListingFault::Memory),
        Err(_) => Err(ListingFault::Unread { place }),
    }
}
