//! What every crate of the analyser speaks of: names, lists, ids, types, refusals and limits, and numbers by name.
#![tactic(auto)]

pub mod access_flags;
mod file;
mod id;
mod index;
mod java_type;
mod limit;
mod memory;
mod name;
mod refusal;
mod seq;
pub mod tag;

pub use file::{File, Files};
pub use id::{BlockId, ClassId, FieldId, MethodId, SiteId};
pub use index::NumbersByName;
pub use java_type::{Desc, JavaType, JavaTypes, Kind};
pub use limit::{
    MAX_CATEGORIES, MAX_CLASS_FILES, MAX_FILE_BYTES, MAX_FRAME_VALUES, MAX_GENERATED_CLASSES,
    MAX_NUMBERED, MAX_SLOTS, MAX_TOTAL_BYTES, MAX_VARIABLES, MAX_WORKERS, MIN_SLOTS,
};
pub use memory::Memory;
pub use name::{Name, Names, copy_names};
pub use refusal::Refusal;
pub use seq::{Bytes, Flags, Numbers, Seq};
