//! Reading bytes of class files: fields of a fixed width, texts and descriptors.
#![tactic(auto)]

mod cursor;
mod descriptor;
mod field_text;
mod law;
mod text;
mod type_text;

pub use cursor::{Cursor, End};
pub use descriptor::{DescFault, field_desc, method_desc};
pub use field_text::field_type;
pub use law::{law_one_reading, law_right_or_wrong};
pub use text::{BadText, modified_utf8};
