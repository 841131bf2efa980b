use indexmap::IndexSet;
use ja_assembly::Key;
use ja_base::Name;

/// What the items of a class ask of its constant pool: the strings, and the other entries.
#[derive(Drop)]
pub struct Wants {
    pub strings: IndexSet<Name>,
    pub keys: IndexSet<Key>,
}
