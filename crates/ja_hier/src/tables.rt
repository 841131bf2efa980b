use crate::index::MembersByName;
use ja_base::Numbers;
use ja_supertypes::Classes;

/// The tables behind a hierarchy.
#[derive(Drop)]
pub struct Tables {
    /// The classes and their supertypes.
    pub classes: Classes,
    /// For each class the number of the fields that the classes before it declare.
    pub field_starts: Numbers,
    /// For each class the number of the methods that the classes before it declare.
    pub method_starts: Numbers,
    /// For each class the first at or above it that has no or several direct supertypes.
    pub forks: Numbers,
    /// The fields by name.
    pub fields: MembersByName,
    /// The methods by name.
    pub methods: MembersByName,
}
