use ja_base::Name;

/// An entry of a constant pool that is no string, by what it says (JVM specification 4.4).
#[derive(PartialEq, Eq, Hash, Drop)]
pub enum Key {
    Text(Name),
    Class(Name),
    NameAndType(Name, Name),
    /// The tag of a reference to a field or a method, and its class, its name and its descriptor.
    Member(u8, Name, Name, Name),
}
