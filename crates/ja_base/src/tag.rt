//! The tags of the entries of a constant pool (JVM specification 4.4, table 4.4-A).

/// The tag of an entry, or 0 where there is none.
pub type Tag = u8;

/// A text.
pub const UTF8: Tag = 1;

/// An int.
pub const INTEGER: Tag = 3;

/// A float.
pub const FLOAT: Tag = 4;

/// A long.
pub const LONG: Tag = 5;

/// A double.
pub const DOUBLE: Tag = 6;

/// A class, an interface or an array type.
pub const CLASS: Tag = 7;

/// A constant string.
pub const STRING: Tag = 8;

/// A field of a class.
pub const FIELD: Tag = 9;

/// A method of a class.
pub const METHOD: Tag = 10;

/// A method of an interface.
pub const INTERFACE_METHOD: Tag = 11;

/// The name and the descriptor of a member.
pub const NAME_AND_TYPE: Tag = 12;

/// A method handle.
pub const METHOD_HANDLE: Tag = 15;

/// A method type.
pub const METHOD_TYPE: Tag = 16;

/// A call that the program binds while it runs.
pub const INVOKE_DYNAMIC: Tag = 18;
