use ja_base::{FieldId, Numbers, Seq};
use ja_ir::Token;

/// A value of the marked machine.
#[derive(Clone, Copy, PartialEq, Eq)]
pub enum Value {
    /// A primitive value. All that is kept of it is its marks: bit c is one where it has a mark of
    /// category c.
    Prim(u8),
    Null,
    /// A reference to the object at a place of the heap.
    Ref(u64),
}

/// A field of an object and its value.
#[derive(Clone, Copy, PartialEq, Eq)]
pub struct FieldValue {
    pub field: FieldId,
    pub value: Value,
}

/// An object of the marked machine.
#[derive(Drop)]
pub struct Object {
    pub token: Token,
    pub fields: FieldValues,
    /// The marks of the object itself: bit c is one where it has a mark of category c.
    pub mark: u8,
    /// The places of the objects that it holds otherwise than in fields: the elements of an array
    /// of references, or what library calls have put into it.
    pub bag: Numbers,
}

/// The fields of an object.
pub type FieldValues = Seq<FieldValue>;

/// The objects that there are. The place of an object is its index.
pub type Heap = Seq<Object>;
