ghost use Rattle.std.specs.Prelude.{◌≡◌, false, IfSome, IfNone};
ghost use Rattle.ja_pool.specs.Pool.{is_tag};
ghost use Rattle.ja_pool.specs.InnerShape.{HasShape, is_wide_shape};

use ja_base::tag::{
    CLASS, DOUBLE, FIELD, FLOAT, INTEGER, INTERFACE_METHOD, INVOKE_DYNAMIC, LONG, METHOD,
    METHOD_HANDLE, METHOD_TYPE, NAME_AND_TYPE, STRING, Tag, UTF8,
};

/// The form of the entries with a tag.
#[derive(Clone, Copy)]
pub enum Shape {
    /// A length and a text.
    Utf8,
    /// A number of four bytes.
    Number,
    /// A number of eight bytes.
    Wide,
    /// An index.
    Single,
    /// Two indices.
    Pair,
    /// The kind of a method handle and an index.
    Handle,
}

/// The form of the entries with this tag (JVM specification 4.4).
pub fn shape_of(tag: Tag) -> Option<Shape>
    ensures some { IfSome result (HasShape tag) }
    ensures none { IfNone result (is_tag tag ≡ false) }
{
    match tag {
        UTF8 => Some(Shape::Utf8),
        INTEGER | FLOAT => Some(Shape::Number),
        LONG | DOUBLE => Some(Shape::Wide),
        CLASS | STRING | METHOD_TYPE => Some(Shape::Single),
        FIELD | METHOD | INTERFACE_METHOD | NAME_AND_TYPE | INVOKE_DYNAMIC => Some(Shape::Pair),
        METHOD_HANDLE => Some(Shape::Handle),
        _ => None,
    }
}

impl Shape {
    /// Whether the entries are numbers of eight bytes, which take two indices.
    pub fn is_wide(self) -> bool
        ensures { result ≡ is_wide_shape self }
    {
        matches!(self, Shape::Wide)
    }
}
