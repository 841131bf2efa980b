use ja_base::{Name, Names, Seq};

/// What a class file says of its class, apart from code (JVM specification 4.1).
#[derive(Drop)]
pub struct ClassHead {
    pub name: Name,
    /// The direct superclass; none where the file names none.
    pub superclass: Option<Name>,
    /// The direct superinterfaces, in declared order.
    pub interfaces: Names,
    /// The access flags (JVM specification table 4.1-A).
    pub flags: u32,
    pub fields: HeadFields,
    pub methods: HeadMethods,
}

/// A field as its class file declares it (JVM specification 4.5).
#[derive(Drop)]
pub struct HeadField {
    pub name: Name,
    pub desc: Name,
    /// The access flags (JVM specification table 4.5-A).
    pub flags: u32,
    /// Whether it is a static field of type `java/lang/String` that begins as a constant text
    /// (JVM specification 4.7.2).
    pub text: bool,
}

/// A method as its class file declares it (JVM specification 4.6).
#[derive(Drop)]
pub struct HeadMethod {
    pub name: Name,
    pub desc: Name,
    /// The access flags (JVM specification table 4.6-A).
    pub flags: u32,
}

/// A list of declared fields.
pub type HeadFields = Seq<HeadField>;

/// A list of declared methods.
pub type HeadMethods = Seq<HeadMethod>;
