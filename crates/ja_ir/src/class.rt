use ja_base::{ClassId, FieldId, MethodId, Name, Seq};

/// A program class: a class of the folder.
#[derive(Drop)]
pub struct ClassInfo {
    pub name: Name,
    /// The name of the class's file.
    pub file: Name,
    /// The access flags (JVM specification table 4.1-A).
    pub flags: u32,
    /// Whether it has a library superclass other than `java/lang/Object`, so that library calls may
    /// put things into its objects.
    pub absorbing: bool,
    /// The program classes at or above the class, in ascending order.
    pub supers: ClassIds,
    /// What a virtual call on an object of the class selects, one item for each name and descriptor
    /// of a method that the class or a program supertype declares.
    pub selections: Selections,
    /// The class initialisers that run where the class is initialised: its own and those of its
    /// program supertypes, in ascending order (JVM specification 5.5).
    pub inits: MethodIds,
}

/// What a virtual call of a name and descriptor selects (JVM specification 6.5, invokevirtual).
#[derive(Drop)]
pub struct Selection {
    pub name: Name,
    pub desc: Name,
    pub target: MethodAt,
}

/// Where a look-up of a method ends.
#[derive(Clone, Copy, PartialEq, Eq)]
pub enum MethodAt {
    /// A program method with code.
    Program(MethodId),
    /// A program method without code.
    Abstract(MethodId),
    /// The library.
    Library,
}

/// A field of a program class.
#[derive(Drop)]
pub struct Field {
    /// The class that declares it.
    pub class: ClassId,
    pub name: Name,
    pub desc: Name,
    /// The access flags (JVM specification table 4.5-A).
    pub flags: u32,
    /// Whether it begins as a constant text.
    pub text: bool,
}

/// A list of classes by their numbers.
pub type ClassIds = Seq<ClassId>;

/// A list of methods by their numbers.
pub type MethodIds = Seq<MethodId>;

/// A list of fields by their numbers.
pub type FieldIds = Seq<FieldId>;

/// A list of selections.
pub type Selections = Seq<Selection>;

/// A list of program classes.
pub type ClassInfos = Seq<ClassInfo>;

/// A list of fields of program classes.
pub type Fields = Seq<Field>;
