/// The number of a program class, in the order of the class files.
#[derive(Clone, Copy, PartialEq, Eq, Debug)]
pub struct ClassId(pub u32);

/// The number of a method, in the order of the classes and, in one class, as declared.
#[derive(Clone, Copy, PartialEq, Eq, Debug)]
pub struct MethodId(pub u32);

/// The number of a field, in the order of the classes and, in one class, as declared.
#[derive(Clone, Copy, PartialEq, Eq, Debug)]
pub struct FieldId(pub u32);

/// The number of a block of instructions, over the whole program.
#[derive(Clone, Copy, PartialEq, Eq, Debug)]
pub struct BlockId(pub u32);

/// The number of a sink call, in the order of the report.
#[derive(Clone, Copy, PartialEq, Eq, Debug)]
pub struct SiteId(pub u32);
