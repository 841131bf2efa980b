/// A constant: the bits of a number, or the index of the text that a String or a Class names.
#[derive(Clone, Copy, PartialEq, Eq, Debug)]
pub enum Constant {
    Integer(u32),
    Float(u32),
    Long(u64),
    Double(u64),
    Text(u32),
    Class(u32),
}

/// What a Fieldref, a Methodref or an InterfaceMethodref names.
#[derive(Clone, Copy)]
pub struct Member<'a> {
    pub class: &'a [u8],
    pub name: &'a [u8],
    pub desc: &'a [u8],
}
