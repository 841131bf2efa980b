/// An entry of the constant pool (JVM specification, 4.4).
#[derive(Clone, Copy)]
pub(super) enum Constant<'a> {
    Utf8(&'a [u8]),
    Class(u16),
    String(u16),
    Methodref(u16, u16),
    NameAndType(u16, u16),
}
