/// What is told of a method's end: whether its result, what was stored, and what was thrown is tainted.
#[derive(Clone, Copy)]
pub struct Summary {
    pub result: bool,
    pub dirt: bool,
    pub exc: bool,
}
