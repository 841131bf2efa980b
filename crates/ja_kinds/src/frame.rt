use crate::state::KindList;
use ja_base::Kind;

/// What a method's code is judged against: its length and its frame.
#[derive(Drop)]
pub struct Frame {
    /// The length of the code in bytes.
    pub size: u32,
    pub max_locals: u32,
    pub max_stack: u32,
    /// The kinds of the parameters, the receiver first where there is one.
    pub parameters: KindList,
    /// The kind of the value that the method returns, if it does.
    pub returns: Option<Kind>,
}
