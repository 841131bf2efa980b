use ja_blocks::Layout;
use ja_facts::Facts;
use ja_ir::Program;
use ja_work::Frames;

/// What a solver is given: a program, what the analyses before found of it, the frames of its methods,
/// and its blocks with their readers.
#[derive(Clone, Copy)]
pub struct Given<'a> {
    pub program: &'a Program,
    pub facts: &'a Facts,
    pub frames: &'a Frames,
    pub layout: &'a Layout,
}
