ghost use Rattle.std.specs.Prelude.{◌≡◌, IfOk, length};
ghost use Rattle.ja_blocks.specs.Layouts.{IsLayout};

use crate::blocks::{ProgramBlocks, program_blocks};
use crate::holders::holders_of;
use crate::readers::{Readers, readers_of};
use ja_base::{Memory, Numbers, Seq};
use ja_facts::{CallGraph, Holds};
use ja_ir::Program;
use std::alloc::Global;

/// The blocks of a program, and which of them read what. Blocks, methods and fields go by their numbers; a bag has the
/// number of all fields and then its token's.
#[derive(Drop)]
pub struct Layout {
    /// The blocks, in the order of the methods and of their code.
    pub blocks: ProgramBlocks,
    /// For each method the block that begins it, if it has code.
    pub beginners: Seq<Numbers>,
    /// For each method the blocks that may call it, or run it as a class initialiser.
    pub callers: Seq<Numbers>,
    /// For each field the blocks that read it.
    pub readers: Seq<Numbers>,
    /// For each field or bag the fields that may hold what was stored there.
    pub holders: Seq<Numbers>,
}

/// The layout of a program. A block stands in a list as often as its instructions read what the list is of.
pub fn layout_of(
    alloc: Global,
    p: &Program,
    graph: &CallGraph,
    holds: &Holds,
) -> Result<Layout, Memory>
    requires { length holds.now.fields ≡ length p.now.fields }
    ensures { IfOk result (IsLayout p.now graph.now holds.now) }
{
    let blocks = program_blocks(alloc, p)?;
    let Readers {
        begins,
        ends,
        fields,
    } = readers_of(alloc, p, graph, blocks.as_slice())?;
    let holders = holders_of(alloc, p, holds)?;
    Ok(Layout {
        blocks,
        beginners: Seq::from_vec(begins),
        callers: Seq::from_vec(ends),
        readers: Seq::from_vec(fields),
        holders: Seq::from_vec(holders),
    })
}
