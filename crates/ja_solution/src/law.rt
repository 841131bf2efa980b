ghost use Rattle.std.specs.Prelude.{◌≡◌, ◌≤◌, ◌↔◌, ℕ, Some, false, slice_get, ⊤};
ghost use Rattle.ja_facts.specs.Equations.{Fact};
ghost use Rattle.ja_blocks.specs.Blocks.{AreProgramBlocks};
ghost use Rattle.ja_node_core.specs.Node.{Words};
ghost use Rattle.ja_solution.specs.declared.given.Given.{Given};
ghost use Rattle.ja_solution.specs.declared.state.State.{State};
ghost use Rattle.ja_solution.specs.Nodes.{values_of, problem_of, IsGiven, IsState, is_dirty};
ghost use Rattle.ja_solution.specs.Problem.{Problem, Solution};
ghost use Rattle.ja_solution.specs.Cells.{Values, Said};
ghost use Rattle.ja_ir.specs.Whole.{IsWhole};
ghost use Rattle.ja_solution.specs.Settled.{AreSettled, IsSettled, IsCovered, IsBegun};
ghost use Rattle.ja_solution.specs.Reads.{ReadsNoMore, Grow};
ghost use Rattle.ja_blocks.specs.declared.blocks.ProgramBlock.{ProgramBlock};
ghost use Rattle.ja_solution.specs.Solved.{AreBelow, IsClosed, AreExact};

/// Cells that lie below the least solution, and from which no rule gives more, mean it: what they say of
/// each instruction is the least solution, and each of them is true exactly for its facts.
pub fn law_closed()
    ensures said { (x : Problem) (v : Values) → AreBelow x v → IsClosed x v → (f : Fact) → Said x v f ↔ Solution x f }
    ensures exact { (x : Problem) (v : Values) → AreProgramBlocks x.program x.blocks → AreBelow x v → IsClosed x v → AreExact x v }
{}

/// Where all blocks of a program are settled, no rule gives more than its cells say.
pub fn law_settled()
    ensures { (x : Problem) (v : Values) → IsWhole x.program → AreProgramBlocks x.program x.blocks → AreSettled x (λ k. ⊤) v → IsClosed x v }
{}

/// Where the rules of a block hold for what some cells say, they go on holding for what others say, if of
/// what the block reads these say no more, and for cells that grow.
pub fn law_stays_settled()
    ensures { (x : Problem) (number : ℕ) (block : ProgramBlock) (from to old new : Values) → AreProgramBlocks x.program x.blocks → slice_get x.blocks number ≡ Some block
        → ReadsNoMore x block from to → Grow old new → IsSettled x block from old → IsSettled x block to new }
{}

/// Where no block is to be looked at again, the cells mean the least solution.
pub fn law_solved()
    ensures { (given : Given) (k : Words) (state : State) → IsGiven given → IsState (problem_of given) k state → ((b : ℕ) → is_dirty state.dirty.items b ≡ false)
        → AreExact (problem_of given) (values_of k state.cells) }
{}

/// A block is settled where each of its instructions is covered, and, if it begins its method, that begins.
pub fn law_covered()
    ensures { (x : Problem) (block : ProgramBlock) (from to : Values) → ((i : ℕ) → block.first ≤ i → i ≤ block.last → IsCovered x block.method.0 i from to) → (block.first ≡ 0 → IsBegun x block.method.0 from to)
        → IsSettled x block from to }
{}
