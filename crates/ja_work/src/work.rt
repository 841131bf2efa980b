use crate::frame::Frames;
use ja_facts::Facts;
use ja_ir::Program;
use ja_node_core::Aim;

/// The aim of a program's own work: the functions that its equations of taint are made of, for what
/// the analyses before them found and for an order of the variables of each method.
#[derive(Clone, Copy)]
pub struct Work<'a> {
    program: &'a Program,
    facts: &'a Facts,
    frames: &'a Frames,
}

impl<'a> Work<'a> {
    ghost use Rattle.std.specs.Prelude.{◌↔◌};
    ghost use Rattle.ja_node_core.specs.Tree.{Tree};
    ghost use Rattle.ja_work.specs.Told.{told};
    ghost use Rattle.ja_work.specs.Work.{IsWorkTree};
    ghost use Rattle.ja_work.specs.Aim.{IsOfWork};

    /// The work of a program with its facts, for an order of the variables of each of its methods.
    pub fn of(program: &'a Program, facts: &'a Facts, frames: &'a Frames) -> Work<'a>
        ensures { (t : Tree) → IsOfWork result t ↔ IsWorkTree program.now (told program.now facts.now) frames.now t }
    {
        Work {
            program,
            facts,
            frames,
        }
    }
}

impl<'a> Aim for Work<'a> {
    ghost use Rattle.ja_work.specs.Aim.{IsOfWork, of_work_falls};

    ghost aims = { IsOfWork };

    ghost falls = { of_work_falls };
}
