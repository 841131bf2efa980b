ghost use Rattle.std.specs.Prelude.{◌≡◌, ◌++◌, OnOk};
ghost use Rattle.ja_constraints.specs.Links as links;

use ja_base::{Memory, Seq};
use ja_ir::Program;
use ja_network::{Action, Cell, Event};
use ja_tokens::lib_token;

/// What a network is told.
#[derive(Clone, Copy)]
pub enum Constraint {
    /// A cell has a token.
    Has { cell: Cell, token: u32 },
    /// An event happens.
    Happens { event: Event },
}

/// A list of constraints.
pub type Constraints = Seq<Constraint>;

/// Adds that something is done with each token of a cell, unless it never has one.
pub fn add_link(told: &mut Constraints, from: Cell, action: Action) -> Result<(), Memory>
    ensures { OnOk result (told.new ≡ told.old ++ links.link from action) }
{
    match from {
        Cell::Nothing => Ok(()),
        _ => told.push(Constraint::Happens {
            event: Event::Linked { from, action },
        }),
    }
}

/// Adds that the tokens of a cell go to another.
pub fn add_copy(told: &mut Constraints, from: Cell, to: Cell) -> Result<(), Memory>
    ensures { OnOk result (told.new ≡ told.old ++ links.copy from to) }
{
    add_link(told, from, Action::Copy { to })
}

/// Adds that an instruction may run.
pub fn add_reach(told: &mut Constraints, method: u32, index: u32) -> Result<(), Memory>
    ensures { OnOk result (told.new ≡ told.old ++ links.reach method index) }
{
    told.push(Constraint::Happens {
        event: Event::Reached { method, index },
    })
}

/// Adds that a cell has a token.
pub fn add_token(told: &mut Constraints, cell: Cell, token: u32) -> Result<(), Memory>
    ensures { OnOk result (told.new ≡ told.old ++ links.gets cell token) }
{
    told.push(Constraint::Has { cell, token })
}

/// Adds that a library object is thrown by an instruction.
pub fn add_throws_library(
    told: &mut Constraints,
    p: &Program,
    method: u32,
    index: u32,
) -> Result<(), Memory>
    ensures { OnOk result (told.new ≡ told.old ++ links.throws_library p.now method index) }
{
    add_token(told, Cell::Thrown { method, index }, lib_token(p))
}
