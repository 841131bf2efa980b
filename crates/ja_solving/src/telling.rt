ghost use Rattle.std.specs.Prelude.{◌≡◌, ◌<◌, [], OnOk};
ghost use Rattle.ja_facts.specs.ClassTables as tables;
ghost use Rattle.ja_network.specs.Facts.{HasToken, IsNetwork, Extends};
ghost use Rattle.ja_solving.specs.Rules.{Says, OneSays};

use ja_base::{Memory, Seq};
use ja_constraints::{Constraint, Constraints};
use ja_ir::Program;
use ja_network::{Cell, Network};
use std::alloc::Global;
use std::mem;

/// The number of the tokens of a program.
pub fn token_count(p: &Program) -> u32
    ensures { result ≡ tables.token_count p.now }
{
    p.classes().len() as u32 + 4
}

/// Empties a list, whose memory it keeps for what comes next.
pub fn clear(alloc: Global, told: &mut Constraints)
    ensures { told.new ≡ [] }
{
    let mut items = mem::replace(told, Seq::new(alloc)).into_vec();
    items.clear();
    *told = Seq::from_vec(items);
}

// Tells that a cell has a token, if that is one of the program's.
fn tell_token(
    alloc: Global,
    p: &Program,
    net: &mut Network,
    cell: Cell,
    token: u32,
) -> Result<(), Memory>
    requires network { IsNetwork net.old }
    requires size { net.old.tokens ≡ tables.token_count p.now }
    ensures network { OnOk result (IsNetwork net.new) }
    ensures extends { OnOk result (Extends net.old net.new (λ f. (f ≡ HasToken cell token) × (token < tables.token_count p.now))) }
{
    if token < token_count(p) {
        net.add(alloc, cell, token)
    } else {
        Ok(())
    }
}

// Tells a constraint.
fn tell(alloc: Global, p: &Program, net: &mut Network, constraint: Constraint) -> Result<(), Memory>
    requires network { IsNetwork net.old }
    requires size { net.old.tokens ≡ tables.token_count p.now }
    ensures network { OnOk result (IsNetwork net.new) }
    ensures extends { OnOk result (Extends net.old net.new (Says p.now constraint)) }
{
    match constraint {
        Constraint::Has { cell, token } => tell_token(alloc, p, net, cell, token),
        Constraint::Happens { event } => net.tell(event),
    }
}

/// Tells each constraint of a list.
pub fn tell_all(
    alloc: Global,
    p: &Program,
    net: &mut Network,
    told: &[Constraint],
) -> Result<(), Memory>
    requires network { IsNetwork net.old }
    requires size { net.old.tokens ≡ tables.token_count p.now }
    ensures network { OnOk result (IsNetwork net.new) }
    ensures extends { OnOk result (Extends net.old net.new (OneSays p.now told.now)) }
{
    for constraint in told {
        tell(alloc, p, net, *constraint)?;
    }
    Ok(())
}
