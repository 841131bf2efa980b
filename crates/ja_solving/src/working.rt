ghost use Rattle.std.specs.Prelude.{◌≡◌, Some, OnOk, slice_get};
ghost use Rattle.ja_facts.specs.ClassTables.{token_count};
ghost use Rattle.ja_network.specs.Facts.{IsNetwork, events_of};
ghost use Rattle.ja_tokens.specs.Numbers.{AreNumbers};
ghost use Rattle.ja_solving.specs.InnerWorking.{IsWorking};

use crate::firing::{fire_at, fire_links};
use crate::telling::{clear, tell_all};
use ja_base::Memory;
use ja_cells::Names;
use ja_constraints::{Constraints, add_follows};
use ja_ir::Program;
use ja_network::{Cell, Event, Network};
use ja_tokens::ClassNumbers;
use std::alloc::Global;

/// Works on an event, the first that has not been worked on.
pub fn work_event(
    alloc: Global,
    told: &mut Constraints,
    p: &Program,
    names: &Names,
    classes: &ClassNumbers,
    net: &mut Network,
    event: Event,
) -> Result<(), Memory>
    requires network { IsNetwork net.old }
    requires size { net.old.tokens ≡ token_count p.now }
    requires numbers { AreNumbers p.now classes.now }
    requires working { IsWorking p.now names.now net.old }
    requires next { slice_get (events_of net.old) net.old.seen ≡ Some event }
    ensures network { OnOk result (IsNetwork net.new) }
    ensures size { OnOk result (net.new.tokens ≡ token_count p.now) }
    ensures working { OnOk result (IsWorking p.now names.now net.new) }
{
    clear(alloc, told);
    add_follows(alloc, told, p, names, classes, event)?;
    tell_all(alloc, p, net, told.as_slice())?;
    fire_at(alloc, told, p, names, classes, net, event)?;
    net.settle_event(alloc, event)
}

/// Works on what is fresh in a cell, the first that waits for its turn.
pub fn work_turn(
    alloc: Global,
    told: &mut Constraints,
    p: &Program,
    names: &Names,
    classes: &ClassNumbers,
    net: &mut Network,
    cell: Cell,
) -> Result<(), Memory>
    requires network { IsNetwork net.old }
    requires size { net.old.tokens ≡ token_count p.now }
    requires numbers { AreNumbers p.now classes.now }
    requires working { IsWorking p.now names.now net.old }
    requires next { slice_get net.old.turns.items net.old.turned ≡ Some cell }
    ensures network { OnOk result (IsNetwork net.new) }
    ensures size { OnOk result (net.new.tokens ≡ token_count p.now) }
    ensures working { OnOk result (IsWorking p.now names.now net.new) }
{
    let fresh = net.fresh_of(alloc, cell)?;
    fire_links(alloc, told, p, names, classes, net, cell, &fresh)?;
    net.end_turn(alloc, cell, &fresh)
}
