ghost use Rattle.std.specs.Prelude.{◌≡◌, [], IfOk, OnOk, IsTrue};
ghost use Rattle.ja_facts.specs.ClassTables as tables;
ghost use Rattle.ja_network.specs.Facts.{Fact, Tells, IsNetwork, IsQuiet};
ghost use Rattle.ja_tokens.specs.Numbers.{AreNumbers};
ghost use Rattle.ja_solving.specs.Rules.{IsSolved};
ghost use Rattle.ja_solving.specs.InnerWorking.{IsWorking};

use crate::telling::{tell_all, token_count};
use crate::working::{work_event, work_turn};
use ja_base::{Memory, Seq};
use ja_cells::Names;
use ja_constraints::{Constraints, add_starts};
use ja_ir::Program;
use ja_network::Network;
use ja_tokens::ClassNumbers;
use std::alloc::Global;

// Tells a network, which tells nothing yet, what is told at first.
fn start(
    alloc: Global,
    told: &mut Constraints,
    p: &Program,
    names: &Names,
    classes: &ClassNumbers,
    net: &mut Network,
) -> Result<(), Memory>
    requires network { IsNetwork net.old }
    requires size { net.old.tokens ≡ tables.token_count p.now }
    requires numbers { AreNumbers p.now classes.now }
    requires none { told.old ≡ [] }
    requires empty { (f : Fact) → Tells net.old f → ⊥ }
    ensures network { OnOk result (IsNetwork net.new) }
    ensures size { OnOk result (net.new.tokens ≡ tables.token_count p.now) }
    ensures working { OnOk result (IsWorking p.now names.now net.new) }
{
    add_starts(alloc, told, p, classes)?;
    tell_all(alloc, p, net, told.as_slice())
}

// Works on what comes next, events first, and says whether nothing was left.
fn step(
    alloc: Global,
    told: &mut Constraints,
    p: &Program,
    names: &Names,
    classes: &ClassNumbers,
    net: &mut Network,
) -> Result<bool, Memory>
    requires network { IsNetwork net.old }
    requires size { net.old.tokens ≡ tables.token_count p.now }
    requires numbers { AreNumbers p.now classes.now }
    requires working { IsWorking p.now names.now net.old }
    ensures network { OnOk result (IsNetwork net.new) }
    ensures size { OnOk result (net.new.tokens ≡ tables.token_count p.now) }
    ensures working { OnOk result (IsWorking p.now names.now net.new) }
    ensures quiet { IfOk result (λ done. IsTrue done → IsQuiet net.new) }
{
    if let Some(event) = net.next_event() {
        work_event(alloc, told, p, names, classes, net, event)?;
        return Ok(false);
    }
    if let Some(cell) = net.next_turn() {
        work_turn(alloc, told, p, names, classes, net, cell)?;
        return Ok(false);
    }
    Ok(net.is_quiet())
}

// Works until nothing is left.
fn work(
    alloc: Global,
    told: &mut Constraints,
    p: &Program,
    names: &Names,
    classes: &ClassNumbers,
    net: &mut Network,
) -> Result<(), Memory>
    requires network { IsNetwork net.old }
    requires size { net.old.tokens ≡ tables.token_count p.now }
    requires numbers { AreNumbers p.now classes.now }
    requires working { IsWorking p.now names.now net.old }
    ensures network { OnOk result (IsNetwork net.new) }
    ensures size { OnOk result (net.new.tokens ≡ tables.token_count p.now) }
    ensures solved { OnOk result (IsSolved p.now names.now net.new) }
{
    for _step in 0..u64::MAX {
        if step(alloc, told, p, names, classes, net)? {
            return Ok(());
        }
    }
    // Each step is of an event or a turn of its own, and there is no room for so many.
    Err(Memory)
}

/// Solves for class sets: the network tells exactly the least set of facts under the rules of the
/// program, over the cells of its slots. Its tokens are those of the program. The error is want of
/// memory alone.
pub fn solve(
    alloc: Global,
    p: &Program,
    names: &Names,
    classes: &ClassNumbers,
) -> Result<Network, Memory>
    requires { AreNumbers p.now classes.now }
    ensures network { IfOk result IsNetwork }
    ensures tokens { IfOk result (λ net. net.tokens ≡ tables.token_count p.now) }
    ensures solved { IfOk result (IsSolved p.now names.now) }
{
    let mut told = Seq::new(alloc);
    let mut net = Network::new(alloc, token_count(p));
    start(alloc, &mut told, p, names, classes, &mut net)?;
    work(alloc, &mut told, p, names, classes, &mut net)?;
    Ok(net)
}
