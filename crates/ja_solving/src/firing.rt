ghost use Rattle.std.specs.Prelude.{◌≡◌, ◌<◌, OnOk, Contains, length};
ghost use Rattle.ja_sets.specs.Sets.{Has};
ghost use Rattle.ja_facts.specs.ClassTables as tables;
ghost use Rattle.ja_network.specs.Facts.{IsNetwork, Extends, state_of};
ghost use Rattle.ja_tokens.specs.Numbers.{AreNumbers};
ghost use Rattle.ja_firing.specs.Tokens.{fires};
ghost use Rattle.ja_solving.specs.Rules.{OneSays};
ghost use Rattle.ja_solving.specs.InnerWorking.{FiresAll, FiresEach, FiresAt};

use crate::telling::{clear, tell_all, token_count};
use ja_base::Memory;
use ja_cells::Names;
use ja_constraints::Constraints;
use ja_firing::add_fires;
use ja_ir::Program;
use ja_network::{Action, Cell, Event, Network};
use ja_sets::TokenSet;
use ja_tokens::ClassNumbers;
use std::alloc::Global;

// Tells what comes of a token, for which this is done.
fn fire(
    alloc: Global,
    told: &mut Constraints,
    p: &Program,
    names: &Names,
    classes: &ClassNumbers,
    net: &mut Network,
    token: u32,
    action: Action,
) -> Result<(), Memory>
    requires network { IsNetwork net.old }
    requires size { net.old.tokens ≡ tables.token_count p.now }
    requires numbers { AreNumbers p.now classes.now }
    ensures network { OnOk result (IsNetwork net.new) }
    ensures extends { OnOk result (Extends net.old net.new (OneSays p.now (fires p.now names.now token action))) }
{
    clear(alloc, told);
    add_fires(alloc, told, p, names, classes, token, action)?;
    tell_all(alloc, p, net, told.as_slice())
}

// Tells what comes of each token of a set, one after another.
fn fire_each(
    alloc: Global,
    told: &mut Constraints,
    p: &Program,
    names: &Names,
    classes: &ClassNumbers,
    net: &mut Network,
    action: Action,
    set: &TokenSet,
) -> Result<(), Memory>
    requires network { IsNetwork net.old }
    requires size { net.old.tokens ≡ tables.token_count p.now }
    requires numbers { AreNumbers p.now classes.now }
    requires set { length set.now ≡ tables.token_count p.now }
    ensures network { OnOk result (IsNetwork net.new) }
    ensures extends { OnOk result (Extends net.old net.new (FiresAll p.now names.now (Has set.now) action)) }
{
    // The number of all tokens is a u32, and so is the place behind one.
    let _count = token_count(p);
    let mut from = 0;
    'tokens: while let Some(token) = set.next_from(from) {
        fire(alloc, told, p, names, classes, net, token, action)?;
        from = token + 1;
    }
    Ok(())
}

// Tells what comes of each token of a set.
fn fire_all(
    alloc: Global,
    told: &mut Constraints,
    p: &Program,
    names: &Names,
    classes: &ClassNumbers,
    net: &mut Network,
    action: Action,
    set: &TokenSet,
) -> Result<(), Memory>
    requires network { IsNetwork net.old }
    requires size { net.old.tokens ≡ tables.token_count p.now }
    requires numbers { AreNumbers p.now classes.now }
    requires set { length set.now ≡ tables.token_count p.now }
    ensures network { OnOk result (IsNetwork net.new) }
    ensures extends { OnOk result (Extends net.old net.new (FiresAll p.now names.now (Has set.now) action)) }
{
    match action {
        // Most links copy: all tokens at once.
        Action::Copy { to } => net.add_all(alloc, to, set),
        _ => fire_each(alloc, told, p, names, classes, net, action, set),
    }
}

/// Tells what comes of each token of a set, for each thing that is done with those of a cell.
pub fn fire_links(
    alloc: Global,
    told: &mut Constraints,
    p: &Program,
    names: &Names,
    classes: &ClassNumbers,
    net: &mut Network,
    cell: Cell,
    set: &TokenSet,
) -> Result<(), Memory>
    requires network { IsNetwork net.old }
    requires size { net.old.tokens ≡ tables.token_count p.now }
    requires numbers { AreNumbers p.now classes.now }
    requires set { length set.now ≡ tables.token_count p.now }
    ensures network { OnOk result (IsNetwork net.new) }
    ensures extends { OnOk result (Extends net.old net.new (FiresEach p.now names.now (Has set.now) (Contains (state_of net.old cell).links))) }
{
    for k in 0..u64::MAX {
        match net.link_of(cell, k) {
            Some(action) => fire_all(alloc, told, p, names, classes, net, action, set)?,
            None => return Ok(()),
        }
    }
    // There is no room for so many links.
    Err(Memory)
}

/// Tells what comes of each token that a cell has, where the event is that something is done with
/// those.
pub fn fire_at(
    alloc: Global,
    told: &mut Constraints,
    p: &Program,
    names: &Names,
    classes: &ClassNumbers,
    net: &mut Network,
    event: Event,
) -> Result<(), Memory>
    requires network { IsNetwork net.old }
    requires size { net.old.tokens ≡ tables.token_count p.now }
    requires numbers { AreNumbers p.now classes.now }
    ensures network { OnOk result (IsNetwork net.new) }
    ensures extends { OnOk result (Extends net.old net.new (FiresAt p.now names.now net.old event)) }
{
    match event {
        Event::Linked { from, action } => {
            let set = net.tokens_of(alloc, from)?;
            fire_all(alloc, told, p, names, classes, net, action, &set)
        }
        _ => Ok(()),
    }
}
