//! Which item of a class is the first that cannot be written.

ghost use Rattle.std.specs.Prelude.{◌≡◌, ℕ, ◌+◌, [], IfOk, OnOk, IfErr};
ghost use Rattle.ja_listing.specs.Listed.{Listed};
ghost use Rattle.ja_assembly.specs.Unwritable.{CannotBeWritten, IsWritable, IsFirstUnwritable, IsCause, Passes, Refuses};
ghost use Rattle.ja_writable.specs.InnerJudging.{Judges, Takes, IsFull, IsSmall, IsItem, IsState, IsNoPlace, IsAsked, IsAllowed, fault_of};

use crate::ask::{ask_head, ask_item, ask_string};
use crate::flaw::Flaw;
use crate::judge_item::{judge_head, judge_item};
use crate::judge_text::demand;
use crate::place::Place;
use crate::wants::Wants;
use indexmap::IndexSet;
use ja_assembly::parted;
use ja_base::{Memory, Name};
use ja_listing::{Head, Item, Listing, MakeFault};
use std::alloc::Global;

/// The most strings that `ldc` names, since its index has one byte.
const MAX_STRINGS: usize = 255;

/// The most entries of a pool (JVM specification 4.1).
const MAX_ENTRIES: usize = 65534;

/// The most fields, methods, entries of an exception table and bytes of code (JVM specification 4.1, 4.7.3).
const MAX: u64 = 65535;

/// Whether the counts are not too great.
fn judge_counts(place: &Place, wants: &Wants) -> Result<(), Flaw>
    ensures full { Judges result (IsFull place.now wants.now) }
    ensures small { OnOk result (IsSmall place.now) }
{
    let strings = wants.strings.len();
    let keys = wants.keys.len();
    demand(strings <= MAX_STRINGS)?;
    demand(keys <= MAX_ENTRIES - strings)?;
    demand(place.fields <= MAX)?;
    demand(place.methods <= MAX)?;
    demand(place.ranges <= MAX)?;
    demand(place.pc <= MAX)
}

/// The pool entries that one more item asks for.
fn ask(alloc: Global, wants: &mut Wants, superclass: &Name, item: &Item) -> Result<(), Memory>
    ensures { OnOk result (IsAsked superclass.now item.now wants.old wants.new) }
{
    ask_item(alloc, &mut wants.keys, superclass, item)?;
    ask_string(alloc, &mut wants.strings, item)
}

/// Judges one more item, and takes it.
fn judge_next(
    alloc: Global,
    superclass: &Name,
    place: &mut Place,
    wants: &mut Wants,
    item: &Item,
    behind: &[Item],
) -> Result<(), Flaw>
    requires { IsSmall place.old }
    ensures small { OnOk result (IsSmall place.new) }
    ensures taken { (c : Listed) (k : ℕ) → IsItem c k superclass.now item.now behind.now → IsState c k place.old wants.old →
        Takes result (CannotBeWritten c (k + 1)) ((CannotBeWritten c (k + 1) → ⊥) × IsState c (k + 1) place.new wants.new) }
{
    judge_item(alloc, place, item, behind)?;
    place.enter(alloc, item, behind)?;
    ask(alloc, wants, superclass, item)?;
    judge_counts(place, wants)
}

/// Judges the item that begins a class, and takes it.
fn judge_first(
    alloc: Global,
    head: &Head,
    items: &[Item],
    place: &Place,
    wants: &mut Wants,
) -> Result<(), Flaw>
    requires none { IsNoPlace items.now place.now }
    requires no_keys { wants.old.keys.keys ≡ [] }
    requires no_strings { wants.old.strings.keys ≡ [] }
    ensures small { OnOk result (IsSmall place.now) }
    ensures taken { (c : Listed) → c.head ≡ head.now → c.items ≡ items.now → Takes result (CannotBeWritten c 0) ((CannotBeWritten c 0 → ⊥) × IsState c 0 place.now wants.new) }
{
    judge_head(head)?;
    ask_head(alloc, &mut wants.keys, head)?;
    judge_counts(place, wants)
}

/// The fault of the item with this number.
fn fault_of(flaw: Flaw, number: u64) -> MakeFault
    ensures { result ≡ fault_of flaw number }
{
    match flaw {
        Flaw::Unwritable => MakeFault::BadListing { line: number },
        Flaw::Memory => MakeFault::Memory,
    }
}

/// The number of the next item; 2^64 items have no room in memory.
fn next_number(number: u64) -> Result<u64, MakeFault>
    ensures ok { IfOk result (λ next. next ≡ number + 1) }
    ensures err { IfErr result (λ fault. fault ≡ MakeFault.Memory) }
{
    match number.checked_add(1) {
        Some(next) => Ok(next),
        None => Err(MakeFault::Memory),
    }
}

/// Judges the items behind the one that begins a class.
fn judge_rest(
    alloc: Global,
    listing: &Listing,
    mut place: Place,
    mut wants: Wants,
) -> Result<Wants, MakeFault>
    requires small { IsSmall place }
    requires state { IsState listing.now 0 place wants }
    requires first { CannotBeWritten listing.now 0 → ⊥ }
    ensures ok { IfOk result (IsAllowed listing.now) }
    ensures fault { IfErr result (IsCause listing.now) }
{
    let superclass = &listing.head().superclass;
    let mut number = listing.number();
    let mut rest = listing.items().as_slice();
    while let Some((item, behind)) = parted(rest) {
        number = next_number(number)?;
        match judge_next(alloc, superclass, &mut place, &mut wants, item, behind) {
            Ok(()) => rest = behind,
            Err(flaw) => return Err(fault_of(flaw, number)),
        }
    }
    Ok(wants)
}

/// What the items of a class ask of its pool, where each can be written.
pub fn judge(alloc: Global, listing: &Listing) -> Result<Wants, MakeFault>
    ensures ok { IfOk result (IsAllowed listing.now) }
    ensures fault { IfErr result (IsCause listing.now) }
{
    let mut wants = Wants {
        strings: IndexSet::new(alloc),
        keys: IndexSet::new(alloc),
    };
    let items = listing.items().as_slice();
    match Place::new(alloc, items) {
        Err(_) => Err(MakeFault::Memory),
        Ok(place) => match judge_first(alloc, listing.head(), items, &place, &mut wants) {
            Ok(()) => judge_rest(alloc, listing, place, wants),
            Err(flaw) => Err(fault_of(flaw, listing.number())),
        },
    }
}

/// Whether each item of a class can be written in a class file that the analyser reads (JVM specification 4.1
/// to 4.7).
///
/// An error is the number of the first item that cannot be, or want of memory. An item cannot be written where
/// its opcode is refused; where its flags, numbers, names, descriptors or operands do not fit; where its label is
/// nowhere or too far; where its range is empty, or its range or its handler does not fit an exception table;
/// where it is an instruction or an entry of an exception table, and its method has no code; where it is a method
/// that needs code and has no instruction; and where with it the class has too many entries in its pool or too
/// many members, or its method too much code or too many entries in its exception table.
pub fn check_class(alloc: Global, listing: &Listing) -> Result<(), MakeFault>
    // Where there is no error, each item can be written.
    ensures ok { OnOk result (IsWritable listing.now) }
    // Where each item can be written, there is no error, unless memory runs out.
    ensures only { IsWritable listing.now → Passes result }
    // An error is the first item that cannot be written, or want of memory.
    ensures fault { IfErr result (IsCause listing.now) }
    // The first item that cannot be written is the error, unless memory runs out.
    ensures first { (n : ℕ) → IsFirstUnwritable listing.now n → Refuses n result }
{
    match judge(alloc, listing) {
        Ok(_) => Ok(()),
        Err(fault) => Err(fault),
    }
}
