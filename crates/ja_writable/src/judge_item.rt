//! Items: whether each can be written at its place.

ghost use Rattle.std.specs.Prelude.{◌≡◌, ◌≤◌, ◌⊎◌, ℕ, List, [], ◌∷◌, true, false, Option};
ghost use Rattle.ja_listing.specs.Number.{has_code};
ghost use Rattle.ja_assembly.specs.Unwritable.{IsNoRange, IsNoCatch, IsNoFrame, IsEmpty, IsNoField, IsNoMethod, IsNoTry, IsNoInstruction, IsNoHead, is_some_of};
ghost use Rattle.ja_assembly.specs.InnerLabels.{places};
ghost use Rattle.ja_assembly.specs.Members.{instructions_in};
ghost use Rattle.ja_writable.specs.InnerJudging.{Judges, IsNoItemHere};

use crate::flaw::Flaw;
use crate::judge_operand::{judge_instruction, place_of};
use crate::judge_text::{
    demand, fits_short, is_array, judge_field_desc, judge_method_desc, judge_text, refuse,
};
use crate::place::Place;
use ja_assembly::parted;
use ja_base::Name;
use ja_code::Opcode;
use ja_listing::{Frame, Head, Item, Number, Operand};
use std::alloc::Global;

/// The last place of the code that an entry of an exception table has room for (JVM specification 4.7.3).
const MAX_PLACE: u64 = 65535;

/// Whether an instruction stands behind the beginning of a method, before the next method.
fn has_instruction(behind: &[Item]) -> bool
    ensures { (superclass : List ℕ) → is_some_of (instructions_in superclass behind.now) ≡ result }
{
    let mut rest = behind;
    while let Some((item, others)) = parted(rest) {
        match item {
            Item::Instruction { .. } => return true,
            Item::Method { .. } => return false,
            Item::Initializer => return false,
            Item::Field { .. } => rest = others,
            Item::Try { .. } => rest = others,
        }
    }
    false
}

/// A field.
fn judge_field(alloc: Global, flags: Number, name: &Name, desc: &Name) -> Result<(), Flaw>
    ensures { Judges result (IsNoField flags name.now desc.now) }
{
    demand(fits_short(flags))?;
    judge_text(name)?;
    judge_text(desc)?;
    judge_field_desc(alloc, desc)
}

/// The frame of a method.
fn judge_frame(code: bool, frame: &Option<Frame>) -> Result<(), Flaw>
    ensures { Judges result (IsNoFrame code frame.now) }
{
    match frame {
        None => demand(!code),
        Some(frame) => {
            demand(code)?;
            demand(fits_short(frame.stack))?;
            demand(fits_short(frame.locals))
        }
    }
}

/// Whether a method that needs code has an instruction.
fn judge_filled(flags: Number, some: bool) -> Result<(), Flaw>
    ensures { Judges result (IsEmpty flags some) }
{
    refuse(flags.has_code() && !some)
}

/// The beginning of a method.
fn judge_method(
    alloc: Global,
    flags: Number,
    name: &Name,
    desc: &Name,
    frame: &Option<Frame>,
    some: bool,
) -> Result<(), Flaw>
    ensures { Judges result (IsNoMethod flags name.now desc.now frame.now some) }
{
    demand(fits_short(flags))?;
    judge_text(name)?;
    judge_text(desc)?;
    judge_method_desc(alloc, flags, desc)?;
    judge_frame(flags.has_code(), frame)?;
    judge_filled(flags, some)
}

/// The labels of an entry of an exception table.
fn judge_range(place: &Place, start: &Name, end: &Name, handler: &Name) -> Result<(), Flaw>
    ensures { Judges result (IsNoRange (places place.now.labels start.now) (places place.now.labels end.now) (places place.now.labels handler.now)) }
{
    match (
        place_of(place, start),
        place_of(place, end),
        place_of(place, handler),
    ) {
        (Some(start), Some(end), Some(handler)) => {
            demand(start < end)?;
            demand(end <= MAX_PLACE)?;
            demand(handler <= MAX_PLACE)
        }
        _ => Err(Flaw::Unwritable),
    }
}

/// What an entry of an exception table catches.
fn judge_catch(catch: &Option<Name>) -> Result<(), Flaw>
    ensures { Judges result (IsNoCatch catch.now) }
{
    match catch {
        None => Ok(()),
        Some(name) => judge_text(name),
    }
}

/// An entry of an exception table.
fn judge_try(
    place: &Place,
    start: &Name,
    end: &Name,
    handler: &Name,
    catch: &Option<Name>,
) -> Result<(), Flaw>
    ensures { Judges result (IsNoTry place.now.has_code (places place.now.labels) start.now end.now handler.now catch.now) }
{
    demand(place.has_code)?;
    judge_range(place, start, end, handler)?;
    judge_catch(catch)
}

/// An instruction of a method with code or without.
fn judge_placed(alloc: Global, place: &Place, opcode: Opcode, operand: &Operand) -> Result<(), Flaw>
    requires { place.now.pc ≤ 65535 }
    ensures { Judges result ((place.now.has_code ≡ false) ⊎ IsNoInstruction (places place.now.labels) place.now.pc opcode operand.now) }
{
    demand(place.has_code)?;
    judge_instruction(alloc, place, opcode, operand)
}

/// An item at its place, with the items behind it.
pub(crate) fn judge_item(
    alloc: Global,
    place: &Place,
    item: &Item,
    behind: &[Item],
) -> Result<(), Flaw>
    requires { place.now.pc ≤ 65535 }
    ensures { (superclass : List ℕ) → Judges result (IsNoItemHere superclass place.now item.now behind.now) }
{
    match item {
        Item::Field { flags, name, desc } => judge_field(alloc, *flags, name, desc),
        Item::Method {
            flags,
            name,
            desc,
            frame,
        } => judge_method(alloc, *flags, name, desc, frame, has_instruction(behind)),
        Item::Initializer => Ok(()),
        Item::Try {
            start,
            end,
            handler,
            catch,
        } => judge_try(place, start, end, handler, catch),
        Item::Instruction {
            opcode,
            operand,
            ..
        } => judge_placed(alloc, place, *opcode, operand),
    }
}

/// The item that begins a class.
pub(crate) fn judge_head(head: &Head) -> Result<(), Flaw>
    ensures { Judges result (IsNoHead head.now) }
{
    demand(fits_short(head.flags))?;
    judge_text(&head.name)?;
    judge_text(&head.superclass)?;
    refuse(is_array(head.name.bytes()))
}
