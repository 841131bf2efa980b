ghost use Rattle.std.specs.Prelude.{◌≡◌, ℕ, List, ◌∷◌, [], ◌+◌, ◌<◌, ◌≤◌, ◌^◌, length, true, false, Some, None, Ok, Err, OnOk, IfOk, IfErr, IsErrOf};
ghost use Rattle.ja_listing.specs.declared.item.Line.{Line};
ghost use Rattle.ja_listing.specs.Word.{words};
ghost use Rattle.ja_listing.specs.Order.{stands};
ghost use Rattle.ja_listing.specs.Listed.{Listed};
ghost use Rattle.ja_listing.specs.Notation.{items_in, Spells, IsFirstBroken, IsCause, Answers};
ghost use Rattle.ja_listing.specs.InnerReading.{step, read, Lists};
ghost use Rattle.ja_listing.specs.InnerScope.{IsKept};

use crate::draft::Draft;
use crate::fault::ItemFault;
use crate::glyph::{Glyph, front, glyphs_of, item_len, rest_behind};
use crate::line::line_of;
use crate::scope::Scope;
use crate::word::words_of;
use crate::{Line, Listing, Listings, MakeFault};
use std::alloc::Global;

/// Takes one more item, whose number this is.
#[tactic(auto, using(crate::proofs::Scopes::allowed, crate::proofs::Kept::item_kept))]
fn read_line(
    alloc: Global,
    draft: &mut Draft,
    scope: &mut Scope,
    number: u64,
    line: Line,
) -> Result<(), ItemFault>
    ensures kept { OnOk result ((earlier : List Line) → IsKept earlier draft.old scope.old → number ≡ length earlier →
        (stands earlier line ≡ true) × IsKept (line ∷ earlier) draft.new scope.new) }
    ensures broken { IsErrOf result ItemFault.Broken → (earlier : List Line) → IsKept earlier draft.old scope.old → stands earlier line ≡ false }
{
    if !scope.allows(&line) {
        return Err(ItemFault::Broken);
    }
    scope.enter(alloc, &line)?;
    match line {
        Line::Class(head) => Ok(draft.begin(Listing::new(alloc, number, head))?),
        Line::Item(item) => draft.extend(item),
    }
}

/// Takes one more item, which has this number if it has words, and gives the number of the next.
fn read_item(
    alloc: Global,
    draft: &mut Draft,
    scope: &mut Scope,
    number: u64,
    item: &[Glyph],
) -> Result<u64, ItemFault>
    requires { number + 1 < 2 ^ 64 }
    ensures kept { IfOk result (λ behind. (earlier : List Line) → IsKept earlier draft.old scope.old → number ≡ length earlier →
        (more : List Line) × (step earlier (words item.now) ≡ Some more) × IsKept more draft.new scope.new × (behind ≡ length more)) }
    ensures count { IfOk result (λ behind. behind ≤ number + 1) }
    ensures broken { IsErrOf result ItemFault.Broken → (earlier : List Line) → IsKept earlier draft.old scope.old → step earlier (words item.now) ≡ None }
{
    let words = words_of(alloc, item)?;
    if words.is_empty() {
        return Ok(number);
    }
    let line = line_of(alloc, words.as_slice())?;
    read_line(alloc, draft, scope, number, line)?;
    Ok(number + 1)
}

/// The classes that the bytes of a text spell.
fn read_all(alloc: Global, glyphs: &[Glyph]) -> Result<Listings, MakeFault>
    ensures { Lists result (read [] (items_in glyphs.now)) }
{
    let mut draft = Draft::new(alloc);
    let mut scope = Scope::new(alloc);
    let mut number = 0u64;
    let mut rest = glyphs;
    while !rest.is_empty() {
        let len = item_len(rest);
        let item = front(rest, len);
        let behind = match read_item(alloc, &mut draft, &mut scope, number, item) {
            Ok(behind) => behind,
            Err(ItemFault::Broken) => return Err(MakeFault::BadListing { line: number }),
            Err(ItemFault::Memory) => return Err(MakeFault::Memory),
        };
        number = behind;
        rest = rest_behind(rest, len);
    }
    match draft.finish() {
        Ok(listings) => Ok(listings),
        Err(_) => Err(MakeFault::Memory),
    }
}

/// Reads a listing: the classes that a text spells, in order.
///
/// Items stand between line feeds or `;;`, words between blanks; what stands between two quotation marks is one
/// word. An item without words has no number. An error is the number of the first item that breaks the
/// notation, counted from 0.
pub fn read_listing(alloc: Global, text: &[u8]) -> Result<Listings, MakeFault>
    // What is read is spelled so.
    ensures ok { IfOk result (Spells text.now) }
    // What is spelled so is read, unless memory runs out.
    ensures only { (classes : List Listed) → Spells text.now classes → Answers result (Ok classes) }
    // An error is the first item that breaks the notation, or want of memory.
    ensures fault { IfErr result (IsCause text.now) }
    // The first item that breaks the notation is the error, unless memory runs out.
    ensures first { (n : ℕ) → IsFirstBroken text.now n → Answers result (Err (MakeFault.BadListing n)) }
{
    let glyphs = match glyphs_of(alloc, text) {
        Ok(glyphs) => glyphs,
        Err(_) => return Err(MakeFault::Memory),
    };
    read_all(alloc, glyphs.as_slice())
}
