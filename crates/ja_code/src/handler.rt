ghost use Rattle.std.specs.Prelude.{◌≡◌, ◌<◌, ◌^◌, length};
ghost use Rattle.ja_code.specs.Grammar.{is_handler};
ghost use Rattle.ja_code.specs.Faults.{first_failing, handler_checks};
ghost use Rattle.ja_code.specs.InnerReading.{marked, Passes};

use crate::check::{is_named, tag_of};
use crate::fault::CodeFault;
use crate::form::Entry;
use crate::start::is_marked;
use ja_base::Seq;
use ja_base::tag::Tag;

/// An entry of an exception table as its bytes have it (JVM specification 4.7.3).
#[derive(Clone, Copy, PartialEq, Eq, Debug)]
pub struct RawHandler {
    /// The pc of the first instruction that the entry is for.
    pub start: u16,
    /// The first pc past those instructions, which may be the code's length.
    pub end: u16,
    /// The pc of the handler.
    pub handler: u16,
    /// The pool index of the class that is caught, or 0 for any.
    pub catch_type: u16,
}

/// A list of exception table entries.
pub type RawHandlers = Seq<RawHandler>;

/// Whether an entry is right for a code whose starts of instructions are marked.
fn is_right(row: RawHandler, starts: &[bool], tags: &[Tag]) -> bool
    ensures { result ≡ is_handler tags.now (marked starts.now) (length starts.now) row }
{
    row.start < row.end
        && is_marked(starts, u64::from(row.start))
        && (usize::from(row.end) == starts.len() || is_marked(starts, u64::from(row.end)))
        && is_marked(starts, u64::from(row.handler))
        && (row.catch_type == 0 || is_named(Entry::Class, tag_of(tags, row.catch_type)))
}

/// Checks the entries of an exception table, for a code whose starts of instructions are marked.
pub(crate) fn check_handlers(
    rows: &[RawHandler],
    starts: &[bool],
    tags: &[Tag],
) -> Result<(), CodeFault>
    requires { length rows.now < 2 ^ 32 }
    ensures { Passes result (first_failing (handler_checks tags.now (marked starts.now) (length starts.now) 0 rows.now)) }
{
    for (number, row) in rows.iter().enumerate() {
        if !is_right(*row, starts, tags) {
            return Err(CodeFault::BadHandler {
                handler: number as u32,
            });
        }
    }
    Ok(())
}
