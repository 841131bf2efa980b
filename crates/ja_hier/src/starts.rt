ghost use Rattle.std.specs.Prelude.{◌≡◌, ◌≤◌, ◌^◌, ◌↔◌, sum_by, IfOk, IsTrue};
ghost use Rattle.ja_hier.specs.InnerIndex.{AreStarts};
ghost use Rattle.ja_hier.specs.Members.{count_of, IsNumbered};
ghost use Rattle.ja_base.specs.Limit.{max_numbered};

use ja_base::{MAX_NUMBERED, Memory, Numbers, Seq};
use ja_ir::ClassHead;
use std::alloc::Global;

/// A kind of members of a class.
#[derive(Clone, Copy, PartialEq, Eq)]
pub enum Member {
    Field,
    Method,
}

/// How many members of a kind a class declares.
pub fn count_of(member: Member, head: &ClassHead) -> u64
    ensures { result ≡ count_of member head.now }
{
    match member {
        Member::Field => head.fields.len(),
        Member::Method => head.methods.len(),
    }
}

/// Whether the classes declare at most 67,108,864 members of a kind.
fn are_few(heads: &[ClassHead], member: Member) -> bool
    ensures { IsTrue result ↔ (sum_by (count_of member) heads.now ≤ max_numbered) }
{
    let mut left = MAX_NUMBERED;
    for head in heads {
        let count = count_of(member, head);
        if count > left {
            return false;
        }
        left -= count;
    }
    true
}

/// Whether the classes, their fields and their methods are at most 67,108,864 each, which `hierarchy` asks
/// for. It takes no memory.
pub fn is_numbered(heads: &[ClassHead]) -> bool
    ensures { IsTrue result ↔ IsNumbered heads.now }
{
    heads.len() as u64 <= MAX_NUMBERED
        && are_few(heads, Member::Field)
        && are_few(heads, Member::Method)
}

/// For each class the number of the members of a kind that the classes before it declare.
pub fn starts(alloc: Global, heads: &[ClassHead], member: Member) -> Result<Numbers, Memory>
    requires { sum_by (count_of member) heads.now ≤ max_numbered }
    ensures { IfOk result (AreStarts heads.now (count_of member)) }
{
    let mut starts = Seq::new(alloc);
    let mut total = 0;
    for head in heads {
        starts.push(total)?;
        total += count_of(member, head);
    }
    Ok(starts)
}
