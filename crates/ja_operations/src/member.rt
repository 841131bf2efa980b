ghost use Rattle.std.specs.Prelude.{◌≡◌, ◌≢◌, IfOk, IsTrue};
ghost use Rattle.ja_base.specs.Tag as pool_tag;
ghost use Rattle.ja_pool.specs.Table.{is_member_tag};
ghost use Rattle.ja_code.specs.Grammar.{operand_at};
ghost use Rattle.ja_operations.specs.Names.{class_in, member_in};
ghost use Rattle.ja_kinds.specs.Effect.{tag_named};

use ja_base::{Memory, Name};
use ja_code::RawInstr;
use ja_pool::Pool;
use std::alloc::Global;

/// A field or method as an instruction names it (JVM specification 4.4.2).
#[derive(Drop)]
pub struct MemberRef {
    /// The class or array class.
    pub class: Name,
    pub name: Name,
    pub desc: Name,
}

/// The index of the entry that an instruction names.
fn index_named(pool: &Pool, instr: &RawInstr) -> u32
    requires { tag_named pool.now instr.now ≢ 0 }
    ensures { result ≡ operand_at instr.now 0 }
{
    let index = instr.operand(0);
    let inside = index < u64::from(pool.count());
    prove!(inside);
    index as u32
}

/// The name of the class that an instruction names.
pub(crate) fn class_named<'a>(pool: &'a Pool, instr: &RawInstr) -> &'a [u8]
    requires { tag_named pool.now instr.now ≡ pool_tag.class }
    ensures { result.now ≡ class_in pool.now instr.now }
{
    pool.class_name(index_named(pool, instr))
}

/// The member that an instruction names.
pub(crate) fn member_named(
    alloc: Global,
    pool: &Pool,
    instr: &RawInstr,
) -> Result<MemberRef, Memory>
    requires { IsTrue (is_member_tag (tag_named pool.now instr.now)) }
    ensures { IfOk result (λ member. member ≡ member_in pool.now instr.now) }
{
    let named = pool.member(index_named(pool, instr));
    let class = Name::of(alloc, named.class)?;
    let name = Name::of(alloc, named.name)?;
    let desc = Name::of(alloc, named.desc)?;
    Ok(MemberRef { class, name, desc })
}
