ghost use Rattle.std.specs.Prelude.{◌≡◌, ◌^◌, ◌≤◌, [], length, IfOk, IfErr, OnOk, map};
ghost use Rattle.ja_ir.specs.declared.head.ClassHead.{ClassHead};
ghost use Rattle.ja_supertypes.specs.Faults.{IsFault, IsNowhere, IsPlatform, IsDuplicate};
ghost use Rattle.ja_base.specs.Limit.{max_numbered};

use crate::ClassFault;
use indexmap::IndexSet;
use ja_base::Name;
use ja_ir::ClassHead;
use std::alloc::Global;

/// Refuses a class in a package of the platform.
pub fn check_platform(heads: &[ClassHead]) -> Result<(), ClassFault>
    requires { length heads.now ≤ max_numbered }
    ensures ok { OnOk result (IsNowhere (IsPlatform heads.now)) }
    ensures err { IfErr result (IsFault heads.now) }
{
    for (class, head) in heads.iter().enumerate() {
        if head.name.bytes().starts_with(b"java/") {
            return Err(ClassFault::PlatformClass {
                class: class as u32,
            });
        }
    }
    Ok(())
}

/// The names of the classes, each at the place of its class.
pub fn number_names(alloc: Global, heads: &[ClassHead]) -> Result<IndexSet<Name>, ClassFault>
    requires few { length heads.now ≤ max_numbered }
    requires platform { IsNowhere (IsPlatform heads.now) }
    ensures names { IfOk result (λ names. names.keys ≡ map (λ (head : ClassHead). head.name) heads.now) }
    ensures distinct { OnOk result (IsNowhere (IsDuplicate heads.now)) }
    ensures err { IfErr result (IsFault heads.now) }
{
    let mut names = IndexSet::new(alloc);
    for (class, head) in heads.iter().enumerate() {
        let name = head.name.copy(alloc)?;
        match names.insert_full(name) {
            Ok((_, true)) => {}
            Ok((_, false)) => {
                return Err(ClassFault::Duplicate {
                    class: class as u32,
                });
            }
            Err(_) => return Err(ClassFault::Memory),
        }
    }
    Ok(names)
}
