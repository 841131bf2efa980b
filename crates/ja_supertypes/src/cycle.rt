ghost use Rattle.std.specs.Prelude.{◌≤◌, ◌^◌, length, IfErr, OnOk};
ghost use Rattle.ja_supertypes.specs.Faults.{IsFault, IsNowhere, IsPlatform, IsDuplicate, IsCyclic};
ghost use Rattle.ja_supertypes.specs.InnerRows.{ShowsAll};
ghost use Rattle.ja_base.specs.Limit.{max_numbered};

use crate::ClassFault;
use ja_ir::ClassHead;
use ja_sets::TokenSet;

/// Refuses a class that is its own supertype.
pub fn check_cycles(heads: &[ClassHead], above: &[TokenSet]) -> Result<(), ClassFault>
    requires few { length heads.now ≤ max_numbered }
    requires above { ShowsAll heads.now above.now }
    requires platform { IsNowhere (IsPlatform heads.now) }
    requires distinct { IsNowhere (IsDuplicate heads.now) }
    ensures ok { OnOk result (IsNowhere (IsCyclic heads.now)) }
    ensures err { IfErr result (IsFault heads.now) }
{
    for class in 0..heads.len() {
        if above[class].contains(class as u32) {
            return Err(ClassFault::Cycle {
                class: class as u32,
            });
        }
    }
    Ok(())
}
