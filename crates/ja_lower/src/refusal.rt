ghost use Rattle.std.specs.Prelude.{◌≡◌, ◌<◌, Some, IfSome, length, slice_get};
ghost use Rattle.ja_lower.specs.Refusals.{hier_refusal, method_refusal};
ghost use Rattle.ja_lower.specs.InnerRefusals.{IsOrMemory, NamesOneOf};

use crate::LowerFault;
use crate::LowerFault::Refused;
use ja_base::{Name, Names, Refusal};
use ja_hier::HierFault;
use ja_methods::MethodFault;
use std::alloc::Global;

/// A fault of the hierarchy, as a refusal that names the file of the class.
pub(crate) fn hier_fault(alloc: Global, files: &Names, fault: HierFault) -> LowerFault
    requires { NamesOneOf (length files.now) fault }
    ensures { IsOrMemory (hier_refusal files.now fault) result }
{
    match fault {
        HierFault::PlatformClass { class } => match file_of(alloc, files, class) {
            Some(file) => Refused(Refusal::PlatformClass { file }),
            None => LowerFault::Memory,
        },
        HierFault::Duplicate { class } => match file_of(alloc, files, class) {
            Some(file) => Refused(Refusal::Duplicate { file }),
            None => LowerFault::Memory,
        },
        HierFault::Cycle { class } => match file_of(alloc, files, class) {
            Some(file) => Refused(Refusal::Cycle { file }),
            None => LowerFault::Memory,
        },
        HierFault::CrossPackage { class, method } => match file_of(alloc, files, class) {
            Some(file) => Refused(Refusal::CrossPackage { file, method }),
            None => LowerFault::Memory,
        },
        HierFault::Memory => LowerFault::Memory,
    }
}

/// The name of the file of a class, if there is memory for it.
fn file_of(alloc: Global, files: &Names, class: u32) -> Option<Name>
    requires { class < length files.now }
    ensures { IfSome result (λ file. slice_get files.now class ≡ Some file) }
{
    match files.at(class as u64).copy(alloc) {
        Ok(file) => Some(file),
        Err(_) => None,
    }
}

/// A fault of a method of the class in a file, as a refusal.
pub(crate) fn method_fault(
    alloc: Global,
    file: &Name,
    method: u32,
    fault: MethodFault,
) -> LowerFault
    ensures { IsOrMemory (method_refusal file.now method fault) result }
{
    let Ok(file) = file.copy(alloc) else {
        return LowerFault::Memory;
    };
    match fault {
        MethodFault::Native => Refused(Refusal::Native { file, method }),
        MethodFault::FrameSize { values } => Refused(Refusal::FrameSize {
            file,
            method,
            values,
        }),
        MethodFault::StackDepth { pc } => Refused(Refusal::StackDepth { file, method, pc }),
        MethodFault::KindClash { pc } => Refused(Refusal::KindClash { file, method, pc }),
        MethodFault::FallsOff { pc } => Refused(Refusal::FallsOff { file, method, pc }),
        MethodFault::Reflection { pc } => Refused(Refusal::Reflection { file, method, pc }),
        MethodFault::ThreadStart { pc } => Refused(Refusal::ThreadStart { file, method, pc }),
        MethodFault::LibraryStore { pc } => Refused(Refusal::LibraryStore { file, method, pc }),
        MethodFault::NoField { pc } => Refused(Refusal::NoField { file, method, pc }),
        MethodFault::Memory => LowerFault::Memory,
    }
}
