ghost use Rattle.std.specs.Prelude.{◌≡◌, ◌<◌, ◌≤◌, ◌^◌, ◌↔◌, Some, IfOk, IsTrue, length, slice_get, sum_by};
ghost use Rattle.ja_hier.specs.declared.starts.Member.TheVariants.{Method};
ghost use Rattle.ja_hier.specs.Members.{count_of};
ghost use Rattle.ja_heads.specs.Classes.{AreClassInfos, AreSupers, IsAbsorbing, IsClassInfo};
ghost use Rattle.ja_base.specs.Limit.{max_numbered};

use crate::initializer::initializers;
use crate::selection::selections;
use crate::supers::at_or_above;
use ja_base::{ClassId, Memory, Name, Names, Seq};
use ja_hier::Hier;
use ja_ir::{ClassIds, ClassInfo, ClassInfos};
use std::alloc::Global;

/// What a program says of each of its classes. The name of the file of each class stands at its place.
pub fn class_infos(alloc: Global, hier: &Hier, files: &Names) -> Result<ClassInfos, Memory>
    requires few { length hier.now ≤ max_numbered }
    requires methods { sum_by (count_of Method) hier.now ≤ max_numbered }
    requires files { length files.now ≡ length hier.now }
    ensures { IfOk result (AreClassInfos hier.now files.now) }
{
    let mut infos = Seq::new(alloc);
    for (c, file) in files.as_slice().iter().enumerate() {
        infos.push(class_info(alloc, hier, ClassId(c as u32), file)?)?;
    }
    Ok(infos)
}

/// What a program says of a class.
fn class_info(alloc: Global, hier: &Hier, class: ClassId, file: &Name) -> Result<ClassInfo, Memory>
    requires few { length hier.now ≤ max_numbered }
    requires methods { sum_by (count_of Method) hier.now ≤ max_numbered }
    requires inside { class.0 < length hier.now }
    ensures { IfOk result (IsClassInfo hier.now file.now class.0) }
{
    let head = hier.heads().at(class.0 as u64);
    let supers = supers(alloc, hier, class)?;
    let selections = selections(alloc, hier, class, supers.as_slice())?;
    let inits = initializers(alloc, hier, supers.as_slice())?;
    let name = head.name.copy(alloc)?;
    let file = file.copy(alloc)?;
    let absorbing = is_absorbing(hier, class);
    Ok(ClassInfo {
        name,
        file,
        flags: head.flags,
        absorbing,
        supers,
        selections,
        inits,
    })
}

/// The program classes at or above a class, in ascending order.
fn supers(alloc: Global, hier: &Hier, class: ClassId) -> Result<ClassIds, Memory>
    requires few { length hier.now ≤ max_numbered }
    requires inside { class.0 < length hier.now }
    ensures { IfOk result (AreSupers hier.now class.0) }
{
    let ids = at_or_above(alloc, class, hier.supertypes(class).as_slice())?;
    Ok(ids)
}

/// Whether the nearest library superclass of a class is another one than `java/lang/Object`.
fn is_absorbing(hier: &Hier, class: ClassId) -> bool
    requires { class.0 < length hier.now }
    ensures { IsTrue result ↔ IsAbsorbing hier.now class.0 }
{
    match hier.library_superclass(class) {
        None => false,
        Some(name) => name.bytes() != b"java/lang/Object".as_slice(),
    }
}
