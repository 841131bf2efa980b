ghost use Rattle.std.specs.Prelude.{◌≡◌, ℕ, List, ◌<◌, ◌≤◌, ◌^◌, ◌↔◌, length, IsTrue, IfOk, IfErr, IfSome, IfNone, OnOk};
ghost use Rattle.ja_supertypes.specs.Faults.{AreClasses, IsFault};
ghost use Rattle.ja_supertypes.specs.LibraryTypes.{AreLibraryTypes, IsNearest};
ghost use Rattle.ja_supertypes.specs.Supertypes as supertypes;
ghost use Rattle.ja_supertypes.specs.Supertypes.{superclass_of, supertypes_of, AreSupertypes, IsSupertype, IsSuperclass, IsSuperinterface, HasLibrarySupertype};
ghost use Rattle.ja_base.specs.Limit.{max_numbered};

use crate::ClassFault;
use crate::library::library_types;
use crate::make::tables_of;
use crate::tables::Tables;
use ja_base::{Name, Names, Numbers, Seq};
use ja_ir::ClassHead;
use std::alloc::Global;
use std::marker::Model;

/// The classes of a program, which contracts see as the list of their heads. A class is named by its
/// place in the list.
#[derive(Drop)]
pub struct Classes {
    tables: Tables,
    types: Seq<Names>,
}

impl Model for Classes {
    ghost use Rattle.std.specs.Prelude.{List};
    ghost use Rattle.ja_ir.specs.declared.head.ClassHead.{ClassHead};

    ghost Value = { List ClassHead };

    ghost use Rattle.ja_supertypes.specs.InnerTypes.{IsTyped};

    ghost view = { λ classes. classes.tables.heads };

    ghost invariant = { λ classes. IsTyped classes.tables classes.types };
}

/// The classes with these heads.
///
/// # Errors
///
/// The first fault in the list's order, one check after the other over all classes: a class in a package
/// of the platform, a second class of one name, a class that is its own supertype. `Memory` for want of
/// memory.
pub fn classes_of(alloc: Global, heads: &[ClassHead]) -> Result<Classes, ClassFault>
    requires { length heads.now ≤ max_numbered }
    ensures heads { IfOk result (λ classes. classes ≡ heads.now) }
    ensures valid { OnOk result (AreClasses heads.now) }
    ensures fault { IfErr result (IsFault heads.now) }
{
    let tables = tables_of(alloc, heads)?;
    let types = library_types(alloc, &tables)?;
    Ok(Classes { tables, types })
}

impl Classes {
    /// The heads, in order.
    pub fn heads(&self) -> &Seq<ClassHead>
        ensures { result.now ≡ self.now }
    {
        &self.tables.heads
    }

    /// The program class of a name. It takes no memory.
    pub fn class_named(&self, name: &Name) -> Option<u32>
        ensures value { result ≡ supertypes.class_named self.now name.now }
        ensures inside { IfSome result (λ class. class < length self.now) }
    {
        match self.tables.names.get_index_of(name) {
            Some(place) => Some(place as u32),
            None => None,
        }
    }

    /// The direct superclass of a class, where it is a program class.
    pub fn superclass(&self, class: u32) -> Option<u32>
        requires { class < length self.now }
        ensures value { result ≡ superclass_of self.now class }
        ensures inside { IfSome result (λ superclass. superclass < length self.now) }
    {
        *self.tables.superclasses.at(class as u64)
    }

    /// The program classes among the direct supertypes of a class: its superinterfaces in declared
    /// order, then its superclass.
    pub fn direct_supertypes(&self, class: u32) -> &Numbers
        requires { class < length self.now }
        ensures value { result.now ≡ supertypes_of self.now class }
    {
        self.tables.direct.at(class as u64)
    }

    /// The proper program supertypes of a class, in ascending order.
    pub fn supertypes(&self, class: u32) -> &Numbers
        requires { class < length self.now }
        ensures { AreSupertypes self.now class result.now }
    {
        self.tables.supertypes.at(class as u64)
    }

    /// Whether another class is a proper supertype of a class. It takes no memory.
    pub fn is_supertype(&self, class: u32, other: u32) -> bool
        requires class { class < length self.now }
        requires other { other < length self.now }
        ensures { IsTrue result ↔ IsSupertype self.now class other }
    {
        self.tables.above.at(class as u64).contains(other)
    }

    /// Whether another class is a proper superclass of a class. It takes no memory.
    pub fn is_superclass(&self, class: u32, other: u32) -> bool
        requires class { class < length self.now }
        requires other { other < length self.now }
        ensures { IsTrue result ↔ IsSuperclass self.now class other }
    {
        self.tables
            .above_superclasses
            .at(class as u64)
            .contains(other)
    }

    /// Whether another class is a proper superinterface of a class. It takes no memory.
    pub fn is_superinterface(&self, class: u32, other: u32) -> bool
        requires class { class < length self.now }
        requires other { other < length self.now }
        ensures { IsTrue result ↔ IsSuperinterface self.now class other }
    {
        self.tables.superinterfaces.at(class as u64).contains(other)
    }

    /// Whether a library class other than `java/lang/Object` is above a class.
    pub fn has_library_supertype(&self, class: u32) -> bool
        requires { class < length self.now }
        ensures { IsTrue result ↔ HasLibrarySupertype self.now class }
    {
        *self.tables.foreign.at(class as u64)
    }

    /// The nearest superclass of a class that is one of the library, where the way up ends in one.
    pub fn library_superclass(&self, class: u32) -> Option<&Name>
        requires { class < length self.now }
        ensures some { IfSome result (λ name. IsNearest self.now class name.now) }
        ensures none { IfNone result ((name : List ℕ) → IsNearest self.now class name → ⊥) }
    {
        let top = *self.tables.tops.at(class as u64);
        match &self.tables.heads.at(top).superclass {
            None => None,
            Some(name) => Some(name),
        }
    }

    /// The library types of a class: its nearest library superclass, where it is not
    /// `java/lang/Object`, then the library interfaces of the class and of its program superclasses
    /// upwards, in declared order and each at its first place, where a program interface gives way to
    /// its own interfaces.
    pub fn library_types(&self, class: u32) -> &Names
        requires { class < length self.now }
        ensures { AreLibraryTypes self.now class result.now }
    {
        self.types.at(class as u64)
    }
}
