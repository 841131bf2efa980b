ghost use Rattle.std.specs.Prelude.{◌≡◌};
ghost use Rattle.ja_hier.specs.declared.fault.HierFault.TheVariants.{Memory};
ghost use Rattle.ja_hier.specs.Faults.{of_classes};

use ja_supertypes::ClassFault;

/// Why classes are no hierarchy. A class is named by its place in the list, a method by its place in its
/// class.
#[derive(Debug, Drop, Clone, Copy, PartialEq, Eq)]
pub enum HierFault {
    /// A class in a package of the platform: its name begins with `java/`.
    PlatformClass { class: u32 },
    /// A class with the name of an earlier one.
    Duplicate { class: u32 },
    /// A class that is its own supertype.
    Cycle { class: u32 },
    /// A method that redeclares a package-private method of a superclass in another package.
    CrossPackage { class: u32, method: u32 },
    /// Want of memory.
    Memory,
}

impl From<ja_base::Memory> for HierFault {
    ghost from_gives = { λ _ fault. fault ≡ Memory };

    fn from(_error: ja_base::Memory) -> HierFault {
        HierFault::Memory
    }
}

impl From<ClassFault> for HierFault {
    ghost from_gives = { λ fault hier. hier ≡ of_classes fault };

    fn from(fault: ClassFault) -> HierFault {
        match fault {
            ClassFault::PlatformClass { class } => HierFault::PlatformClass { class },
            ClassFault::Duplicate { class } => HierFault::Duplicate { class },
            ClassFault::Cycle { class } => HierFault::Cycle { class },
            ClassFault::Memory => HierFault::Memory,
        }
    }
}
