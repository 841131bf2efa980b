/// Which methods a look-up passes over.
#[derive(Clone, Copy, PartialEq, Eq)]
pub enum Skip {
    /// No method at all.
    NoMethod,
    /// Private and static methods, which no virtual call selects.
    NotVirtual,
    /// Private, static and abstract methods, which no class inherits from an interface as code.
    NoDefault,
}
