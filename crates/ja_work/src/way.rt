/// A way in which an operation may end by an exception.
#[derive(Clone, Copy)]
pub enum Way {
    /// With a new object, before anything is done.
    Clean,
    /// With the value that it throws.
    Thrown,
    /// In the library, after the effect of the call.
    InLibrary,
}
