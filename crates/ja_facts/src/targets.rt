use ja_base::{Numbers, Seq};
use std::alloc::Global;

/// Where a call may go.
#[derive(Drop)]
pub struct Targets {
    /// The methods, by their numbers in ascending order.
    pub methods: Numbers,
    /// Whether it may go to the library.
    pub library: bool,
}

impl Targets {
    ghost use Rattle.std.specs.Prelude.{◌≡◌};
    ghost use Rattle.ja_facts.specs.FactTables.{no_targets};

    /// No target. It takes no memory.
    pub fn new(alloc: Global) -> Targets
        ensures { result ≡ no_targets }
    {
        Targets {
            methods: Seq::new(alloc),
            library: false,
        }
    }
}
