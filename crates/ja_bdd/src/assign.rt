ghost use Rattle.std.specs.Prelude.{◌≡◌, length};
ghost use Rattle.ja_bdd.specs.declared.assign.TheConstants.{VALUES};

use ja_base::Memory;
use std::alloc::Global;

/// How many variables an assignment has a value for.
const VALUES: usize = 4_096;

/// An assignment: a value for each of the variables 0 to 4,095.
#[derive(Drop)]
pub struct Assign {
    values: Vec<bool>,
    ghost counted: { length values.items ≡ VALUES },
}

impl Assign {
    ghost use Rattle.std.specs.Prelude.{◌≡◌, ◌<◌, ℕ, false, IfOk};
    ghost use Rattle.ja_bdd.specs.Functions.{with_var};
    ghost use Rattle.ja_bdd.specs.Variables.{values_of};

    /// The assignment in which each variable is false.
    pub fn new(alloc: Global) -> Result<Assign, Memory>
        ensures { IfOk result (λ a. (v : ℕ) → values_of a v ≡ false) }
    {
        let values = Vec::from_elem(alloc, false, VALUES)?;
        Ok(Assign { values })
    }

    /// The value of a variable, at most 4,095.
    pub fn get(&self, var: u32) -> bool
        requires { var < VALUES }
        ensures { result ≡ values_of self.now var }
    {
        self.values[var as usize]
    }

    /// Sets the value of a variable, at most 4,095.
    pub(crate) fn set(&mut self, var: u32, value: bool)
        requires { var < VALUES }
        ensures { (v : ℕ) → values_of self.new v ≡ with_var (values_of self.old) var value v }
    {
        self.values[var as usize] = value;
    }
}
