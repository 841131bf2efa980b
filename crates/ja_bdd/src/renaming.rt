ghost use Rattle.std.specs.Prelude.{◌≡◌, ◌<◌, ◌≤◌, length};
ghost use Rattle.std.specs.List.{All};
ghost use Rattle.ja_base.specs.Limit.{last_variable};

use ja_base::MAX_VARIABLES;

/// A new name for each variable, its partner.
#[derive(Drop)]
pub struct Renaming {
    partners: [u16; MAX_VARIABLES as usize],
    ghost small: { All (λ partner. partner ≤ last_variable) partners },
}

impl Renaming {
    ghost use Rattle.std.specs.Prelude.{◌≡◌, ◌≢◌, ◌≤◌, ℕ};
    ghost use Rattle.ja_bdd.specs.Variables.{partner_of};

    /// The renaming in which each variable, at most 4,094, is its own partner. It takes no memory.
    pub fn new() -> Renaming
        ensures { (v : ℕ) → v ≤ last_variable → partner_of result v ≡ v }
    {
        let mut partners = [0; MAX_VARIABLES as usize];
        for var in 0..MAX_VARIABLES {
            partners[var as usize] = var as u16;
        }
        Renaming { partners }
    }

    /// Makes `to` the partner of `from`. Both are at most 4,094.
    pub fn put(&mut self, from: u32, to: u32)
        requires { (from ≤ last_variable) × (to ≤ last_variable) }
        ensures partner { partner_of self.new from ≡ to }
        ensures others { (v : ℕ) → v ≢ from → partner_of self.new v ≡ partner_of self.old v }
    {
        self.partners[from as usize] = to as u16;
    }

    /// The partner of a variable, at most 4,094.
    pub(crate) fn partner(&self, var: u32) -> u32
        requires { var ≤ last_variable }
        ensures partner { result ≡ partner_of self.now var }
        ensures small { result ≤ last_variable }
    {
        u32::from(self.partners[var as usize])
    }
}
