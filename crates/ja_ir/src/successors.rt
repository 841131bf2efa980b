ghost use Rattle.std.specs.Prelude.{◌≡◌, [], ◌∷◌, IfOk};

use ja_base::{Memory, Numbers, Seq};
use std::alloc::Global;
use std::marker::Model;

/// The indices of the instructions to which the normal end of an instruction may lead, in their order, which
/// contracts see as a list. Up to two of them take no memory beside the instruction.
#[derive(Drop)]
pub struct Successors {
    places: Places,
}

/// The indices, by how many there are: an instruction that ends its method has none, most have one, a
/// branch on a condition has two, and only a switch has more.
#[derive(Drop)]
pub(crate) enum Places {
    Nowhere,
    One([u64; 1]),
    Two([u64; 2]),
    More(Numbers),
}

impl Model for Successors {
    ghost use Rattle.std.specs.Prelude.{List, ℕ};

    ghost Value = { List ℕ };

    ghost use Rattle.ja_ir.specs.InnerPlaces.{listed};

    ghost view = { λ successors. listed successors.places };
}

impl Successors {
    /// No index.
    pub fn none() -> Successors
        ensures { result ≡ [] }
    {
        Successors {
            places: Places::Nowhere,
        }
    }

    /// One index.
    pub fn one(place: u64) -> Successors
        ensures { result ≡ place ∷ [] }
    {
        Successors {
            places: Places::One([place]),
        }
    }

    /// Two indices.
    pub fn two(first: u64, second: u64) -> Successors
        ensures { result ≡ first ∷ second ∷ [] }
    {
        Successors {
            places: Places::Two([first, second]),
        }
    }

    /// The indices of a list. It takes no memory.
    pub fn from_list(list: Numbers) -> Successors
        ensures { result ≡ list }
    {
        Successors {
            places: Places::More(list),
        }
    }

    /// The indices of a slice.
    pub fn of(alloc: Global, places: &[u64]) -> Result<Successors, Memory>
        ensures { IfOk result (λ successors. successors ≡ places.now) }
    {
        match places {
            [] => Ok(Successors::none()),
            [place] => Ok(Successors::one(*place)),
            [first, second] => Ok(Successors::two(*first, *second)),
            _ => {
                let list = Seq::copy_of(alloc, places)?;
                Ok(Successors::from_list(list))
            }
        }
    }

    /// The same indices.
    pub fn copy(&self, alloc: Global) -> Result<Successors, Memory>
        ensures { IfOk result (λ successors. successors ≡ self.now) }
    {
        Successors::of(alloc, self.as_slice())
    }

    /// The indices as a slice.
    pub fn as_slice(&self) -> &[u64]
        ensures { result.now ≡ self.now }
    {
        match &self.places {
            Places::Nowhere => &[],
            Places::One(places) => &places[..],
            Places::Two(places) => &places[..],
            Places::More(list) => list.as_slice(),
        }
    }
}
