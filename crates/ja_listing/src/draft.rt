use crate::fault::ItemFault;
use crate::{Item, Listing, Listings};
use ja_base::Memory;
use std::alloc::Global;
use std::marker::Model;

/// The classes that were read so far. The last one goes on, and is held apart.
#[derive(Drop)]
pub(crate) struct Draft {
    done: Listings,
    current: Option<Listing>,
}

impl Model for Draft {
    ghost use Rattle.std.specs.Prelude.{List, ◌++◌};
    ghost use Rattle.ja_listing.specs.Listed.{Listed};
    ghost use Rattle.ja_listing.specs.InnerScope.{listed, IsBegun};

    ghost Value = { List Listed };

    ghost view = { λ draft. draft.done ++ listed draft.current };

    ghost invariant = { λ draft. IsBegun draft.done draft.current };
}

impl Draft {
    ghost use Rattle.std.specs.Prelude.{◌≡◌, ℕ, ◌++◌, ◌∷◌, [], OnOk, IfOk, IsErrOf};
    ghost use Rattle.ja_listing.specs.Listed.{lines_of, item_line, AreNumbered};

    /// No class. It takes no memory.
    pub(crate) fn new(alloc: Global) -> Draft
        ensures { result ≡ [] }
    {
        Draft {
            done: Listings::new(alloc),
            current: None,
        }
    }

    /// Adds a class.
    pub(crate) fn begin(&mut self, listing: Listing) -> Result<(), Memory>
        ensures { OnOk result (self.new ≡ self.old ++ listing ∷ []) }
    {
        match self.current.replace(listing) {
            Some(before) => self.done.push(before),
            None => Ok(()),
        }
    }

    /// Adds an item to the last class. It is broken where there is none.
    pub(crate) fn extend(&mut self, item: Item) -> Result<(), ItemFault>
        ensures lines { OnOk result (lines_of self.new ≡ lines_of self.old ++ item_line item ∷ []) }
        ensures numbers { OnOk result ((n : ℕ) → AreNumbered n self.old → AreNumbered n self.new) }
        ensures broken { IsErrOf result ItemFault.Broken → self.old ≡ [] }
    {
        let Some(listing) = &mut self.current else {
            return Err(ItemFault::Broken);
        };
        listing.push(item)?;
        Ok(())
    }

    /// The classes.
    pub(crate) fn finish(self) -> Result<Listings, Memory>
        ensures { IfOk result (λ listings. listings ≡ self) }
    {
        let Draft { mut done, current } = self;
        if let Some(listing) = current {
            done.push(listing)?;
        }
        Ok(done)
    }
}
