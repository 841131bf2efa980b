use crate::{Head, Item, Items};
use ja_base::{Memory, Seq};
use std::alloc::Global;
use std::marker::Model;

/// A class of a listing, with the number of each of its items: they follow one another from that of the item
/// that begins the class.
#[derive(Drop)]
pub struct Listing {
    number: u64,
    head: Head,
    items: Items,
}

/// The classes of a listing.
pub type Listings = Seq<Listing>;

impl Model for Listing {
    ghost use Rattle.ja_listing.specs.Listed.{Listed};

    ghost Value = { Listed };

    ghost view = { λ listing. record { number = listing.number; head = listing.head; items = listing.items } };
}

impl Listing {
    ghost use Rattle.std.specs.Prelude.{◌≡◌, ◌++◌, ◌∷◌, [], OnOk, OnErr};

    /// A class that an item with this number begins, with no other item so far. It takes no memory.
    pub(crate) fn new(alloc: Global, number: u64, head: Head) -> Listing
        ensures { result ≡ record { number = number; head = head; items = [] } }
    {
        Listing {
            number,
            head,
            items: Items::new(alloc),
        }
    }

    /// Adds an item behind the others. After `Memory` the class is unchanged.
    pub(crate) fn push(&mut self, item: Item) -> Result<(), Memory>
        ensures ok { OnOk result (self.new ≡ record { number = self.old.number; head = self.old.head; items = self.old.items ++ item ∷ [] }) }
        ensures err { OnErr result (self.new ≡ self.old) }
    {
        self.items.push(item)
    }

    /// A class with these items, of which the one that begins it has this number.
    pub fn of(number: u64, head: Head, items: Items) -> Listing
        ensures { result ≡ record { number = number; head = head; items = items } }
    {
        Listing {
            number,
            head,
            items,
        }
    }

    /// The number of the item that begins the class, counted from 0 among the items of the text.
    pub fn number(&self) -> u64
        ensures { result ≡ self.now.number }
    {
        self.number
    }

    /// What that item says.
    pub fn head(&self) -> &Head
        ensures { result.now ≡ self.now.head }
    {
        &self.head
    }

    /// The items behind it, in order.
    pub fn items(&self) -> &Items
        ensures { result.now ≡ self.now.items }
    {
        &self.items
    }
}
