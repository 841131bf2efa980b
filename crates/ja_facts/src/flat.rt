ghost use Rattle.std.specs.Prelude.{◌≡◌, [], ◌∷◌, ◌++◌, slice_get, slice_index_or, OnOk, OnErr};

use ja_base::Memory;
use std::alloc::Global;
use std::marker::Model;

/// A growable list of lists of numbers, which lie one behind the other in one piece of memory.
#[derive(Drop)]
pub struct FlatRows {
    spans: Vec<Span>,
    items: Vec<u32>,
}

// Where a list lies among the items: its first place and its length.
#[derive(Clone, Copy)]
struct Span {
    from: u64,
    count: u64,
}

impl Model for FlatRows {
    ghost use Rattle.std.specs.Prelude.{ℕ, List, length, map};
    ghost use Rattle.ja_facts.specs.Shared.{in_span, AreWithin};

    ghost Value = { List (List ℕ) };

    ghost view = { λ rows. map (in_span rows.items.items) rows.spans.items };

    ghost invariant = { λ rows. AreWithin (length rows.items.items) rows.spans.items };
}

impl FlatRows {
    /// No list. It keeps the allocator and takes no memory.
    pub fn new(alloc: Global) -> FlatRows
        ensures { result ≡ [] }
    {
        FlatRows {
            spans: Vec::new(alloc),
            items: Vec::new(alloc),
        }
    }

    /// Number `k` of list `i`, if there is one.
    pub fn at(&self, i: u64, k: u64) -> Option<u32>
        ensures { result ≡ slice_get (slice_index_or self.now i []) k }
    {
        if i >= self.spans.len() as u64 {
            return None;
        }
        let span = self.spans[i as usize];
        if k >= span.count {
            return None;
        }
        Some(self.items[(span.from + k) as usize])
    }

    /// Adds a list at the end. After `Memory` the lists are unchanged.
    pub fn push(&mut self, row: &[u32]) -> Result<(), Memory>
        ensures ok { OnOk result (self.new ≡ self.old ++ row.now ∷ []) }
        ensures err { OnErr result (self.new ≡ self.old) }
    {
        let from = self.items.len() as u64;
        if self.items.extend_from_slice(row).is_err() {
            return Err(Memory);
        }
        let span = Span {
            from,
            count: row.len() as u64,
        };
        match self.spans.push(span) {
            Ok(()) => Ok(()),
            Err(_) => Err(Memory),
        }
    }
}
