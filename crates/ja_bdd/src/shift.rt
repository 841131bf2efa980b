ghost use Rattle.std.specs.Prelude.{◌≡◌, ◌⊎◌, ℕ, false, Some, OnOk, IfOk, IfErr, length, slice_get};
ghost use Rattle.ja_node_core.specs.Node.{Knows, IsPart};
ghost use Rattle.ja_node_table.specs.Seats.{aim_of, IsOf, known};
ghost use Rattle.ja_bdd.specs.Functions.{renamed, KeepsOrder, IsAimed};
ghost use Rattle.ja_bdd.specs.Meaning.{meaning, IsMeant, Keeps};
ghost use Rattle.ja_bdd.specs.Room.{LacksRoomUnder};
ghost use Rattle.ja_bdd.specs.Variables.{partner_of};
ghost use Rattle.ja_bdd.specs.Inner.{AreRight, AreShiftsEarly, is_shift, IsNothing, IsLeft};
ghost use Rattle.ja_bdd.specs.Workers.{IsWorkerOf, seen};

use crate::cache::{Entry, NOTHING, Question, SHIFT_ENTRIES};
use crate::renaming::Renaming;
use crate::worker::Worker;
use ja_node_core::Aim;
use ja_node_table::{Full, Node, NodeTable};

/// The entry, but nothing in place of an answer to a renaming.
fn without_shift(entry: Entry) -> Entry
    ensures { IsNothing result ⊎ ((result ≡ entry) × (is_shift entry.asked ≡ false)) }
{
    if entry.asked.is_shift() {
        NOTHING
    } else {
        entry
    }
}

/// Takes the answers to renamings out of a cache.
fn drop_shifts(cache: &mut Vec<Entry>)
    requires { AreShiftsEarly cache.old.items }
    ensures length { length cache.new.items ≡ length cache.old.items }
    ensures left { (i : ℕ) (e : Entry) → slice_get cache.new.items i ≡ Some e → IsLeft cache.old.items i e }
{
    for i in 0..cache.len().min(SHIFT_ENTRIES) {
        cache[i] = without_shift(cache[i]);
    }
}

impl<A: Aim> Worker<A> {
    /// Forgets the answers for earlier renamings.
    fn forget_shifts(&mut self)
        ensures seat { self.new.seat ≡ self.old.seat }
        ensures cache { (m : ℕ → ℕ) → ∥ AreRight (Some m) (known self.new.seat) self.new.cache.items ∥₁ }
    {
        drop_shifts(&mut self.cache);
    }

    /// The renamed node. The cache knows no other renaming.
    fn rename(&mut self, table: &NodeTable<A>, f: Node, m: &Renaming) -> Result<Node, Full<A>>
        requires seat { IsOf table.now self.old.seat }
        requires known { Knows (known self.old.seat) f.number }
        requires order { KeepsOrder (partner_of m.now) (meaning (known self.old.seat) f.number) }
        requires aim { IsAimed (A.aims (aim_of table.now)) (renamed (partner_of m.now) (meaning (known self.old.seat) f.number)) }
        requires cache { ∥ AreRight (Some (partner_of m.now)) (known self.old.seat) self.old.cache.items ∥₁ }
        ensures seat { IsOf table.now self.new.seat }
        ensures grows { IsPart (known self.old.seat) (known self.new.seat) }
        ensures ok { IfOk result (λ n. IsMeant (known self.new.seat) n.number (renamed (partner_of m.now) (meaning (known self.old.seat) f.number))) }
        ensures full { IfErr result (LacksRoomUnder table.now (known self.new.seat) (renamed (partner_of m.now) (meaning (known self.old.seat) f.number))) }
        ensures cache { OnOk result (∥ AreRight (Some (partner_of m.now)) (known self.new.seat) self.new.cache.items ∥₁) }
    {
        if f.number < 2 {
            return Ok(f);
        }
        if let Some(n) = self.find(Question::Shift(f)) {
            return Ok(n);
        }
        let parts = table.parts(&mut self.seat, f);
        let low = match self.rename(table, parts.lo, m) {
            Ok(low) => low,
            Err(full) => return Err(full),
        };
        let high = match self.rename(table, parts.hi, m) {
            Ok(high) => high,
            Err(full) => return Err(full),
        };
        self.finish(table, Question::Shift(f), m.partner(parts.var), low, high)
    }

    /// The node in which each variable has become its partner.
    ///
    /// The partners of the variables that the known node's function looks at are in the order of
    /// these. `Full` comes only for a word under what the call means.
    pub fn shift(&mut self, table: &NodeTable<A>, f: Node, m: &Renaming) -> Result<Node, Full<A>>
        requires worker { IsWorkerOf table.now self.old }
        requires known { Knows (seen self.old) f.number }
        requires order { KeepsOrder (partner_of m.now) (meaning (seen self.old) f.number) }
        requires aim { IsAimed (A.aims (aim_of table.now)) (renamed (partner_of m.now) (meaning (seen self.old) f.number)) }
        ensures worker { IsWorkerOf table.now self.new }
        ensures keeps { Keeps (seen self.old) (seen self.new) }
        ensures ok { IfOk result (λ n. IsMeant (seen self.new) n.number (renamed (partner_of m.now) (meaning (seen self.old) f.number))) }
        ensures full { IfErr result (LacksRoomUnder table.now (seen self.new) (renamed (partner_of m.now) (meaning (seen self.old) f.number))) }
    {
        self.forget_shifts();
        self.rename(table, f, m)
    }
}
