ghost use Rattle.std.specs.Prelude.{◌≡◌, ◌<◌, ◌↔◌, ℕ, Some, ◌||◌, length, slice_get, IfOk, OnOk, IsTrue};
ghost use Rattle.ja_sets.specs.Sets.{Has};
ghost use Rattle.ja_network.specs.Facts.{Fact, Happens, state_of, events_of, Tells, IsNetwork, Extends, Settles, IsIn, IsNext, IsQuiet, SameOutside, Puts, KeepsLink, with_turn};
ghost use Rattle.ja_network.specs.declared.cell.Event.TheVariants.{Linked};

use crate::cell::{Action, Cell, Event};
use crate::sets::{copied, without};
use crate::state::{CellState, empty_state, gain, gain_one};
use indexmap::IndexSet;
use ja_base::Memory;
use ja_sets::TokenSet;
use std::alloc::Global;
use std::collections::HashMap;

/// Cells with tokens, and events, each of which is told once. What is new is handed out in its order:
/// events first, and then the cells that have got tokens, each with all that is fresh in it.
#[derive(Drop)]
pub struct Network {
    tokens: u32,
    cells: HashMap<Cell, CellState>,
    events: IndexSet<Event>,
    // So many events have been worked on.
    seen: u64,
    turns: Vec<Cell>,
    // So many turns have been taken.
    turned: u64,
}

impl Network {
    /// The network that tells nothing, for tokens below a bound. It takes no memory.
    pub fn new(alloc: Global, tokens: u32) -> Network
        ensures network { IsNetwork result }
        ensures empty { (f : Fact) → Tells result f → ⊥ }
        ensures tokens { result.tokens ≡ tokens }
    {
        Network {
            tokens,
            cells: HashMap::new(alloc),
            events: IndexSet::new(alloc),
            seen: 0,
            turns: Vec::new(alloc),
            turned: 0,
        }
    }

    // Takes the state of a cell out.
    fn take_state(&mut self, alloc: Global, cell: Cell) -> Result<CellState, Memory>
        ensures state { IfOk result (λ state. state ≡ state_of self.old cell) }
        ensures elsewhere { (d : Cell) → (d ≡ cell → ⊥) → state_of self.new d ≡ state_of self.old d }
        ensures outside { SameOutside self.old self.new }
        ensures turns { self.new.turns.items ≡ self.old.turns.items }
    {
        match self.cells.remove(&cell) {
            Some(state) => Ok(state),
            None => empty_state(alloc, self.tokens),
        }
    }

    // Puts the state of a cell back.
    fn put_state(&mut self, cell: Cell, state: CellState) -> Result<(), Memory>
        ensures puts { OnOk result (Puts self.old self.new cell state) }
        ensures turns { self.new.turns.items ≡ self.old.turns.items }
    {
        self.cells.insert(cell, state)?;
        Ok(())
    }

    /// Gives a cell a token.
    pub fn add(&mut self, alloc: Global, cell: Cell, token: u32) -> Result<(), Memory>
        requires network { IsNetwork self.old }
        requires token { token < self.old.tokens }
        ensures network { OnOk result (IsNetwork self.new) }
        ensures extends { OnOk result (Extends self.old self.new (IsIn cell (λ t. t ≡ token))) }
    {
        let mut state = self.take_state(alloc, cell)?;
        let new = gain_one(&mut state, token);
        await_turn(&mut self.turns, cell, &mut state, new)?;
        self.put_state(cell, state)
    }

    /// Gives a cell each token of a set.
    pub fn add_all(&mut self, alloc: Global, cell: Cell, set: &TokenSet) -> Result<(), Memory>
        requires network { IsNetwork self.old }
        requires set { length set.now ≡ self.old.tokens }
        ensures network { OnOk result (IsNetwork self.new) }
        ensures extends { OnOk result (Extends self.old self.new (IsIn cell (Has set.now))) }
    {
        let mut state = self.take_state(alloc, cell)?;
        let new = gain(&mut state, self.tokens, set);
        await_turn(&mut self.turns, cell, &mut state, new)?;
        self.put_state(cell, state)
    }

    /// Tells an event.
    pub fn tell(&mut self, event: Event) -> Result<(), Memory>
        requires network { IsNetwork self.old }
        ensures network { OnOk result (IsNetwork self.new) }
        ensures extends { OnOk result (Extends self.old self.new (λ f. f ≡ Happens event)) }
    {
        self.events.insert_full(event)?;
        Ok(())
    }

    /// The first event that has not been worked on, if there is one.
    pub fn next_event(&self) -> Option<Event>
        ensures { result ≡ slice_get (events_of self.now) self.now.seen }
    {
        self.events.get_index(self.seen as usize).copied()
    }

    /// Says that an event has been worked on, the first that had not been.
    pub fn settle_event(&mut self, alloc: Global, event: Event) -> Result<(), Memory>
        requires network { IsNetwork self.old }
        requires next { slice_get (events_of self.old) self.old.seen ≡ Some event }
        ensures network { OnOk result (IsNetwork self.new) }
        ensures settles { OnOk result (Settles self.old self.new (IsNext self.old)) }
    {
        self.keep_link(alloc, event)?;
        let _count = self.events.len();
        self.seen += 1;
        Ok(())
    }

    // Keeps what is done with each token of a cell, where the event is that.
    fn keep_link(&mut self, alloc: Global, event: Event) -> Result<(), Memory>
        ensures { OnOk result (KeepsLink self.old self.new event) }
    {
        match event {
            Event::Linked { from, action } => self.add_link(alloc, from, action),
            Event::Reached { .. } => Ok(()),
            Event::Calls { .. } => Ok(()),
            Event::CallsAbstract { .. } => Ok(()),
            Event::CallsLibrary { .. } => Ok(()),
            Event::Spanned { .. } => Ok(()),
        }
    }

    // Keeps what is done with each token of a cell.
    fn add_link(&mut self, alloc: Global, from: Cell, action: Action) -> Result<(), Memory>
        ensures { OnOk result (KeepsLink self.old self.new (Linked from action)) }
    {
        let mut state = self.take_state(alloc, from)?;
        state.links.push(action)?;
        self.put_state(from, state)
    }

    /// Event number `k`, if there are so many.
    pub fn event_at(&self, k: u64) -> Option<Event>
        ensures { result ≡ slice_get (events_of self.now) k }
    {
        self.events.get_index(k as usize).copied()
    }

    /// Whether an event happens.
    pub fn happens(&self, event: Event) -> bool
        ensures { IsTrue result ↔ Tells self.now (Happens event) }
    {
        self.events.contains(&event)
    }

    /// The first cell that waits for its turn, if there is one.
    pub fn next_turn(&self) -> Option<Cell>
        ensures { result ≡ slice_get self.now.turns.items self.now.turned }
    {
        self.turns.get(self.turned as usize).copied()
    }

    /// What is fresh in a cell.
    pub fn fresh_of(&self, alloc: Global, cell: Cell) -> Result<TokenSet, Memory>
        requires network { IsNetwork self.now }
        ensures same { IfOk result (λ set. (t : ℕ) → Has set t ↔ Has (state_of self.now cell).fresh t) }
        ensures size { IfOk result (λ set. length set ≡ self.now.tokens) }
    {
        match self.cells.get(&cell) {
            Some(state) => copied(alloc, self.tokens, &state.fresh),
            None => TokenSet::new(alloc, self.tokens),
        }
    }

    /// What a cell has.
    pub fn tokens_of(&self, alloc: Global, cell: Cell) -> Result<TokenSet, Memory>
        requires network { IsNetwork self.now }
        ensures same { IfOk result (λ set. (t : ℕ) → Has set t ↔ Has (state_of self.now cell).has t) }
        ensures size { IfOk result (λ set. length set ≡ self.now.tokens) }
    {
        match self.cells.get(&cell) {
            Some(state) => copied(alloc, self.tokens, &state.has),
            None => TokenSet::new(alloc, self.tokens),
        }
    }

    /// Link number `k` of a cell, if there is one: what is done with each of its tokens.
    pub fn link_of(&self, cell: Cell, k: u64) -> Option<Action>
        ensures { result ≡ slice_get (state_of self.now cell).links k }
    {
        match self.cells.get(&cell) {
            Some(state) => state.links.as_slice().get(k as usize).copied(),
            None => None,
        }
    }

    /// Ends the turn of a cell, the first that waits for its turn, in which so much of it has been
    /// worked on. Where something else is fresh in it by now, it waits for another turn.
    pub fn end_turn(&mut self, alloc: Global, cell: Cell, done: &TokenSet) -> Result<(), Memory>
        requires network { IsNetwork self.old }
        requires next { slice_get self.old.turns.items self.old.turned ≡ Some cell }
        requires size { length done.now ≡ self.old.tokens }
        ensures network { OnOk result (IsNetwork self.new) }
        ensures settles { OnOk result (Settles self.old self.new (λ f. Tells self.old f × IsIn cell (Has done.now) f)) }
    {
        let mut state = self.take_state(alloc, cell)?;
        state.fresh = without(alloc, self.tokens, &state.fresh, done)?;
        state.queued = false;
        let waits = state.fresh.next_from(0).is_some();
        await_turn(&mut self.turns, cell, &mut state, waits)?;
        self.put_state(cell, state)?;
        self.turned += 1;
        Ok(())
    }

    /// Whether everything has been worked on.
    pub fn is_quiet(&self) -> bool
        requires { IsNetwork self.now }
        ensures { IsTrue result → IsQuiet self.now }
    {
        self.seen == self.events.len() as u64 && self.turned == self.turns.len() as u64
    }
}

// Lets a cell wait for its turn, if it is to and does not yet.
fn await_turn(
    turns: &mut Vec<Cell>,
    cell: Cell,
    state: &mut CellState,
    waits: bool,
) -> Result<(), Memory>
    ensures state { OnOk result (state.new ≡ record state.old { queued = waits || state.old.queued }) }
    ensures turns { OnOk result (turns.new.items ≡ with_turn turns.old.items cell waits state.old.queued) }
{
    if waits && !state.queued {
        turns.push(cell)?;
        state.queued = true;
    }
    Ok(())
}
