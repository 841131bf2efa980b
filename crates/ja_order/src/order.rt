use ja_base::Seq;

/// The order of a method's variables in decision diagrams: a place for each slot of its frame.
///
/// Slots are numbered: the locals, then the values on the stack, the lowest first, then dirt and exc.
/// Slot `n` stands at `places[n]`, and `slots[j]` stands at place `j`. A method without code has none.
#[derive(Drop)]
pub struct Order {
    pub places: Seq<u32>,
    pub slots: Seq<u32>,
}

/// The orders of the variables of a program's methods, by the methods' numbers.
pub type Orders = Seq<Order>;
