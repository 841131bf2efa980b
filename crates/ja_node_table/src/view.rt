// What a seat knows. No value of `View` is ever made: it exists in contracts and proofs alone.
use std::collections::LinkedList;

/// What a table is for, and how many words it has.
#[derive(Drop)]
pub struct Plan<A> {
    pub aim: A,
    pub slots: u64,
}

/// The plan of the seat's table, which a spent view has lost, and the words that the seat saw,
/// each with its place.
pub struct View<A> {
    pub plan: Option<Plan<A>>,
    pub known: LinkedList<(u64, u64)>,
}
