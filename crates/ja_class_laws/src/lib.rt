//! The least solution of a network's rules is the least solution of the rules of class sets.
#![tactic(auto)]

mod law;

pub use law::law_network_shows_class_sets;
