//! The order of a method's variables in decision diagrams: a place for each slot of its frame.
#![tactic(auto)]

mod chains;
mod checks;
mod cost;
mod frame;
mod law;
mod make;
mod order;
mod plain;
mod ranking;
mod sources;
mod stacked;
mod starts;
mod walk;

pub use law::law_calls_keep_order;
pub use make::{method_order, order_of, orders_of};
pub use order::{Order, Orders};
