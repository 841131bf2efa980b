use ja_node_core::Aim;
use ja_node_table::Full;

/// Why no table was made.
#[derive(Drop)]
pub enum GrowFault<A: Aim> {
    /// Want of memory.
    Memory,
    /// The new table has no room for a node.
    Full(Full<A>),
}
