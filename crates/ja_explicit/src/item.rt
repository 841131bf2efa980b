/// A fact of the equations, with its assignments as words. Methods and instructions are given by their
/// numbers; a field has its number, and the bags of a token the number of all fields and the token's.
#[derive(Clone, Copy, PartialEq, Eq, Hash)]
pub enum Item {
    Context {
        method: u64,
        entry: u32,
    },
    At {
        method: u64,
        index: u64,
        entry: u32,
        now: u32,
    },
    Normal {
        method: u64,
        entry: u32,
        result: bool,
        dirt: bool,
    },
    Threw {
        method: u64,
        entry: u32,
        dirt: bool,
        exc: bool,
    },
    Stored {
        cell: u64,
    },
}
