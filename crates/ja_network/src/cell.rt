/// A set of tokens that is solved for. Methods, instructions, slots, parameters, fields and tokens are
/// given by their numbers.
#[derive(Clone, Copy, PartialEq, Eq, Hash)]
pub enum Cell {
    /// A set without tokens.
    Nothing,
    /// What the environment makes.
    Environment,
    /// The set of one token.
    Single { token: u32 },
    /// What is in a field.
    Field { field: u32 },
    /// What is in the bags of the objects of a token.
    Bag { token: u32 },
    /// What an object of a token is or leads to.
    Span { token: u32 },
    Param { method: u32, param: u32 },
    /// The results of a method.
    Answer { method: u32 },
    /// What a method throws out to its callers.
    Out { method: u32 },
    /// What an instruction throws.
    Thrown { method: u32, index: u32 },
    /// The tokens whose bags take the arguments of a library call.
    Takers { method: u32, index: u32 },
    /// What a cast or a call pushes.
    Pushed { method: u32, index: u32 },
    /// What is in a slot before an instruction.
    Before { method: u32, index: u32, slot: u32 },
}

/// What is done with each token of a cell.
#[derive(Clone, Copy, PartialEq, Eq, Hash)]
pub enum Action {
    /// It goes to another cell.
    Copy { to: Cell },
    /// It goes to what a cast pushes, where it fits the cast's type.
    Check { method: u32, index: u32 },
    /// It goes to a parameter of an entry, where it fits the parameter's type.
    Enter { method: u32, param: u32 },
    /// It goes to what a library call pushes, where it fits the type of the result.
    Return { method: u32, index: u32 },
    /// It is a receiver, and says where the call may go.
    Dispatch { method: u32, index: u32 },
    /// It is thrown by an instruction.
    Throw { method: u32, index: u32 },
    /// It is a source of a library call, and leads to takers.
    Source { method: u32, index: u32 },
    /// A source leads to it: it is a taker of a library call, where it is absorbing.
    Take { method: u32, index: u32 },
    /// It is a taker of a library call, and its bags take the arguments.
    Fill { method: u32, index: u32 },
    /// It is an argument of a library call that may answer what an argument leads to.
    Lead { method: u32, index: u32 },
    /// An object of the given token leads to it, and so to what it has.
    Expand { token: u32 },
    /// The environment makes it, and puts all that it makes into its bags.
    Stock,
}

/// What happens once.
#[derive(Clone, Copy, PartialEq, Eq, Hash)]
pub enum Event {
    /// An instruction may run.
    Reached {
        method: u32,
        index: u32,
    },
    /// A call may go to a method with code.
    Calls {
        method: u32,
        index: u32,
        target: u32,
    },
    /// A call may go to a method without code.
    CallsAbstract {
        method: u32,
        index: u32,
        target: u32,
    },
    /// A call may go to the library.
    CallsLibrary {
        method: u32,
        index: u32,
    },
    /// What an object of a token leads to is asked for.
    Spanned {
        token: u32,
    },
    /// Something is done with each token of a cell.
    Linked {
        from: Cell,
        action: Action,
    },
}
