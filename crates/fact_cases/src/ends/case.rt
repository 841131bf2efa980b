/// What is known before an operation.
#[derive(Clone, Copy, PartialEq, Eq)]
pub enum Before {
    /// Nothing, and a call goes nowhere.
    Nothing,
    /// A call goes to a method without code.
    WithoutCode,
    /// The local reaches the lowest value and has a pair with it, and a call goes to the library.
    Met,
}

/// The operation of a number, before which so many values are on the stack.
#[derive(Clone, Copy)]
pub struct Case {
    pub name: &'static str,
    pub height: u32,
    pub before: Before,
}

/// The cases, by the numbers of their operations.
pub static CASES: [Case; 37] = [
    Case {
        name: "nop",
        height: 0,
        before: Before::Nothing,
    },
    Case {
        name: "load",
        height: 0,
        before: Before::Nothing,
    },
    Case {
        name: "store",
        height: 1,
        before: Before::Nothing,
    },
    Case {
        name: "branch",
        height: 1,
        before: Before::Nothing,
    },
    Case {
        name: "monitor",
        height: 1,
        before: Before::Nothing,
    },
    Case {
        name: "const",
        height: 0,
        before: Before::Nothing,
    },
    Case {
        name: "text",
        height: 0,
        before: Before::Nothing,
    },
    Case {
        name: "new",
        height: 0,
        before: Before::Nothing,
    },
    Case {
        name: "array",
        height: 1,
        before: Before::Nothing,
    },
    Case {
        name: "length",
        height: 1,
        before: Before::Nothing,
    },
    Case {
        name: "test",
        height: 1,
        before: Before::Nothing,
    },
    Case {
        name: "sum",
        height: 2,
        before: Before::Nothing,
    },
    Case {
        name: "quotient",
        height: 2,
        before: Before::Nothing,
    },
    Case {
        name: "field",
        height: 1,
        before: Before::Nothing,
    },
    Case {
        name: "element",
        height: 2,
        before: Before::Nothing,
    },
    Case {
        name: "static field",
        height: 0,
        before: Before::Nothing,
    },
    Case {
        name: "written field",
        height: 2,
        before: Before::Nothing,
    },
    Case {
        name: "reached field",
        height: 2,
        before: Before::Met,
    },
    Case {
        name: "written element",
        height: 3,
        before: Before::Nothing,
    },
    Case {
        name: "reached element",
        height: 3,
        before: Before::Met,
    },
    Case {
        name: "written static field",
        height: 1,
        before: Before::Nothing,
    },
    Case {
        name: "return",
        height: 1,
        before: Before::Nothing,
    },
    Case {
        name: "throw",
        height: 1,
        before: Before::Nothing,
    },
    Case {
        name: "cast",
        height: 1,
        before: Before::Nothing,
    },
    Case {
        name: "twice",
        height: 1,
        before: Before::Nothing,
    },
    Case {
        name: "none fresh",
        height: 1,
        before: Before::Met,
    },
    Case {
        name: "always fresh",
        height: 1,
        before: Before::Met,
    },
    Case {
        name: "args fresh",
        height: 1,
        before: Before::Met,
    },
    Case {
        name: "none self",
        height: 1,
        before: Before::Met,
    },
    Case {
        name: "none member",
        height: 1,
        before: Before::Met,
    },
    Case {
        name: "none any",
        height: 1,
        before: Before::Met,
    },
    Case {
        name: "blend none self",
        height: 1,
        before: Before::Met,
    },
    Case {
        name: "blend none fresh",
        height: 1,
        before: Before::Met,
    },
    Case {
        name: "absorb static",
        height: 1,
        before: Before::Met,
    },
    Case {
        name: "absorb receiver",
        height: 1,
        before: Before::Met,
    },
    Case {
        name: "nowhere",
        height: 1,
        before: Before::Nothing,
    },
    Case {
        name: "without code",
        height: 1,
        before: Before::WithoutCode,
    },
];
