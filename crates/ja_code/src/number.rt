//! The numbers of the opcodes that are spoken of by name elsewhere (JVM specification 6.5 and 7).

/// Loads a constant of one word.
pub const LDC: u8 = 18;

/// Loads a local reference.
pub const ALOAD: u8 = 25;

/// Loads the reference in local 0.
pub const ALOAD_0: u8 = 42;

/// Loads the reference in local 3.
pub const ALOAD_3: u8 = 45;

/// Stores into a local reference.
pub const ASTORE: u8 = 58;

/// Stores into local 0.
pub const ASTORE_0: u8 = 75;

/// Stores into local 3.
pub const ASTORE_3: u8 = 78;

/// Pops a word.
pub const POP: u8 = 87;

/// Jumps to a subroutine.
pub const JSR: u8 = 168;

/// Returns from a subroutine.
pub const RET: u8 = 169;

/// Ends a method with a reference.
pub const ARETURN: u8 = 176;

/// Ends a method without a value.
pub const RETURN: u8 = 177;

/// Calls a constructor, a private method or a method of a superclass.
pub const INVOKESPECIAL: u8 = 183;

/// Calls a static method.
pub const INVOKESTATIC: u8 = 184;

/// Calls what the program binds while it runs.
pub const INVOKEDYNAMIC: u8 = 186;

/// Jumps to a subroutine that is farther away.
pub const JSR_W: u8 = 201;
