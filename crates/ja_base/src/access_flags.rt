//! The access flags of classes, fields and methods (JVM specification tables 4.1-B, 4.5-A and 4.6-A).

/// Of every package.
pub const PUBLIC: u16 = 0x0001;

/// Of its own class alone.
pub const PRIVATE: u16 = 0x0002;

/// Of its package and of subclasses.
pub const PROTECTED: u16 = 0x0004;

/// A field or a method of the class and not of an object.
pub const STATIC: u16 = 0x0008;

/// Of a class: its special calls may go above it.
pub const SUPER: u16 = 0x0020;

/// A method whose code is not in its class file.
pub const NATIVE: u16 = 0x0100;

/// A class that is an interface.
pub const INTERFACE: u16 = 0x0200;

/// A class without objects of its own, or a method without code.
pub const ABSTRACT: u16 = 0x0400;
