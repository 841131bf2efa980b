ghost use Rattle.std.specs.Prelude.{◌≡◌, slice_get};
ghost use Rattle.ja_ir.specs.Initializing as initializing;

use crate::{CallKind, CallOp, MethodAt, Op, Parts, Program};
use ja_base::{FieldId, MethodId};

impl Program {
    /// The class initialisers that an operation may run before it is done: those of the class of which
    /// it makes an object, that declares the field which it reads or writes as a static one, or that
    /// declares the method with code which a static call found (JVM specification 5.5). It takes no
    /// memory.
    pub fn inits_of(&self, op: &Op) -> &[MethodId]
        ensures { result.now ≡ initializing.inits_of self.now op.now }
    {
        let parts = self.parts();
        match op {
            Op::New(token) => of_class(parts, token.0),
            Op::GetStatic(field) | Op::PutStatic(field) => of_field(parts, *field),
            Op::Call(call) => of_call(parts, call),
            _ => &[],
        }
    }
}

/// The class initialisers of the program class of a number, if there is one.
fn of_class(parts: &Parts, class: u32) -> &[MethodId]
    ensures { result.now ≡ initializing.inits_of_class (slice_get parts.now.classes class) }
{
    match parts.classes.as_slice().get(class as usize) {
        Some(class) => class.inits.as_slice(),
        None => &[],
    }
}

/// The class initialisers of the class that declares a field.
fn of_field(parts: &Parts, field: FieldId) -> &[MethodId]
    ensures { result.now ≡ initializing.inits_of_field parts.now (slice_get parts.now.fields field.0) }
{
    match parts.fields.as_slice().get(field.0 as usize) {
        Some(field) => of_class(parts, field.class.0),
        None => &[],
    }
}

/// The class initialisers of the class that declares a method.
fn of_method(parts: &Parts, method: MethodId) -> &[MethodId]
    ensures { result.now ≡ initializing.inits_of_method parts.now (slice_get parts.now.methods method.0) }
{
    match parts.methods.as_slice().get(method.0 as usize) {
        Some(method) => of_class(parts, method.class.0),
        None => &[],
    }
}

/// The class initialisers for a call.
fn of_call<'a>(parts: &'a Parts, call: &CallOp) -> &'a [MethodId]
    ensures { result.now ≡ initializing.inits_of_call parts.now call.now.kind call.now.found }
{
    match (call.kind, call.found) {
        (CallKind::Static, Some(MethodAt::Program(method))) => of_method(parts, method),
        _ => &[],
    }
}
