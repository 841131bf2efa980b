//! Whether classes have few enough members and instructions to be lowered.
ghost use Rattle.std.specs.Prelude.{◌≡◌, ◌+◌, ◌≤◌, length, IsTrue, IfSome, sum_by};
ghost use Rattle.ja_base.specs.Limit.{max_numbered};
ghost use Rattle.ja_class.specs.declared.class.ClassMethod.{ClassMethod};
ghost use Rattle.ja_class.specs.Meaning.{ClassSpelled};
ghost use Rattle.ja_lower.specs.Program.{AreFew, code_length, instruction_count};

use ja_base::MAX_NUMBERED;
use ja_class::{Class, ClassMethod};

/// Whether classes have few enough fields.
fn few_fields(classes: &[Class]) -> bool
    ensures { IsTrue result → sum_by (λ (class : ClassSpelled). length class.head.fields) classes.now ≤ max_numbered }
{
    let mut left: u64 = MAX_NUMBERED;
    for class in classes {
        let count = class.head.fields.len();
        if count > left {
            return false;
        }
        left -= count;
    }
    true
}

/// Whether classes have few enough methods.
fn few_methods(classes: &[Class]) -> bool
    ensures { IsTrue result → sum_by (λ (class : ClassSpelled). length class.head.methods) classes.now ≤ max_numbered }
{
    let mut left: u64 = MAX_NUMBERED;
    for class in classes {
        let count = class.head.methods.len();
        if count > left {
            return false;
        }
        left -= count;
    }
    true
}

/// The number of instructions of a class, if it fits.
fn instructions_of(class: &Class) -> Option<u64>
    ensures { IfSome result (λ count. count ≡ sum_by (λ (body : ClassMethod). code_length body.code) class.now.methods) }
{
    let mut count: u64 = 0;
    for method in class.methods.as_slice() {
        count = count.checked_add(code_len(method))?;
    }
    Some(count)
}

/// The number of instructions of a method.
fn code_len(method: &ClassMethod) -> u64
    ensures { result ≡ code_length method.now.code }
{
    match &method.code {
        Some(code) => code.instrs.len(),
        None => 0,
    }
}

/// Whether classes have few enough instructions.
fn few_instructions(classes: &[Class]) -> bool
    ensures { IsTrue result → instruction_count classes.now ≤ max_numbered }
{
    let mut left: u64 = MAX_NUMBERED;
    for class in classes {
        let Some(count) = instructions_of(class) else {
            return false;
        };
        if count > left {
            return false;
        }
        left -= count;
    }
    true
}

/// Whether classes are few enough to be lowered, with their members and instructions.
pub fn are_few(classes: &[Class]) -> bool
    ensures { IsTrue result → AreFew classes.now }
{
    classes.len() as u64 <= MAX_NUMBERED
        && few_fields(classes)
        && few_methods(classes)
        && few_instructions(classes)
}
