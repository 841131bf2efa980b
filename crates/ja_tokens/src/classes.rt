ghost use Rattle.std.specs.Prelude.{◌≡◌, ℕ, List, Some, None, IfOk, OnOk, bytes_eq, if◌then◌else◌};
ghost use Rattle.std.specs.HashMap.{get};
ghost use Rattle.ja_ir.specs.Lookup.{class_named};
ghost use Rattle.ja_ir.specs.Tokens as tokens;
ghost use Rattle.ja_ir.specs.declared.program.Parts.{Parts};
ghost use Rattle.ja_tokens.specs.Shapes.{shape_meant};
ghost use Rattle.ja_tokens.specs.Numbers.{AreNumbers, number_in, or_later};

use crate::shape::{TypeShape, array_shape, class_shape};
use ja_base::{Memory, Name};
use ja_ir::Program;
use std::alloc::Global;
use std::collections::HashMap;

// Notes a number for a name, unless the name has one already.
fn note(
    alloc: Global,
    numbers: &mut HashMap<Name, u32>,
    name: &Name,
    number: u32,
) -> Result<(), Memory>
    ensures { OnOk result ((other : List ℕ) → get bytes_eq numbers.new other ≡ or_later (get bytes_eq numbers.old other) (if bytes_eq name.now other then Some number else None)) }
{
    if numbers.get(name).is_some() {
        return Ok(());
    }
    let key = name.copy(alloc)?;
    numbers.insert(key, number)?;
    Ok(())
}

/// The numbers of the program classes by their names. A look-up compares no other names than those
/// that have the same hash.
#[derive(Drop)]
pub struct ClassNumbers {
    numbers: HashMap<Name, u32>,
}

impl ClassNumbers {
    /// The numbers of the classes of a program.
    pub fn new(alloc: Global, p: &Program) -> Result<ClassNumbers, Memory>
        ensures { IfOk result (λ numbers. AreNumbers p.now numbers) }
    {
        let mut numbers = HashMap::new(alloc);
        for (c, class) in p.classes().as_slice().iter().enumerate() {
            note(alloc, &mut numbers, &class.name, c as u32)?;
        }
        Ok(ClassNumbers { numbers })
    }

    /// The number of the program class of a name, if there is one.
    pub fn number(&self, name: &Name) -> Option<u32>
        ensures known { result ≡ number_in self.now name.now }
        ensures of_program { (p : Parts) → AreNumbers p self.now → result ≡ class_named p name.now }
    {
        self.numbers.get(name).copied()
    }

    /// The shape of the reference type of a name.
    pub fn shape_of(&self, name: &Name) -> TypeShape
        ensures { (p : Parts) → AreNumbers p self.now → shape_meant result ≡ tokens.shape_of p name.now }
    {
        if let [b'[', element @ ..] = name.bytes() {
            return array_shape(element);
        }
        match self.number(name) {
            Some(class) => TypeShape::Class(class),
            None => class_shape(name.bytes()),
        }
    }
}
