//! What a small heap reaches.
ghost use Rattle.std.specs.Prelude.{◌≡◌, [], ◌∷◌, IfOk, length};
ghost use Rattle.ja_machine.specs.Reach.{IsClosed};

use ja_base::{Memory, Numbers, Seq};
use ja_ir::Token;
use ja_machine::{Heap, Object, Value, reaches, tainted};
use std::alloc::Global;

/// An object without fields.
fn object(alloc: Global, token: u32, mark: u8, bag: Numbers) -> Object
    ensures { result ≡ record { token = record { 0 = token }; fields = []; mark = mark; bag = bag } }
{
    Object {
        token: Token(token),
        fields: Seq::new(alloc),
        mark,
        bag,
    }
}

/// The numbers of a bag with one object.
fn bag_of_one(alloc: Global) -> Result<Numbers, Memory>
    ensures { IfOk result (λ bag. bag ≡ 1 ∷ []) }
{
    let mut bag = Seq::new(alloc);
    bag.push(1)?;
    Ok(bag)
}

/// An array of references whose one element is a text with a mark of category 0.
fn array_of_marked_text(alloc: Global) -> Result<Heap, Memory>
    ensures closed { IfOk result IsClosed }
    ensures size { IfOk result (λ heap. length heap ≡ 2) }
{
    let bag = bag_of_one(alloc)?;
    let mut heap = Seq::new(alloc);
    heap.push(object(alloc, 2, 0, bag))?;
    heap.push(object(alloc, 0, 1, Seq::new(alloc)))?;
    Ok(heap)
}

/// Adds what is reached in the heap, and what is tainted.
pub fn add_heap(out: &mut String, alloc: Global) -> Result<(), Memory> {
    let heap = array_of_marked_text(alloc)?;
    add_reached(out, alloc, &heap)
}

/// Adds what is reached in a heap of two objects, and what is tainted.
fn add_reached(out: &mut String, alloc: Global, heap: &Heap) -> Result<(), Memory>
    requires closed { IsClosed heap.now }
    requires size { length heap.now ≡ 2 }
{
    let down = reaches(alloc, heap, 0, 1)?;
    let up = reaches(alloc, heap, 1, 0)?;
    let same = reaches(alloc, heap, 1, 1)?;
    writeln!(out, "reaches {down} {up} {same}")?;
    add_taints(out, alloc, heap)?;
    add_categories(out, alloc, heap)
}

/// Adds what is tainted in a heap of two objects.
fn add_taints(out: &mut String, alloc: Global, heap: &Heap) -> Result<(), Memory>
    requires closed { IsClosed heap.now }
    requires size { length heap.now ≡ 2 }
{
    let array = tainted(alloc, heap, &Value::Ref(0), 0)?;
    let null = tainted(alloc, heap, &Value::Null, 0)?;
    let number = tainted(alloc, heap, &Value::Prim(1), 0)?;
    Ok(writeln!(out, "tainted {array} {null} {number}")?)
}

/// Adds that a mark is of its category alone.
fn add_categories(out: &mut String, alloc: Global, heap: &Heap) -> Result<(), Memory>
    requires closed { IsClosed heap.now }
    requires size { length heap.now ≡ 2 }
{
    let array = tainted(alloc, heap, &Value::Ref(0), 1)?;
    let first = tainted(alloc, heap, &Value::Prim(6), 0)?;
    let third = tainted(alloc, heap, &Value::Prim(6), 2)?;
    let last = tainted(alloc, heap, &Value::Prim(128), 7)?;
    Ok(writeln!(out, "of a category {array} {first} {third} {last}")?)
}
