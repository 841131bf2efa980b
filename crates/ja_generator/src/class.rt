//! A made class, and its file.

ghost use Rattle.std.specs.Prelude.{◌≡◌, IfOk};
ghost use Rattle.ja_generator.specs.Made.{items_by, class_by, file_by};

use crate::body::{put_body, put_main};
use crate::drawn::{class_name, file_name};
use crate::items::{TEXT_TO_TEXT, plain_number, static_method};
use crate::law::law_writable;
use ja_base::{File, Memory, Name};
use ja_listing::{Head, Items, Listing, MakeFault};
use ja_maker::write_class;
use std::alloc::Global;

/// The items of class i, by its number x.
fn items_of(alloc: Global, x: u32, i: u32) -> Result<Items, Memory>
    ensures { IfOk result (λ items. items ≡ items_by x i) }
{
    let mut items = Items::new(alloc);
    items.push(static_method(alloc, b"f", TEXT_TO_TEXT)?)?;
    put_body(alloc, &mut items, x, i)?;
    put_main(alloc, &mut items, class_name(alloc, i)?)?;
    Ok(items)
}

/// Class i, by its number x.
fn class_by(alloc: Global, x: u32, i: u32) -> Result<Listing, Memory>
    ensures { IfOk result (λ class. class ≡ class_by x i) }
{
    let items = items_of(alloc, x, i)?;
    let head = Head {
        name: class_name(alloc, i)?,
        superclass: Name::of(alloc, b"java/lang/Object")?,
        flags: plain_number(33),
    };
    Ok(Listing::of(0, head, items))
}

/// The file of class i, by its number x.
pub(crate) fn file_by(alloc: Global, x: u32, i: u32) -> Result<File, Memory>
    ensures { IfOk result (λ file. file ≡ file_by x i) }
{
    law_writable();
    let class = class_by(alloc, x, i)?;
    let name = file_name(alloc, i)?;
    match write_class(alloc, &class) {
        Ok(bytes) => Ok(File { name, bytes }),
        Err(MakeFault::Memory) => Err(Memory),
        Err(_) => unreachable!(),
    }
}
