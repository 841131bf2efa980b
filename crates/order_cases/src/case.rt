//! One case.
use crate::slots::add_slots;
use case_text::repeated;
use ja_base::Memory;
use ja_ir::Program;
use ja_lib::default_table;
use ja_order::orders_of;
use std::alloc::Global;
use std::thread::Threads;
use tool_parts::{ClassFolder, class_files};

/// The program of a listing's classes, if it makes one.
fn program_of<R: Threads + Sync>(rt: &R, alloc: Global, listing: &[u8]) -> Option<Program> {
    let text = str::from_utf8(listing).ok()?;
    let listing = repeated(alloc, text).ok()?;
    let files = class_files(alloc, listing.as_str().as_bytes()).ok()?;
    let folder = ClassFolder::new(alloc)
        .with_files(alloc, files.as_slice())
        .ok()?;
    let table = default_table(alloc).ok()?;
    folder.lower(rt, alloc, &table).ok()
}

/// The orders of a program's methods with code, as lines.
fn orders_text(alloc: Global, program: &Program) -> Result<String, Memory> {
    let orders = orders_of(alloc, program)?;
    let mut out = String::new(alloc);
    for (method, order) in program.methods().as_slice().iter().zip(orders.as_slice()) {
        if !method.code.is_empty() {
            add_slots(&mut out, method, order)?;
        }
    }
    Ok(out)
}

/// The orders of the methods of a listing, as lines; none where it makes no program or memory runs out.
pub fn case_text<R: Threads + Sync>(rt: &R, alloc: Global, listing: &[u8]) -> Option<String> {
    let program = program_of(rt, alloc, listing)?;
    orders_text(alloc, &program).ok()
}
