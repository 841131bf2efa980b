//! The whole class file of a listed class (JVM specification 4.1).

ghost use Rattle.std.specs.Prelude.{◌≡◌, ◌++◌, ℕ, List, length, map, IfOk, OnOk, IfErr};
ghost use Rattle.std.specs.List.{flat_map};
ghost use Rattle.ja_pool.specs.Entry.{spelling as entry_bytes};
ghost use Rattle.ja_pool.specs.Pool.{table_of};
ghost use Rattle.ja_class.specs.ClassFile.{spelling};
ghost use Rattle.ja_listing.specs.Listed.{Listed};
ghost use Rattle.ja_assembly.specs.Members.{expanded, fields, methods};
ghost use Rattle.ja_assembly.specs.Unwritable.{IsWritable, IsFirstUnwritable, IsCause, Passes, Refuses};
ghost use Rattle.ja_writable.specs.InnerJudging.{IsAllowed};
ghost use Rattle.ja_assembly.specs.Assembled.{u2, u4, class_index, entries_of, field_info, method_info, file_in, file_of};
ghost use Rattle.ja_assembly.specs.Written.{IsWritten};
ghost use Rattle.ja_maker.specs.InnerWriting.{pool_in, IsFew, members_bytes};

use crate::class_bytes::{count_fields, put_fields};
use crate::constructor_bytes::{count_methods, put_methods};
use crate::pool_bytes::class_index;
use crate::pool_lists::{put_keys, put_strings};
use crate::put::{put_u2, put_u4};
use ja_assembly::law_written;
use ja_base::{Bytes, Memory, Name};
use ja_listing::{Head, Item, Listing, MakeFault};
use ja_writable::{Wants, judge};
use std::alloc::Global;

/// The number with which each class file begins.
const MAGIC: u64 = 0xcafebabe;

/// The major version of the class files that are written; the minor one is 0.
const VERSION: u64 = 52;

/// The magic number and the version.
fn put_version(out: &mut Bytes) -> Result<(), Memory>
    ensures { OnOk result (out.new ≡ out.old ++ (u4 0xcafebabe ++ (u2 0 ++ u2 52))) }
{
    put_u4(out, MAGIC)?;
    put_u2(out, 0)?;
    put_u2(out, VERSION)
}

/// The count of a constant pool, which is one more than its entries.
fn count_entries(pool: &Wants) -> u64
    requires { IsFew pool.now }
    ensures { result ≡ length (table_of 8 (entries_of (pool_in pool.now))) }
{
    pool.strings.len() as u64 + pool.keys.len() as u64 + 1
}

/// A constant pool with its count.
fn put_pool(alloc: Global, out: &mut Bytes, pool: &Wants) -> Result<(), Memory>
    requires { IsFew pool.now }
    ensures { OnOk result (out.new ≡ out.old ++ (u2 (length (table_of 8 (entries_of (pool_in pool.now)))) ++ flat_map entry_bytes (entries_of (pool_in pool.now)))) }
{
    put_u2(out, count_entries(pool))?;
    put_strings(alloc, out, pool)?;
    put_keys(alloc, out, pool)?;
    Ok(())
}

/// What a class file says of itself: flags, name and superclass, and that it has no interface.
fn put_head(alloc: Global, out: &mut Bytes, pool: &Wants, head: &Head) -> Result<(), Memory>
    requires { IsFew pool.now }
    ensures { OnOk result (out.new ≡ out.old ++ (u2 head.now.flags.size ++ (u2 (class_index (pool_in pool.now) head.now.name) ++ (u2 (class_index (pool_in pool.now) head.now.superclass) ++ u2 0)))) }
{
    let name = class_index(alloc, pool, &head.name)?;
    let superclass = class_index(alloc, pool, &head.superclass)?;
    put_u2(out, u64::from(head.flags.size))?;
    put_u2(out, name)?;
    put_u2(out, superclass)?;
    put_u2(out, 0)
}

/// The fields among items, with their count.
fn put_counted_fields(
    alloc: Global,
    out: &mut Bytes,
    pool: &Wants,
    items: &[Item],
) -> Result<(), Memory>
    requires { IsFew pool.now }
    ensures { OnOk result ((superclass : List ℕ) → out.new ≡ out.old ++ members_bytes (map (field_info (pool_in pool.now)) (fields (flat_map (expanded superclass) items.now)))) }
{
    let count = count_fields(items)?;
    put_u2(out, count)?;
    put_fields(alloc, out, pool, items)?;
    Ok(())
}

/// The methods among the items of a class with this superclass, with their count.
fn put_counted_methods(
    alloc: Global,
    out: &mut Bytes,
    pool: &Wants,
    superclass: &Name,
    items: &[Item],
) -> Result<(), Memory>
    requires { IsFew pool.now }
    ensures { OnOk result (out.new ≡ out.old ++ members_bytes (map (method_info (pool_in pool.now)) (methods (flat_map (expanded superclass.now) items.now)))) }
{
    let count = count_methods(items)?;
    put_u2(out, count)?;
    put_methods(alloc, out, pool, superclass, items)?;
    Ok(())
}

/// The class file of a listed class, where this is its pool.
fn put_class(alloc: Global, out: &mut Bytes, pool: &Wants, listing: &Listing) -> Result<(), Memory>
    requires { IsFew pool.now }
    ensures { OnOk result (out.new ≡ out.old ++ spelling (file_in (pool_in pool.now) listing.now)) }
{
    let head = listing.head();
    let items = listing.items().as_slice();
    put_version(out)?;
    put_pool(alloc, out, pool)?;
    put_head(alloc, out, pool, head)?;
    put_counted_fields(alloc, out, pool, items)?;
    put_counted_methods(alloc, out, pool, &head.superclass, items)?;
    put_u2(out, 0)?;
    Ok(())
}

/// The bytes of the class file, where each item can be written.
fn bytes_of(alloc: Global, pool: &Wants, listing: &Listing) -> Result<Bytes, MakeFault>
    requires allowed { IsAllowed listing.now pool.now }
    ensures ok { IfOk result (λ bytes. bytes ≡ spelling (file_of listing.now)) }
    ensures fault { IfErr result (λ fault. fault ≡ MakeFault.Memory) }
{
    let mut out = Bytes::new(alloc);
    match put_class(alloc, &mut out, pool, listing) {
        Ok(()) => Ok(out),
        Err(_) => Err(MakeFault::Memory),
    }
}

/// Writes the class file of a listed class: version 52.0, with each pool entry once and the strings of `ldc`
/// first, no interfaces, and no attributes but the code of its methods (JVM specification 4.1 to 4.7).
///
/// An error is the number of the first item that cannot be written, as `check_class` says, or want of memory.
pub fn write_class(alloc: Global, listing: &Listing) -> Result<Bytes, MakeFault>
    // The bytes spell the class file of the listed class.
    ensures written { IfOk result (λ bytes. bytes ≡ spelling (file_of listing.now)) }
    // They are a class file of the profile, which says what is listed.
    ensures class_file { IfOk result (IsWritten listing.now) }
    // Where there is no error, each item can be written.
    ensures ok { OnOk result (IsWritable listing.now) }
    // Where each item can be written, there is no error, unless memory runs out.
    ensures only { IsWritable listing.now → Passes result }
    // An error is the first item that cannot be written, or want of memory.
    ensures fault { IfErr result (IsCause listing.now) }
    // The first item that cannot be written is the error, unless memory runs out.
    ensures first { (n : ℕ) → IsFirstUnwritable listing.now n → Refuses n result }
{
    law_written();
    match judge(alloc, listing) {
        Ok(pool) => bytes_of(alloc, &pool, listing),
        Err(fault) => Err(fault),
    }
}
