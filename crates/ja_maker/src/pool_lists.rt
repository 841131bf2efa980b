//! The lists of entries of a constant pool (JVM specification 4.4).

ghost use Rattle.std.specs.Prelude.{◌≡◌, ◌++◌, map, OnOk};
ghost use Rattle.std.specs.List.{flat_map};
ghost use Rattle.ja_pool.specs.Entry.{spelling};
ghost use Rattle.ja_assembly.specs.Assembled.{string_entry, key_entry};
ghost use Rattle.ja_maker.specs.InnerWriting.{pool_in, IsFew};

use crate::pool_bytes::{put_key, put_string};
use ja_base::{Bytes, Memory};
use ja_writable::Wants;
use std::alloc::Global;

/// The strings of a pool.
pub(crate) fn put_strings(alloc: Global, out: &mut Bytes, pool: &Wants) -> Result<(), Memory>
    requires { IsFew pool.now }
    ensures { OnOk result (out.new ≡ out.old ++ flat_map spelling (map (string_entry (pool_in pool.now)) pool.now.strings.keys)) }
{
    let mut place = 0usize;
    while let Some(text) = pool.strings.get_index(place) {
        put_string(alloc, out, pool, text)?;
        place += 1;
    }
    Ok(())
}

/// Its other entries.
pub(crate) fn put_keys(alloc: Global, out: &mut Bytes, pool: &Wants) -> Result<(), Memory>
    requires { IsFew pool.now }
    ensures { OnOk result (out.new ≡ out.old ++ flat_map spelling (map (key_entry (pool_in pool.now)) pool.now.keys.keys)) }
{
    let mut place = 0usize;
    while let Some(key) = pool.keys.get_index(place) {
        put_key(alloc, out, pool, key)?;
        place += 1;
    }
    Ok(())
}
