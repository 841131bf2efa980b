ghost use Rattle.std.specs.Prelude.{◌≡◌, ◌*◌, ◌≤◌, length, slice_get};
ghost use Rattle.ja_ir.specs.Lookup.{is_member};
ghost use Rattle.ja_ir.specs.Params as params;
ghost use Rattle.ja_explicit.specs.InnerStarts as starts;

use ja_base::{JavaType, Kind};
use ja_ir::{Method, is_static};

// How many words the first so many of these types take.
fn words_before(types: &[JavaType], count: u64) -> u64
    ensures words { result ≡ params.words_before types.now count }
    ensures few { result ≤ 2 * length types.now }
{
    if count == 0 {
        return 0;
    }
    match types {
        [] => 0,
        [type_, rest @ ..] => type_.kind.words() as u64 + words_before(rest, count - 1),
    }
}

/// The first local of a parameter of a method (JVM specification 2.6.1).
pub fn param_local(method: &Method, k: u64) -> u64
    ensures { result ≡ params.param_local method.now k }
{
    let types = method.types.params.as_slice();
    if is_static(method.flags) {
        return words_before(types, k);
    }
    if k == 0 {
        return 0;
    }
    1 + words_before(types, k - 1)
}

// The kind of a type, if there is one.
fn kind_of(types: &[JavaType], k: u64) -> Kind
    ensures { result ≡ params.kind_of (slice_get types.now k) }
{
    match types.get(k as usize) {
        Some(type_) => type_.kind,
        None => Kind::T,
    }
}

// Whether a kind is that of references.
fn is_reference(kind: Kind) -> bool
    ensures { result ≡ starts.is_reference kind }
{
    match kind {
        Kind::R => true,
        _ => false,
    }
}

/// Whether a parameter of a method is a reference, as a receiver is.
pub fn takes_reference(method: &Method, k: u64) -> bool
    ensures { result ≡ starts.is_reference (params.kind_among (is_member method.now.flags) (params.param_types method.now) k) }
{
    let types = method.types.params.as_slice();
    if is_static(method.flags) {
        return is_reference(kind_of(types, k));
    }
    if k == 0 {
        return true;
    }
    is_reference(kind_of(types, k - 1))
}
