ghost use Rattle.std.specs.Prelude.{◌≡◌};
ghost use Rattle.ja_ir.specs.Params.{param_count};

use ja_ir::{Method, is_static};

/// The number of parameters of a method, a receiver among them (JVM specification 4.3.3).
pub fn param_count(method: &Method) -> u64
    ensures { result ≡ param_count method.now }
{
    let types = method.types.params.as_slice().len() as u64;
    if is_static(method.flags) {
        types
    } else {
        types + 1
    }
}
