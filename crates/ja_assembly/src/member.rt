//! References to members in a constant pool (JVM specification 4.4.2).

ghost use Rattle.std.specs.Prelude.{◌≡◌, codes, IfOk};
ghost use Rattle.ja_assembly.specs.Wanted.{method_tag};

use ja_base::tag::{INTERFACE_METHOD, METHOD, Tag};
use ja_base::{Memory, Name};
use ja_code::Form;
use ja_listing::MemberName;
use std::alloc::Global;

/// The tag of the entries that name the methods of an opcode.
pub fn method_tag(form: Option<Form>) -> Tag
    ensures { result ≡ method_tag form }
{
    match form {
        Some(Form::Interface) => INTERFACE_METHOD,
        _ => METHOD,
    }
}

/// The constructor of a class without parameters.
pub fn constructor_of(alloc: Global, class: &Name) -> Result<MemberName, Memory>
    ensures { IfOk result (λ member. member ≡ record { class = class.now; name = codes "<init>"; desc = codes "()V" }) }
{
    Ok(MemberName {
        class: class.copy(alloc)?,
        name: Name::of(alloc, b"<init>")?,
        desc: Name::of(alloc, b"()V")?,
    })
}
