ghost use Rattle.std.specs.Prelude.{◌≡◌, IfOk};

use ja_base::{Memory, Name, Seq, copy_names};
use ja_ir::{ClassHead, HeadField, HeadFields, HeadMethod, HeadMethods};
use std::alloc::Global;

/// The same class heads.
pub fn copy_heads(alloc: Global, heads: &[ClassHead]) -> Result<Seq<ClassHead>, Memory>
    ensures { IfOk result (λ copy. copy ≡ heads.now) }
{
    let mut copies = Seq::new(alloc);
    for head in heads {
        copies.push(copy_head(alloc, head)?)?;
    }
    Ok(copies)
}

/// The same class head.
pub fn copy_head(alloc: Global, head: &ClassHead) -> Result<ClassHead, Memory>
    ensures { IfOk result (λ copy. copy ≡ head.now) }
{
    let name = head.name.copy(alloc)?;
    let superclass = copy_option(alloc, &head.superclass)?;
    let interfaces = copy_names(alloc, head.interfaces.as_slice())?;
    let fields = copy_fields(alloc, head.fields.as_slice())?;
    let methods = copy_methods(alloc, head.methods.as_slice())?;
    Ok(ClassHead {
        name,
        superclass,
        interfaces,
        flags: head.flags,
        fields,
        methods,
    })
}

fn copy_option(alloc: Global, name: &Option<Name>) -> Result<Option<Name>, Memory>
    ensures { IfOk result (λ copy. copy ≡ name.now) }
{
    match name {
        None => Ok(None),
        Some(name) => {
            let copy = name.copy(alloc)?;
            Ok(Some(copy))
        }
    }
}

fn copy_fields(alloc: Global, fields: &[HeadField]) -> Result<HeadFields, Memory>
    ensures { IfOk result (λ copy. copy ≡ fields.now) }
{
    let mut copies = Seq::new(alloc);
    for field in fields {
        copies.push(copy_field(alloc, field)?)?;
    }
    Ok(copies)
}

fn copy_field(alloc: Global, field: &HeadField) -> Result<HeadField, Memory>
    ensures { IfOk result (λ copy. copy ≡ field.now) }
{
    let name = field.name.copy(alloc)?;
    let desc = field.desc.copy(alloc)?;
    Ok(HeadField {
        name,
        desc,
        flags: field.flags,
        text: field.text,
    })
}

fn copy_methods(alloc: Global, methods: &[HeadMethod]) -> Result<HeadMethods, Memory>
    ensures { IfOk result (λ copy. copy ≡ methods.now) }
{
    let mut copies = Seq::new(alloc);
    for method in methods {
        copies.push(copy_method(alloc, method)?)?;
    }
    Ok(copies)
}

fn copy_method(alloc: Global, method: &HeadMethod) -> Result<HeadMethod, Memory>
    ensures { IfOk result (λ copy. copy ≡ method.now) }
{
    let name = method.name.copy(alloc)?;
    let desc = method.desc.copy(alloc)?;
    Ok(HeadMethod {
        name,
        desc,
        flags: method.flags,
    })
}
