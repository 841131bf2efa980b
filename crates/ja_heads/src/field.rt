ghost use Rattle.std.specs.Prelude.{◌≡◌, ◌≤◌, ◌^◌, ◌++◌, length, map, IfOk, OnOk};
ghost use Rattle.ja_heads.specs.Fields.{AreFields, field_of};
ghost use Rattle.ja_base.specs.Limit.{max_numbered};

use ja_base::{ClassId, Memory, Seq};
use ja_hier::Hier;
use ja_ir::{Field, Fields, HeadField};
use std::alloc::Global;

/// The fields of a program's classes, in the order of the classes and, in one class, as declared.
pub fn fields(alloc: Global, hier: &Hier) -> Result<Fields, Memory>
    requires { length hier.now ≤ max_numbered }
    ensures { IfOk result (AreFields hier.now) }
{
    let mut fields = Seq::new(alloc);
    let heads = hier.heads().as_slice();
    for (c, head) in heads.iter().enumerate() {
        add_fields(
            alloc,
            &mut fields,
            ClassId(c as u32),
            head.fields.as_slice(),
        )?;
    }
    Ok(fields)
}

/// Adds the fields that a class declares.
fn add_fields(
    alloc: Global,
    fields: &mut Fields,
    class: ClassId,
    declared: &[HeadField],
) -> Result<(), Memory>
    ensures { OnOk result (fields.new ≡ fields.old ++ map (field_of class.0) declared.now) }
{
    for field in declared {
        fields.push(field_of(alloc, class, field)?)?;
    }
    Ok(())
}

/// A field that a class declares.
fn field_of(alloc: Global, class: ClassId, field: &HeadField) -> Result<Field, Memory>
    ensures { IfOk result (λ copy. copy ≡ field_of class.0 field.now) }
{
    let name = field.name.copy(alloc)?;
    let desc = field.desc.copy(alloc)?;
    Ok(Field {
        class,
        name,
        desc,
        flags: field.flags,
        text: field.text,
    })
}
