ghost use Rattle.std.specs.Prelude.{◌≡◌, IfOk};

use crate::{
    ClassInfo, ClassInfos, Field, Fields, Handler, Handlers, Selection, Selections, Site, Sites,
};
use ja_base::{Desc, JavaType, JavaTypes, Memory, Seq};
use std::alloc::Global;

/// The same classes.
pub(crate) fn copy_classes(alloc: Global, classes: &[ClassInfo]) -> Result<ClassInfos, Memory>
    ensures { IfOk result (λ copy. copy ≡ classes.now) }
{
    let mut copies = Seq::new(alloc);
    for class in classes {
        copies.push(copy_class(alloc, class)?)?;
    }
    Ok(copies)
}

/// The same class.
fn copy_class(alloc: Global, class: &ClassInfo) -> Result<ClassInfo, Memory>
    ensures { IfOk result (λ copy. copy ≡ class.now) }
{
    let name = class.name.copy(alloc)?;
    let file = class.file.copy(alloc)?;
    let supers = Seq::copy_of(alloc, class.supers.as_slice())?;
    let selections = copy_selections(alloc, class.selections.as_slice())?;
    let inits = Seq::copy_of(alloc, class.inits.as_slice())?;
    Ok(ClassInfo {
        name,
        file,
        flags: class.flags,
        absorbing: class.absorbing,
        supers,
        selections,
        inits,
    })
}

/// The same selections.
fn copy_selections(alloc: Global, selections: &[Selection]) -> Result<Selections, Memory>
    ensures { IfOk result (λ copy. copy ≡ selections.now) }
{
    let mut copies = Seq::new(alloc);
    for selection in selections {
        copies.push(copy_selection(alloc, selection)?)?;
    }
    Ok(copies)
}

/// The same selection.
fn copy_selection(alloc: Global, selection: &Selection) -> Result<Selection, Memory>
    ensures { IfOk result (λ copy. copy ≡ selection.now) }
{
    let name = selection.name.copy(alloc)?;
    let desc = selection.desc.copy(alloc)?;
    Ok(Selection {
        name,
        desc,
        target: selection.target,
    })
}

/// The same fields.
pub(crate) fn copy_fields(alloc: Global, fields: &[Field]) -> Result<Fields, Memory>
    ensures { IfOk result (λ copy. copy ≡ fields.now) }
{
    let mut copies = Seq::new(alloc);
    for field in fields {
        copies.push(copy_field(alloc, field)?)?;
    }
    Ok(copies)
}

/// The same field.
fn copy_field(alloc: Global, field: &Field) -> Result<Field, Memory>
    ensures { IfOk result (λ copy. copy ≡ field.now) }
{
    let name = field.name.copy(alloc)?;
    let desc = field.desc.copy(alloc)?;
    Ok(Field {
        class: field.class,
        name,
        desc,
        flags: field.flags,
        text: field.text,
    })
}

/// The same sites.
pub(crate) fn copy_sites(alloc: Global, sites: &[Site]) -> Result<Sites, Memory>
    ensures { IfOk result (λ copy. copy ≡ sites.now) }
{
    let mut copies = Seq::new(alloc);
    for site in sites {
        copies.push(copy_site(alloc, site)?)?;
    }
    Ok(copies)
}

/// The same site.
fn copy_site(alloc: Global, site: &Site) -> Result<Site, Memory>
    ensures { IfOk result (λ copy. copy ≡ site.now) }
{
    let positions = Seq::copy_of(alloc, site.positions.as_slice())?;
    let target = site.target.copy(alloc)?;
    Ok(Site {
        method: site.method,
        index: site.index,
        positions,
        target,
        category: site.category,
    })
}

/// The same handlers.
pub(crate) fn copy_handlers(alloc: Global, handlers: &[Handler]) -> Result<Handlers, Memory>
    ensures { IfOk result (λ copy. copy ≡ handlers.now) }
{
    let mut copies = Seq::new(alloc);
    for handler in handlers {
        copies.push(Handler {
            start: handler.start,
            end: handler.end,
            target: handler.target,
            catch: handler.catch,
        })?;
    }
    Ok(copies)
}

/// The same types of a method.
pub(crate) fn copy_desc(alloc: Global, desc: &Desc) -> Result<Desc, Memory>
    ensures { IfOk result (λ copy. copy ≡ desc.now) }
{
    let params = copy_types(alloc, desc.params.as_slice())?;
    let result = copy_result(alloc, &desc.result)?;
    Ok(Desc {
        params,
        result,
        words: desc.words,
    })
}

/// The same types.
pub(crate) fn copy_types(alloc: Global, types: &[JavaType]) -> Result<JavaTypes, Memory>
    ensures { IfOk result (λ copy. copy ≡ types.now) }
{
    let mut copies = Seq::new(alloc);
    for of in types {
        copies.push(copy_type(alloc, of)?)?;
    }
    Ok(copies)
}

/// The same type.
fn copy_type(alloc: Global, of: &JavaType) -> Result<JavaType, Memory>
    ensures { IfOk result (λ copy. copy ≡ of.now) }
{
    let name = of.name.copy(alloc)?;
    Ok(JavaType {
        kind: of.kind,
        name,
    })
}

/// The same type of a result, if there is one.
pub(crate) fn copy_result(alloc: Global, of: &Option<JavaType>) -> Result<Option<JavaType>, Memory>
    ensures { IfOk result (λ copy. copy ≡ of.now) }
{
    match of {
        None => Ok(None),
        Some(of) => {
            let copy = copy_type(alloc, of)?;
            Ok(Some(copy))
        }
    }
}
