ghost use Rattle.std.specs.Prelude.{◌≡◌, ◌⊎◌, ◌<◌, ◌≤◌, ◌^◌, slice_get, length, Some, IfOk, IfErr, MatchResult};
ghost use Rattle.ja_base.specs.Descriptor.{AreTypes};
ghost use Rattle.ja_bytes.specs.DescriptorText.{IsMethodText};
ghost use Rattle.ja_class.specs.declared.class.ClassMethod.{ClassMethod};
ghost use Rattle.ja_ir.specs.declared.method.Method.{Method};
ghost use Rattle.ja_methods.specs.declared.fault.MethodFault.{MethodFault};
ghost use Rattle.ja_methods.specs.declared.fault.MethodFault.TheVariants as faults;
ghost use Rattle.ja_methods.specs.Method.{is_native, IsCodeOf, HasInstrs, HasContent, IsMethodOf};
ghost use Rattle.ja_methods.specs.Refusal.{IsCodeRefused, IsRefused};
ghost use Rattle.ja_methods.specs.Sites.{AreSitesOf};
ghost use Rattle.ja_base.specs.Limit.{max_numbered};

use crate::fault::{MethodFault, kind_refusal};
use crate::handler::handlers_of;
use crate::instr::{Scene, instrs_of};
use crate::law::law_one_method;
use crate::site::{MethodSites, sites_of};
use ja_base::access_flags::NATIVE;
use ja_base::{ClassId, Desc, Memory, Name, Seq};
use ja_class::Class;
use ja_code::Code;
use ja_hier::Hier;
use ja_ir::{Handlers, HeadMethod, Instrs, Method};
use ja_kinds::kinds;
use ja_lib::Table;
use ja_operations::{law_each_is_profiled, types_of};
use std::alloc::Global;

/// A method with its sink calls.
#[derive(Drop)]
pub struct Lowered {
    pub method: Method,
    pub sites: MethodSites,
}

/// The instructions of a method and its handlers.
#[derive(Drop)]
struct Content {
    code: Instrs,
    handlers: Handlers,
}

/// Whether the code of a method is not in its class file.
fn is_native(head: &HeadMethod) -> bool
    ensures { result ≡ is_native head.now.flags }
{
    head.flags & u32::from(NATIVE) != 0
}

/// The instructions and handlers of a method with this code.
fn coded(
    alloc: Global,
    hier: &Hier,
    table: &Table,
    class: &Class,
    c: ClassId,
    m: u32,
    code: &Code,
) -> Result<Content, MethodFault>
    requires class { c.0 < length hier.now }
    requires classes { length hier.now ≤ max_numbered }
    requires code { IsCodeOf class.now m code.now }
    ensures ok { IfOk result (λ x. HasInstrs hier.now table.now class.now c.0 m code.now x.code x.handlers) }
    ensures refused { IfErr result (λ f. (f ≡ faults.Memory) ⊎ IsCodeRefused hier.now class.now c.0 m f) }
{
    law_each_is_profiled();
    let kinds = match kinds(alloc, class, m) {
        Ok(kinds) => kinds,
        Err(fault) => return Err(kind_refusal(fault)),
    };
    let scene = Scene {
        hier,
        table,
        class: c,
        pool: &class.pool,
    };
    let instrs = code.instrs.as_slice();
    let list = instrs_of(alloc, &scene, instrs, &kinds)?;
    let handlers = handlers_of(alloc, hier, &class.pool, instrs, code.handlers.as_slice())?;
    Ok(Content {
        code: list,
        handlers,
    })
}

/// The instructions and handlers of a method; none where it has no code.
fn content_of(
    alloc: Global,
    hier: &Hier,
    table: &Table,
    class: &Class,
    c: ClassId,
    m: u32,
) -> Result<Content, MethodFault>
    requires class { c.0 < length hier.now }
    requires classes { length hier.now ≤ max_numbered }
    requires method { m < length class.now.methods }
    ensures ok { (body : ClassMethod) → slice_get class.now.methods m ≡ Some body →
        IfOk result (λ x. HasContent hier.now table.now class.now c.0 m body.code x.code x.handlers) }
    ensures refused { IfErr result (λ f. (f ≡ faults.Memory) ⊎ IsCodeRefused hier.now class.now c.0 m f) }
{
    let body = class.methods.at(u64::from(m));
    match &body.code {
        None => Ok(Content {
            code: Seq::new(alloc),
            handlers: Seq::new(alloc),
        }),
        Some(code) => coded(alloc, hier, table, class, c, m, code),
    }
}

/// The types that a method's descriptor spells.
fn desc_types(alloc: Global, desc: &Name) -> Result<Desc, Memory>
    requires { IsMethodText desc.now }
    ensures { IfOk result (AreTypes desc.now) }
{
    let types = types_of(alloc, desc.bytes())?;
    Ok(types)
}

/// The method or its first refusal, unless memory runs out.
fn method_or_refusal(
    alloc: Global,
    hier: &Hier,
    table: &Table,
    class: &Class,
    c: ClassId,
    m: u32,
) -> Result<Lowered, MethodFault>
    requires class { c.0 < length hier.now }
    requires classes { length hier.now ≤ max_numbered }
    requires method { m < length class.now.head.methods }
    ensures ok { IfOk result (λ l. IsMethodOf hier.now table.now class.now c.0 m l.method) }
    ensures sites { IfOk result (λ l. AreSitesOf hier.now l.method.code l.sites) }
    ensures refused { IfErr result (λ f. (f ≡ faults.Memory) ⊎ IsRefused hier.now class.now c.0 m f) }
{
    let head = class.head.methods.at(u64::from(m));
    if is_native(head) {
        return Err(MethodFault::Native);
    }
    let content = content_of(alloc, hier, table, class, c, m)?;
    let sites = sites_of(alloc, hier, content.code.as_slice())?;
    let name = head.name.copy(alloc)?;
    let desc = head.desc.copy(alloc)?;
    let types = desc_types(alloc, &head.desc)?;
    let body = class.methods.at(u64::from(m));
    Ok(Lowered {
        method: Method {
            class: c,
            name,
            desc,
            types,
            flags: head.flags,
            locals: body.max_locals,
            stack: body.max_stack,
            code: content.code,
            handlers: content.handlers,
        },
        sites,
    })
}

/// Method `m` of class `c`, whose class file says this, with its sink calls.
///
/// # Errors
///
/// The first refusal: the method is native; a fault of its kinds, the size of its frame first; then that of the
/// first instruction that is refused, whether it is reached or not. `Memory` for want of memory.
pub fn lower_method(
    alloc: Global,
    hier: &Hier,
    table: &Table,
    class: &Class,
    c: ClassId,
    m: u32,
) -> Result<Lowered, MethodFault>
    requires class { c.0 < length hier.now }
    requires classes { length hier.now ≤ max_numbered }
    requires method { m < length class.now.head.methods }
    // What is answered is the method.
    ensures ok { IfOk result (λ l. IsMethodOf hier.now table.now class.now c.0 m l.method) }
    // The method is answered where there is one, unless memory runs out.
    ensures only { (method : Method) → IsMethodOf hier.now table.now class.now c.0 m method →
        MatchResult result (λ l. l.method ≡ method) (λ f. f ≡ faults.Memory) }
    // Its sink calls are all of them.
    ensures sites { IfOk result (λ l. AreSitesOf hier.now l.method.code l.sites) }
    // An error is the first refusal, or want of memory.
    ensures refused { IfErr result (λ f. (f ≡ faults.Memory) ⊎ IsRefused hier.now class.now c.0 m f) }
    // The first refusal is the error, unless memory runs out.
    ensures first { (refusal : MethodFault) → IsRefused hier.now class.now c.0 m refusal →
        MatchResult result (λ _. ⊥) (λ f. (f ≡ faults.Memory) ⊎ (f ≡ refusal)) }
{
    law_one_method();
    method_or_refusal(alloc, hier, table, class, c, m)
}
