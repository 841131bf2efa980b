ghost use Rattle.std.specs.Prelude.{◌≡◌, ◌⊎◌, ◌≤◌, ◌^◌, All, IfOk, IfErr, MatchResult, OnOk, length, sum_by};
ghost use Rattle.ja_base.specs.declared.refusal.Refusal.{Refusal};
ghost use Rattle.ja_ir.specs.declared.program.Parts.{Parts};
ghost use Rattle.ja_class.specs.ClassFile.{IsSpelled};
ghost use Rattle.ja_heads.specs.Classes.{AreClassInfos};
ghost use Rattle.ja_heads.specs.Entries.{AreEntries};
ghost use Rattle.ja_heads.specs.Fields.{AreFields};
ghost use Rattle.ja_hier.specs.declared.starts.Member.TheVariants.{Method as OfMethods};
ghost use Rattle.ja_hier.specs.Faults.{IsHierarchy};
ghost use Rattle.ja_hier.specs.Members.{IsNumbered, count_of};
ghost use Rattle.ja_lib.specs.Content.{IsCategorized};
ghost use Rattle.ja_lower.specs.Program.{AreFew, IsLowerFault, IsProgramOf, IsRefusedWhole, heads_of};
ghost use Rattle.ja_lower.specs.declared.fault.LowerFault.TheVariants as faults;
ghost use Rattle.ja_base.specs.Limit.{max_numbered};

use crate::LowerFault;
use crate::law::law_one_program;
use crate::methods::code_of;
use crate::refusal::hier_fault;
use ja_base::{Memory, Names, Seq, copy_names};
use ja_class::Class;
use ja_heads::{class_infos, entries, fields};
use ja_hier::{Hier, hierarchy};
use ja_ir::{ClassHead, ClassInfos, Entries, Fields, Program};
use ja_lib::Table;
use ja_methods::law_whole_method;
use ja_supertypes::copy_head;
use std::alloc::Global;
use std::thread::Threads;

/// How few methods are worth a thread of their own.
const LEAST_METHODS: usize = 32;

/// The program that classes and a table make. The name of the file of each class stands at its place.
///
/// The methods are lowered in threads, two for each processor at most. The program or the refusal is the
/// same whatever their number.
///
/// # Errors
///
/// The first refusal: of the hierarchy of the classes, and else of the first method that is refused, in the
/// order of the classes and, in one class, as declared. `Memory` for want of memory.
pub fn lower<R: Threads + Sync>(
    rt: &R,
    alloc: Global,
    names: &Names,
    classes: &[Class],
    t: &Table,
) -> Result<Program, LowerFault>
    requires files { length names.now ≡ length classes.now }
    requires few { AreFew classes.now }
    // What is answered is the program.
    ensures program { IfOk result (IsProgramOf names.now classes.now t.now) }
    // The program is answered where there is one, unless memory runs out.
    ensures only { (p : Parts) → IsProgramOf names.now classes.now t.now p →
        MatchResult result (λ program. program ≡ p) (λ f. f ≡ faults.Memory) }
    // An error is the first refusal, or want of memory.
    ensures refused { IfErr result (IsLowerFault names.now classes.now) }
    // The first refusal is the error, unless memory runs out.
    ensures first { (refusal : Refusal) → IsRefusedWhole names.now classes.now refusal →
        MatchResult result (λ _. ⊥) (λ f. (f ≡ faults.Memory) ⊎ (f ≡ faults.Refused refusal)) }
{
    lower_in_pieces(rt, alloc, names, classes, t, LEAST_METHODS)
}

/// The program that classes and a table make, as `lower` answers it, where a thread of its own lowers `least`
/// methods or more: where `least` is the number of all methods, the calling thread lowers them.
///
/// # Errors
///
/// Those of `lower`.
pub fn lower_in_pieces<R: Threads + Sync>(
    rt: &R,
    alloc: Global,
    names: &Names,
    classes: &[Class],
    t: &Table,
    least: usize,
) -> Result<Program, LowerFault>
    requires files { length names.now ≡ length classes.now }
    requires few { AreFew classes.now }
    // What is answered is the program.
    ensures program { IfOk result (IsProgramOf names.now classes.now t.now) }
    // The program is answered where there is one, unless memory runs out.
    ensures only { (p : Parts) → IsProgramOf names.now classes.now t.now p →
        MatchResult result (λ program. program ≡ p) (λ f. f ≡ faults.Memory) }
    // An error is the first refusal, or want of memory.
    ensures refused { IfErr result (IsLowerFault names.now classes.now) }
    // The first refusal is the error, unless memory runs out.
    ensures first { (refusal : Refusal) → IsRefusedWhole names.now classes.now refusal →
        MatchResult result (λ _. ⊥) (λ f. (f ≡ faults.Memory) ⊎ (f ≡ faults.Refused refusal)) }
{
    law_one_program();
    program_or_refusal(rt, alloc, names, classes, t, least)
}

/// The program, or the first refusal.
fn program_or_refusal<R: Threads + Sync>(
    rt: &R,
    alloc: Global,
    names: &Names,
    classes: &[Class],
    t: &Table,
    least: usize,
) -> Result<Program, LowerFault>
    requires files { length names.now ≡ length classes.now }
    requires few { AreFew classes.now }
    ensures program { IfOk result (IsProgramOf names.now classes.now t.now) }
    ensures refused { IfErr result (IsLowerFault names.now classes.now) }
{
    law_whole_method();
    let hier = hierarchy_of(alloc, names, classes)?;
    let code = code_of(rt, alloc, names, &hier, classes, t, least)?;
    let declared = declared_of(alloc, names, &hier, t)?;
    Ok(Program::new(
        declared.infos,
        code.methods,
        declared.fields,
        declared.entries,
        code.sites,
        declared.categories,
    ))
}

/// What a program says apart from code.
#[derive(Drop)]
struct Declared {
    infos: ClassInfos,
    fields: Fields,
    entries: Entries,
    categories: Names,
}

/// What the program of a hierarchy and a table says apart from code.
fn declared_of(alloc: Global, names: &Names, hier: &Hier, t: &Table) -> Result<Declared, Memory>
    requires files { length names.now ≡ length hier.now }
    requires classes { length hier.now ≤ max_numbered }
    requires methods { sum_by (count_of OfMethods) hier.now ≤ max_numbered }
    ensures infos { IfOk result (λ declared. AreClassInfos hier.now names.now declared.infos) }
    ensures fields { IfOk result (λ declared. AreFields hier.now declared.fields) }
    ensures entries { IfOk result (λ declared. AreEntries hier.now t.now declared.entries) }
    ensures categories { IfOk result (λ declared. declared.categories ≡ t.now.categories) }
    ensures about { OnOk result (IsCategorized t.now) }
{
    let infos = class_infos(alloc, hier, names)?;
    let fields = fields(alloc, hier)?;
    let entries = entries(alloc, hier, t)?;
    let categories = copy_names(alloc, t.categories().as_slice())?;
    Ok(Declared {
        infos,
        fields,
        entries,
        categories,
    })
}

/// The hierarchy of the classes.
fn hierarchy_of(alloc: Global, names: &Names, classes: &[Class]) -> Result<Hier, LowerFault>
    requires files { length names.now ≡ length classes.now }
    requires numbered { IsNumbered (heads_of classes.now) }
    ensures heads { IfOk result (λ hier. hier ≡ heads_of classes.now) }
    ensures valid { OnOk result (IsHierarchy (heads_of classes.now)) }
    ensures spelled { OnOk result (All IsSpelled classes.now) }
    ensures refused { IfErr result (IsLowerFault names.now classes.now) }
{
    let heads = heads_of(alloc, classes)?;
    match hierarchy(alloc, heads.as_slice()) {
        Ok(hier) => Ok(hier),
        Err(fault) => Err(hier_fault(alloc, names, fault)),
    }
}

/// What the class files say apart from code.
fn heads_of(alloc: Global, classes: &[Class]) -> Result<Seq<ClassHead>, Memory>
    ensures heads { IfOk result (λ heads. heads ≡ heads_of classes.now) }
    ensures spelled { OnOk result (All IsSpelled classes.now) }
{
    let mut heads = Seq::new(alloc);
    for class in classes {
        let head = copy_head(alloc, &class.head)?;
        heads.push(head)?;
    }
    Ok(heads)
}
