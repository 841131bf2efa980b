ghost use Rattle.std.specs.Prelude.{◌≡◌, ◌++◌, ◌∷◌, ◌<◌, ◌≤◌, ◌^◌, [], suc, IfOk, IfErr, OnOk, length, map, sum_by};
ghost use Rattle.ja_hier.specs.declared.starts.Member.TheVariants.{Method as OfMethods};
ghost use Rattle.ja_hier.specs.Faults.{IsHierarchy};
ghost use Rattle.ja_hier.specs.Members.{count_of};
ghost use Rattle.ja_lower.specs.InnerAnswers.{IsAnswer};
ghost use Rattle.ja_lower.specs.Program.{AreMethods, AreSites, IsLowerFault, heads_of, site_of};
ghost use Rattle.ja_lower.specs.InnerSteps.{AreUpTo};
ghost use Rattle.ja_base.specs.Limit.{max_numbered};

use crate::LowerFault;
use crate::answer::{Answer, answers_of};
use crate::place::places_of;
use crate::refusal::method_fault;
use ja_base::{Memory, MethodId, Names, Seq};
use ja_class::Class;
use ja_hier::Hier;
use ja_ir::{Methods, Site, Sites};
use ja_lib::Table;
use ja_methods::{Lowered, MethodSite, law_one_method};
use std::alloc::Global;
use std::thread::Threads;

/// The methods of a program, and its sink calls.
#[derive(Drop)]
pub(crate) struct Code {
    pub methods: Methods,
    pub sites: Sites,
}

/// The methods of the classes and their sink calls, in order, or the first refusal. A thread of its own takes
/// `least` methods or more.
pub(crate) fn code_of<R: Threads + Sync>(
    rt: &R,
    alloc: Global,
    files: &Names,
    hier: &Hier,
    classes: &[Class],
    table: &Table,
    least: usize,
) -> Result<Code, LowerFault>
    requires heads { hier.now ≡ heads_of classes.now }
    requires valid { IsHierarchy (heads_of classes.now) }
    requires files { length files.now ≡ length classes.now }
    requires few { length classes.now ≤ max_numbered }
    requires numbered { sum_by (count_of OfMethods) (heads_of classes.now) ≤ max_numbered }
    ensures methods { IfOk result (λ code. AreMethods (heads_of classes.now) table.now classes.now code.methods) }
    ensures sites { IfOk result (λ code. AreSites (heads_of classes.now) code.methods code.sites) }
    ensures refused { IfErr result (IsLowerFault files.now classes.now) }
{
    let places = places_of(alloc, classes)?;
    let answers = answers_of(rt, alloc, hier, classes, table, &places, least)?;
    let mut code = Code {
        methods: Seq::new(alloc),
        sites: Seq::new(alloc),
    };
    for answer in answers {
        add_answer(alloc, &mut code, files, classes, table, answer)?;
    }
    Ok(code)
}

/// Adds the method of an answer and its sink calls.
fn add_answer(
    alloc: Global,
    code: &mut Code,
    files: &Names,
    classes: &[Class],
    table: &Table,
    answer: Answer,
) -> Result<(), LowerFault>
    requires valid { IsHierarchy (heads_of classes.now) }
    requires files { length files.now ≡ length classes.now }
    requires numbered { sum_by (count_of OfMethods) (heads_of classes.now) ≤ max_numbered }
    requires answer { IsAnswer table.now classes.now answer }
    requires so_far { AreUpTo table.now classes.now answer.place.class answer.place.method code.old.methods code.old.sites }
    ensures added { OnOk result (AreUpTo table.now classes.now answer.place.class (suc answer.place.method) code.new.methods code.new.sites) }
    ensures refused { IfErr result (IsLowerFault files.now classes.now) }
{
    law_one_method();
    let Answer { place, outcome } = answer;
    match outcome {
        Err(fault) => Err(method_fault(alloc, files.at(place.class as u64), place.method, fault)),
        Ok(lowered) => {
            add_lowered(alloc, code, lowered)?;
            Ok(())
        }
    }
}

/// Adds a method and its sink calls.
fn add_lowered(alloc: Global, code: &mut Code, lowered: Lowered) -> Result<(), Memory>
    requires { length code.old.methods < 2 ^ 32 }
    ensures method { OnOk result (code.new.methods ≡ code.old.methods ++ lowered.method ∷ []) }
    ensures sites { OnOk result (code.new.sites ≡ code.old.sites ++ map (site_of (length code.old.methods)) lowered.sites) }
{
    let m = MethodId(code.methods.len() as u32);
    let Lowered { method, sites } = lowered;
    add_sites(alloc, &mut code.sites, m, sites.as_slice())?;
    code.methods.push(method)?;
    Ok(())
}

/// Adds the sink calls of a method.
fn add_sites(
    alloc: Global,
    sites: &mut Sites,
    m: MethodId,
    own: &[MethodSite],
) -> Result<(), Memory>
    ensures { OnOk result (sites.new ≡ sites.old ++ map (site_of m.0) own.now) }
{
    for site in own {
        sites.push(site_of(alloc, m, site)?)?;
    }
    Ok(())
}

/// A sink call of a method, in the program.
fn site_of(alloc: Global, m: MethodId, site: &MethodSite) -> Result<Site, Memory>
    ensures { IfOk result (λ copy. copy ≡ site_of m.0 site.now) }
{
    let positions = Seq::copy_of(alloc, site.positions.as_slice())?;
    let target = site.target.copy(alloc)?;
    Ok(Site {
        method: m,
        index: site.index,
        positions,
        target,
        category: site.category,
    })
}
