ghost use Rattle.std.specs.Prelude.{◌≤◌, ◌^◌, length, IfOk, OnOk};
ghost use Rattle.ja_methods.specs.Sites.{AreSitesOf};
ghost use Rattle.ja_methods.specs.InnerSites.{Joins};

use ja_base::{Memory, Name, Numbers, Seq};
use ja_hier::Hier;
use ja_ir::{Instr, Op};
use ja_operations::site_of;
use std::alloc::Global;

/// A sink call of a method.
#[derive(Drop)]
pub struct MethodSite {
    /// The index of the call among the method's instructions.
    pub index: u32,
    /// The argument positions, a receiver first, to which no tainted value may go.
    pub positions: Numbers,
    /// The class, `.`, the name and the descriptor that the call names.
    pub target: Name,
    /// The category of marks that the sink is about.
    pub category: u32,
}

/// A list of sink calls of a method.
pub type MethodSites = Seq<MethodSite>;

/// Adds the sink call that the instruction at an index is, if it is one.
fn push_site(
    alloc: Global,
    hier: &Hier,
    sites: &mut MethodSites,
    index: u32,
    instr: &Instr,
) -> Result<(), Memory>
    ensures { OnOk result (Joins hier.now index instr.now sites.old sites.new) }
{
    match &instr.op {
        Op::Call(call) => match site_of(alloc, hier, call)? {
            None => Ok(()),
            Some(found) => sites.push(MethodSite {
                index,
                positions: found.positions,
                target: found.target,
                category: call.row.category,
            }),
        },
        _ => Ok(()),
    }
}

/// The sink calls among the instructions of a method, in their order.
pub fn sites_of(alloc: Global, hier: &Hier, list: &[Instr]) -> Result<MethodSites, Memory>
    requires { length list.now ≤ 2 ^ 32 }
    ensures { IfOk result (AreSitesOf hier.now list.now) }
{
    let mut sites = Seq::new(alloc);
    for (index, instr) in list.iter().enumerate() {
        push_site(alloc, hier, &mut sites, index as u32, instr)?;
    }
    Ok(sites)
}
