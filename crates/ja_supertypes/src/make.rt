ghost use Rattle.std.specs.Prelude.{◌≡◌, ℕ, ◌<◌, ◌≤◌, ◌^◌, [], length, slice_index_or, IfOk, IfErr, OnOk};
ghost use Rattle.ja_supertypes.specs.Faults.{IsCyclic, IsDuplicate, IsFault, IsNowhere, IsPlatform};
ghost use Rattle.ja_supertypes.specs.InnerIndex.{interface_places, superclass_places, supertype_places, AreTops, IsIndexed, Lists, Shows, ShowsForeign};
ghost use Rattle.ja_supertypes.specs.InnerRows.{ShowsAll};
ghost use Rattle.ja_supertypes.specs.Supertypes.{names_of, IsDirect, IsSuperclass, IsSuperinterface, IsSupertype};
ghost use Rattle.ja_base.specs.Limit.{max_numbered};

use crate::ClassFault;
use crate::closure::close;
use crate::copy::copy_heads;
use crate::cycle::check_cycles;
use crate::direct::{interface_places, sets_of, superclass_places, supertype_places};
use crate::foreign::{own_flags, raise};
use crate::gather::{gather, members};
use crate::names::{check_platform, number_names};
use crate::superclasses::{superclass_sets, tops};
use crate::tables::Tables;
use indexmap::IndexSet;
use ja_base::{Flags, Memory, Name, Numbers, Seq};
use ja_ir::ClassHead;
use ja_sets::TokenSet;
use std::alloc::Global;

/// The direct supertypes of each class, and all its proper ones.
#[derive(Drop)]
struct Ways {
    superclasses: Seq<Option<u32>>,
    direct: Seq<Numbers>,
    above: Vec<TokenSet>,
}

/// What is told apart of what lies above each class.
#[derive(Drop)]
struct Above {
    supertypes: Seq<Numbers>,
    superclasses: Vec<TokenSet>,
    superinterfaces: Vec<TokenSet>,
    foreign: Flags,
    tops: Numbers,
}

/// The tables of the classes with these heads.
pub fn tables_of(alloc: Global, heads: &[ClassHead]) -> Result<Tables, ClassFault>
    requires { length heads.now ≤ max_numbered }
    ensures heads { IfOk result (λ tables. tables.heads ≡ heads.now) }
    ensures indexed { IfOk result IsIndexed }
    ensures fault { IfErr result (IsFault heads.now) }
{
    let names = distinct_names(alloc, heads)?;
    let copies = copy_heads(alloc, heads)?;
    let ways = ways_of(alloc, heads, &names)?;
    let above = above_of(alloc, heads, &names, &ways)?;
    Ok(Tables {
        heads: copies,
        names,
        superclasses: ways.superclasses,
        direct: ways.direct,
        above: Seq::from_vec(ways.above),
        supertypes: above.supertypes,
        above_superclasses: Seq::from_vec(above.superclasses),
        superinterfaces: Seq::from_vec(above.superinterfaces),
        foreign: above.foreign,
        tops: above.tops,
    })
}

/// The names of the classes, where these are distinct and outside the platform.
fn distinct_names(alloc: Global, heads: &[ClassHead]) -> Result<IndexSet<Name>, ClassFault>
    requires { length heads.now ≤ max_numbered }
    ensures names { IfOk result (λ names. names.keys ≡ names_of heads.now) }
    ensures platform { OnOk result (IsNowhere (IsPlatform heads.now)) }
    ensures distinct { OnOk result (IsNowhere (IsDuplicate heads.now)) }
    ensures fault { IfErr result (IsFault heads.now) }
{
    check_platform(heads)?;
    number_names(alloc, heads)
}

/// The supertypes of the classes with these names, which are well-founded.
fn ways_of(alloc: Global, heads: &[ClassHead], names: &IndexSet<Name>) -> Result<Ways, ClassFault>
    requires few { length heads.now ≤ max_numbered }
    requires names { names.now.keys ≡ names_of heads.now }
    requires platform { IsNowhere (IsPlatform heads.now) }
    requires distinct { IsNowhere (IsDuplicate heads.now) }
    ensures superclasses { IfOk result (λ ways. ways.superclasses ≡ superclass_places heads.now) }
    ensures direct { IfOk result (λ ways. ways.direct ≡ supertype_places heads.now) }
    ensures above { IfOk result (λ ways. ShowsAll heads.now ways.above.items) }
    ensures acyclic { OnOk result (IsNowhere (IsCyclic heads.now)) }
    ensures fault { IfErr result (IsFault heads.now) }
{
    let superclasses = superclass_places(alloc, heads, names)?;
    let direct = supertype_places(alloc, heads, names)?;
    let above = all_supertypes(alloc, heads, direct.as_slice())?;
    check_cycles(heads, above.as_slice())?;
    Ok(Ways {
        superclasses,
        direct,
        above,
    })
}

/// What lies above each class, by its direct and its proper supertypes.
fn above_of(
    alloc: Global,
    heads: &[ClassHead],
    names: &IndexSet<Name>,
    ways: &Ways,
) -> Result<Above, Memory>
    requires few { length heads.now ≤ max_numbered }
    requires names { names.now.keys ≡ names_of heads.now }
    requires superclasses { ways.now.superclasses ≡ superclass_places heads.now }
    requires above { ShowsAll heads.now ways.now.above.items }
    requires acyclic { IsNowhere (IsCyclic heads.now) }
    ensures supertypes { IfOk result (λ above. Lists heads.now (IsSupertype heads.now) above.supertypes) }
    ensures falling { IfOk result (λ above. (c d : ℕ) → IsDirect heads.now c d → length (slice_index_or above.supertypes d []) < length (slice_index_or above.supertypes c [])) }
    ensures superclasses { IfOk result (λ above. Shows heads.now (IsSuperclass heads.now) above.superclasses.items) }
    ensures superinterfaces { IfOk result (λ above. Shows heads.now (IsSuperinterface heads.now) above.superinterfaces.items) }
    ensures foreign { IfOk result (λ above. ShowsForeign heads.now above.foreign) }
    ensures tops { IfOk result (λ above. AreTops heads.now above.tops) }
{
    let supertypes = listed_supertypes(alloc, heads, ways.above.as_slice())?;
    let superclasses = superclass_sets(alloc, heads, ways.superclasses.as_slice())?;
    let superinterfaces = all_superinterfaces(alloc, heads, names, supertypes.as_slice())?;
    let foreign = all_foreign(alloc, heads, names, supertypes.as_slice())?;
    let tops = tops(alloc, heads, ways.superclasses.as_slice())?;
    Ok(Above {
        supertypes,
        superclasses,
        superinterfaces,
        foreign,
        tops,
    })
}

/// The proper supertypes of each class as lists, of which that of a direct supertype is shorter.
fn listed_supertypes(
    alloc: Global,
    heads: &[ClassHead],
    above: &[TokenSet],
) -> Result<Seq<Numbers>, Memory>
    requires few { length heads.now ≤ max_numbered }
    requires above { ShowsAll heads.now above.now }
    requires acyclic { IsNowhere (IsCyclic heads.now) }
    ensures lists { IfOk result (Lists heads.now (IsSupertype heads.now)) }
    ensures falling { IfOk result (λ lists. (c d : ℕ) → IsDirect heads.now c d → length (slice_index_or lists d []) < length (slice_index_or lists c [])) }
{
    members(alloc, above, heads.len() as u32)
}

/// The proper supertypes of each class.
fn all_supertypes(
    alloc: Global,
    heads: &[ClassHead],
    direct: &[Numbers],
) -> Result<Vec<TokenSet>, Memory>
    requires few { length heads.now ≤ max_numbered }
    requires direct { direct.now ≡ supertype_places heads.now }
    ensures { IfOk result (λ rows. ShowsAll heads.now rows.items) }
{
    let mut rows = sets_of(alloc, direct, heads.len() as u32)?;
    close(alloc, heads, rows.as_mut_slice())?;
    Ok(rows)
}

/// The proper superinterfaces of each class.
fn all_superinterfaces(
    alloc: Global,
    heads: &[ClassHead],
    names: &IndexSet<Name>,
    supertypes: &[Numbers],
) -> Result<Vec<TokenSet>, Memory>
    requires few { length heads.now ≤ max_numbered }
    requires names { names.now.keys ≡ names_of heads.now }
    requires supertypes { Lists heads.now (IsSupertype heads.now) supertypes.now }
    ensures { IfOk result (λ sets. Shows heads.now (IsSuperinterface heads.now) sets.items) }
{
    let len = heads.len() as u32;
    let interfaces = interface_places(alloc, heads, names)?;
    let own = sets_of(alloc, interfaces.as_slice(), len)?;
    gather(alloc, own.as_slice(), supertypes, len)
}

/// Which classes have a library class other than `java/lang/Object` above them.
fn all_foreign(
    alloc: Global,
    heads: &[ClassHead],
    names: &IndexSet<Name>,
    supertypes: &[Numbers],
) -> Result<Flags, Memory>
    requires names { names.now.keys ≡ names_of heads.now }
    requires supertypes { Lists heads.now (IsSupertype heads.now) supertypes.now }
    ensures { IfOk result (ShowsForeign heads.now) }
{
    let own = own_flags(alloc, heads, names)?;
    raise(alloc, own.as_slice(), supertypes)
}
