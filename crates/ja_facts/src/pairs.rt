ghost use Rattle.std.specs.Prelude.{◌≡◌, ◌<◌, ◌^◌, [], Some, length, map, replicate, slice_get, slice_index_or, IfOk, IfSome};
ghost use Rattle.ja_ir.specs.declared.method.Method.{Method};
ghost use Rattle.ja_facts.specs.FactTables.{name_count, live_count, no_pairs, empty_pairs, empty_reach};
ghost use Rattle.ja_facts.specs.Shared.{named_rows, method_names};

use crate::params::param_count;
use crate::rows::{Rows, listed_in};
use ja_base::{Memory, MethodId};
use ja_ir::{Method, Program};
use ja_sets::PairSet;
use std::alloc::Global;
use std::marker::Model;

/// For each instruction, which names may reach one object before it.
///
/// The names of a method are numbered: the slots, which are the locals, the values on the stack and
/// those for what was stored and for what is thrown; then the static fields; then what each parameter
/// reached when the method began, and what the static fields did. A pair stands in both orders.
///
/// The sets stand in a pool, in which equal sets can be one.
#[derive(Drop)]
pub struct Pairs {
    names: Rows<Rows<u32>>,
    pool: Rows<PairSet>,
    none: PairSet,
}

impl Model for Pairs {
    ghost use Rattle.std.specs.Prelude.{List, Bool};
    ghost use Rattle.ja_facts.specs.Shared.{named_rows};

    ghost Value = { List (List (List (List Bool))) };

    ghost view = { λ pairs. named_rows pairs.pool pairs.none pairs.names };
}

impl Pairs {
    /// The pairs of a program: none.
    pub fn new(alloc: Global, p: &Program) -> Result<Pairs, Memory>
        ensures { IfOk result (λ pairs. pairs ≡ empty_pairs p.now) }
    {
        let names = method_names(alloc, p)?;
        let pool = pair_pool(alloc, p)?;
        let none = PairSet::new(alloc, 0)?;
        Ok(Pairs { names, pool, none })
    }

    /// The pairs before instruction `i` of a method.
    pub fn at(&self, m: MethodId, i: u32) -> &PairSet
        requires { i < length (slice_index_or self.now m.0 []) }
        ensures { slice_get (slice_index_or self.now m.0 []) i ≡ Some result.now }
    {
        let name = *listed_in(&self.names, m.0, i, &0);
        self.pool.at_or(name as u64, &self.none)
    }

    /// The sets of a pool, in which they are named by their places: `names` has a name for each
    /// instruction of each method. A name without a set in the pool stands for `none`. It takes no
    /// memory.
    pub fn shared(names: Rows<Rows<u32>>, pool: Rows<PairSet>, none: PairSet) -> Pairs
        ensures { result ≡ named_rows pool none names }
    {
        Pairs { names, pool, none }
    }
}

/// For each instruction, from which names the object of which slot may be reached before it.
///
/// The first of a pair is the number of a slot or, after all slots, that of the static fields; the
/// second is the number of a slot.
///
/// The sets stand in a pool, in which equal sets can be one.
#[derive(Drop)]
pub struct Reach {
    names: Rows<Rows<u32>>,
    pool: Rows<PairSet>,
    none: PairSet,
}

impl Model for Reach {
    ghost use Rattle.std.specs.Prelude.{List, Bool};
    ghost use Rattle.ja_facts.specs.Shared.{named_rows};

    ghost Value = { List (List (List (List Bool))) };

    ghost view = { λ reach. named_rows reach.pool reach.none reach.names };
}

impl Reach {
    /// The pairs of a program: none.
    pub fn new(alloc: Global, p: &Program) -> Result<Reach, Memory>
        ensures { IfOk result (λ reach. reach ≡ empty_reach p.now) }
    {
        let names = method_names(alloc, p)?;
        let pool = reach_pool(alloc, p)?;
        let none = PairSet::new(alloc, 0)?;
        Ok(Reach { names, pool, none })
    }

    /// The pairs before instruction `i` of a method.
    pub fn at(&self, m: MethodId, i: u32) -> &PairSet
        requires { i < length (slice_index_or self.now m.0 []) }
        ensures { slice_get (slice_index_or self.now m.0 []) i ≡ Some result.now }
    {
        let name = *listed_in(&self.names, m.0, i, &0);
        self.pool.at_or(name as u64, &self.none)
    }

    /// The sets of a pool, in which they are named by their places: `names` has a name for each
    /// instruction of each method. A name without a set in the pool stands for `none`. It takes no
    /// memory.
    pub fn shared(names: Rows<Rows<u32>>, pool: Rows<PairSet>, none: PairSet) -> Reach
        ensures { result ≡ named_rows pool none names }
    {
        Reach { names, pool, none }
    }
}

// The number of the slots of a method and of the static fields.
fn live_count(method: &Method) -> u64
    ensures count { result ≡ live_count method.now }
    ensures below { result < 2 ^ 34 }
{
    method.locals as u64 + method.stack as u64 + 3
}

// The number of all names of a method, if it is below 2^32.
fn name_count(method: &Method) -> Option<u32>
    ensures { IfSome result (λ n. n ≡ name_count method.now) }
{
    let params = param_count(method);
    if params > u32::MAX as u64 {
        return None;
    }
    let count = live_count(method) + params + 1;
    if count > u32::MAX as u64 {
        return None;
    }
    Some(count as u32)
}

// For each instruction of each method the number of its method.
fn method_names(alloc: Global, p: &Program) -> Result<Rows<Rows<u32>>, Memory>
    ensures { IfOk result (λ names. names ≡ method_names 0 p.now.methods) }
{
    let methods = p.methods().as_slice();
    let mut names = Rows::new(alloc);
    for m in 0..methods.len() {
        names.push(name_row(alloc, methods[m].code.len(), m as u32)?)?;
    }
    Ok(names)
}

// So many times this name.
fn name_row(alloc: Global, count: u64, name: u32) -> Result<Rows<u32>, Memory>
    ensures { IfOk result (λ row. row ≡ replicate count name) }
{
    let mut row = Rows::new(alloc);
    for _i in 0..count {
        row.push(name)?;
    }
    Ok(row)
}

// The empty set of pairs of a method's names. No memory holds a set of pairs of 2^32 numbers and
// more, which would take 2^64 bits.
fn method_pairs(alloc: Global, method: &Method) -> Result<PairSet, Memory>
    ensures { IfOk result (λ set. set ≡ no_pairs (name_count method.now)) }
{
    match name_count(method) {
        Some(n) => PairSet::new(alloc, n),
        None => Err(Memory),
    }
}

// The empty set of pairs of a method's slots and the static fields.
fn method_reach(alloc: Global, method: &Method) -> Result<PairSet, Memory>
    ensures { IfOk result (λ set. set ≡ no_pairs (live_count method.now)) }
{
    let n = live_count(method);
    if n > u32::MAX as u64 {
        return Err(Memory);
    }
    PairSet::new(alloc, n as u32)
}

// For each method an empty set of pairs of its names.
fn pair_pool(alloc: Global, p: &Program) -> Result<Rows<PairSet>, Memory>
    ensures { IfOk result (λ pool. pool ≡ map (λ (method : Method). no_pairs (name_count method)) p.now.methods) }
{
    let mut pool = Rows::new(alloc);
    for method in p.methods().as_slice() {
        pool.push(method_pairs(alloc, method)?)?;
    }
    Ok(pool)
}

// For each method an empty set of pairs of its slots and the static fields.
fn reach_pool(alloc: Global, p: &Program) -> Result<Rows<PairSet>, Memory>
    ensures { IfOk result (λ pool. pool ≡ map (λ (method : Method). no_pairs (live_count method)) p.now.methods) }
{
    let mut pool = Rows::new(alloc);
    for method in p.methods().as_slice() {
        pool.push(method_reach(alloc, method)?)?;
    }
    Ok(pool)
}
