ghost use Rattle.std.specs.Prelude.{◌≡◌, ◌<◌, length, OnOk};
ghost use Rattle.ja_network.specs.Facts.{IsNetwork};
ghost use Rattle.ja_facts.specs.ClassTables.{token_count, empty_classes};
ghost use Rattle.ja_class_tables.specs.InnerPool.{row_of};
ghost use Rattle.ja_class_tables.specs.InnerMembers.{HasBags, HasFields, HasParams, HasResults, PutsBag, PutsField, PutsParam, PutsParams, PutsResult};

use ja_base::{FieldId, Memory, MethodId};
use ja_facts::{ClassSets, param_count};
use ja_ir::{Program, Token};
use ja_network::{Cell, Network};
use std::alloc::Global;

// Puts what a parameter may be.
fn put_param(
    alloc: Global,
    net: &Network,
    m: u32,
    k: u32,
    sets: &mut ClassSets,
) -> Result<(), Memory>
    requires network { IsNetwork net.now }
    requires inside { k < length (row_of sets.old.params m) }
    ensures { OnOk result (PutsParam net.now m k sets.old sets.new) }
{
    let cell = Cell::Param {
        method: m,
        param: k,
    };
    match net.tokens_of(alloc, cell) {
        Ok(set) => {
            *sets.param_mut(MethodId(m), k) = set;
            Ok(())
        }
        Err(error) => Err(error),
    }
}

// Puts what the parameters of a method may be.
fn put_params(
    alloc: Global,
    net: &Network,
    m: u32,
    count: u32,
    sets: &mut ClassSets,
) -> Result<(), Memory>
    requires network { IsNetwork net.now }
    requires inside { length (row_of sets.old.params m) ≡ count }
    ensures { OnOk result (PutsParams net.now m count sets.old sets.new) }
{
    for k in 0..count {
        put_param(alloc, net, m, k, sets)?;
    }
    Ok(())
}

/// Puts what the parameters of all methods may be.
pub fn put_all_params(
    alloc: Global,
    p: &Program,
    net: &Network,
    sets: &mut ClassSets,
) -> Result<(), Memory>
    requires network { IsNetwork net.now }
    requires empty { sets.old ≡ empty_classes p.now }
    ensures { OnOk result (HasParams p.now net.now (length p.now.methods) sets.old sets.new) }
{
    for (m, method) in p.methods().as_slice().iter().enumerate() {
        put_params(alloc, net, m as u32, param_count(method) as u32, sets)?;
    }
    Ok(())
}

// Puts what a method may answer, and what it may throw out.
fn put_result(alloc: Global, net: &Network, m: u32, sets: &mut ClassSets) -> Result<(), Memory>
    requires network { IsNetwork net.now }
    requires result { m < length sets.old.results }
    requires out { m < length sets.old.outs }
    ensures { OnOk result (PutsResult net.now m sets.old sets.new) }
{
    let answers = net.tokens_of(alloc, Cell::Answer { method: m })?;
    let thrown = net.tokens_of(alloc, Cell::Out { method: m })?;
    *sets.result_mut(MethodId(m)) = answers;
    *sets.out_mut(MethodId(m)) = thrown;
    Ok(())
}

/// Puts what all methods may answer and throw out.
pub fn put_results(
    alloc: Global,
    p: &Program,
    net: &Network,
    sets: &mut ClassSets,
) -> Result<(), Memory>
    requires network { IsNetwork net.now }
    requires results { length sets.old.results ≡ length p.now.methods }
    requires outs { length sets.old.outs ≡ length p.now.methods }
    ensures { OnOk result (HasResults p.now net.now (length p.now.methods) sets.old sets.new) }
{
    for m in 0..p.methods().len() {
        put_result(alloc, net, m as u32, sets)?;
    }
    Ok(())
}

// Puts what a field may have.
fn put_field(alloc: Global, net: &Network, f: u32, sets: &mut ClassSets) -> Result<(), Memory>
    requires network { IsNetwork net.now }
    requires inside { f < length sets.old.fields }
    ensures { OnOk result (PutsField net.now f sets.old sets.new) }
{
    let set = net.tokens_of(alloc, Cell::Field { field: f })?;
    *sets.field_mut(FieldId(f)) = set;
    Ok(())
}

/// Puts what all fields may have.
pub fn put_fields(
    alloc: Global,
    p: &Program,
    net: &Network,
    sets: &mut ClassSets,
) -> Result<(), Memory>
    requires network { IsNetwork net.now }
    requires fields { length sets.old.fields ≡ length p.now.fields }
    ensures { OnOk result (HasFields p.now net.now (length p.now.fields) sets.old sets.new) }
{
    for f in 0..p.fields().len() {
        put_field(alloc, net, f as u32, sets)?;
    }
    Ok(())
}

// Puts what the bags of a token may have.
fn put_bag(alloc: Global, net: &Network, t: u32, sets: &mut ClassSets) -> Result<(), Memory>
    requires network { IsNetwork net.now }
    requires inside { t < length sets.old.bags }
    ensures { OnOk result (PutsBag net.now t sets.old sets.new) }
{
    let set = net.tokens_of(alloc, Cell::Bag { token: t })?;
    *sets.bag_mut(Token(t)) = set;
    Ok(())
}

/// Puts what the bags of all tokens may have.
pub fn put_bags(
    alloc: Global,
    p: &Program,
    net: &Network,
    sets: &mut ClassSets,
) -> Result<(), Memory>
    requires network { IsNetwork net.now }
    requires bags { length sets.old.bags ≡ token_count p.now }
    ensures { OnOk result (HasBags p.now net.now (token_count p.now) sets.old sets.new) }
{
    for t in 0..p.classes().len() as u32 + 4 {
        put_bag(alloc, net, t, sets)?;
    }
    Ok(())
}
