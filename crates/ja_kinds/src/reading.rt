ghost use Rattle.std.specs.Prelude.{◌≡◌, [], ◌∷◌, replicate, IfOk, Some};
ghost use Rattle.ja_base.specs.declared.java_type.Kind.TheVariants.{P1, R};
ghost use Rattle.ja_kinds.specs.declared.effect.Effect.TheVariants.{Exchanges};
ghost use Rattle.ja_kinds.specs.Effect.{fixed_effect, loaded_effect, field_effect, receiver_of, method_effect, kinds_of, kinds_in, place_of};
ghost use Rattle.ja_kinds.specs.InnerReading.{part_of, Finds};
ghost use Rattle.ja_kinds.specs.declared.reading.Part.TheVariants.{Constant, Field, Method};

use crate::effect::Effect;
use crate::pool_kinds::{MethodKinds, constant_kind, field_kind, method_kinds, tag_named};
use crate::stack::joined;
use crate::state::KindList;
use crate::step::list_of;
use ja_base::{Kind, Memory};
use ja_code::{Behaviour, FieldAccess, Invocation, Operands, RawInstr, Source};
use ja_pool::Pool;
use std::alloc::Global;

/// What of the constant pool an effect depends on.
#[derive(Clone, Copy, PartialEq, Eq)]
pub(crate) enum Part {
    Nothing,
    Constant,
    Field,
    Method,
}

/// Values of some kinds for values of others.
fn exchange(alloc: Global, taken: &[Kind], pushed: &[Kind]) -> Result<Option<Effect>, Memory>
    ensures { IfOk result (λ found. found ≡ Some (Exchanges taken.now pushed.now)) }
{
    let taken = KindList::from_vec(Vec::from_slice(alloc, taken)?);
    let pushed = KindList::from_vec(Vec::from_slice(alloc, pushed)?);
    Ok(Some(Effect::Exchanges { taken, pushed }))
}

/// Values of the kinds of operands for values of others.
fn compute(alloc: Global, operands: Operands, pushed: &[Kind]) -> Result<Option<Effect>, Memory>
    ensures { IfOk result (λ found. found ≡ Some (Exchanges (kinds_of operands) pushed.now)) }
{
    match operands {
        Operands::One(kind) => exchange(alloc, &[kind], pushed),
        Operands::Two(lower, upper) => exchange(alloc, &[lower, upper], pushed),
    }
}

/// A number of ints for a reference.
fn exchange_ints(alloc: Global, count: u64) -> Result<Option<Effect>, Memory>
    ensures { IfOk result (λ found. found ≡ Some (Exchanges (replicate count P1) (R ∷ []))) }
{
    let taken = Vec::from_elem(alloc, Kind::P1, count as usize)?;
    exchange(alloc, taken.as_slice(), &[Kind::R])
}

/// The local that an instruction uses.
fn place_of(source: Source, instr: &RawInstr) -> u64
    ensures { result ≡ place_of source instr.now }
{
    match source {
        Source::Operand => instr.operand(0),
        Source::Fixed(place) => u64::from(place),
    }
}

/// The effect of a behaviour where it does not depend on the pool.
fn fixed_effect(
    alloc: Global,
    instr: &RawInstr,
    behaviour: Behaviour,
) -> Result<Option<Effect>, Memory>
    ensures { IfOk result (λ found. found ≡ fixed_effect instr.now behaviour) }
{
    match behaviour {
        Behaviour::Nothing | Behaviour::Jump => exchange(alloc, &[], &[]),
        Behaviour::Constant(kind) => exchange(alloc, &[], &[kind]),
        Behaviour::Load(kind, source) => Ok(Some(Effect::Loads(kind, place_of(source, instr)))),
        Behaviour::Store(kind, source) => Ok(Some(Effect::Stores(kind, place_of(source, instr)))),
        Behaviour::Increment => Ok(Some(Effect::Counts(instr.operand(0)))),
        Behaviour::ArrayLoad(kind) => exchange(alloc, &[Kind::R, Kind::P1], &[kind]),
        Behaviour::ArrayStore(kind) => exchange(alloc, &[Kind::R, Kind::P1, kind], &[]),
        Behaviour::Rearrange(how) => Ok(Some(Effect::Moves(how))),
        Behaviour::Compute {
            operands,
            result: kind,
            throws: _,
        } => compute(alloc, operands, &[kind]),
        Behaviour::Test(operands) => compute(alloc, operands, &[]),
        Behaviour::Switch => exchange(alloc, &[Kind::P1], &[]),
        Behaviour::Return(kind) => Ok(Some(Effect::Leaves(kind))),
        Behaviour::New => exchange(alloc, &[], &[Kind::R]),
        Behaviour::NewArray(_) => exchange(alloc, &[Kind::P1], &[Kind::R]),
        Behaviour::NewArrays => exchange_ints(alloc, instr.operand(1)),
        Behaviour::ArrayLength | Behaviour::InstanceOf => exchange(alloc, &[Kind::R], &[Kind::P1]),
        Behaviour::Throw | Behaviour::Monitor => exchange(alloc, &[Kind::R], &[]),
        Behaviour::Cast => exchange(alloc, &[Kind::R], &[Kind::R]),
        _ => Ok(None),
    }
}

/// The effect of a behaviour that loads a constant of this kind.
fn loaded_effect(alloc: Global, behaviour: Behaviour, kind: Kind) -> Result<Option<Effect>, Memory>
    ensures { IfOk result (λ found. found ≡ loaded_effect behaviour kind) }
{
    match behaviour {
        Behaviour::Loaded => exchange(alloc, &[], &[kind]),
        _ => Ok(None),
    }
}

/// The effect of a behaviour that names a field of this kind.
fn field_effect(alloc: Global, behaviour: Behaviour, kind: Kind) -> Result<Option<Effect>, Memory>
    ensures { IfOk result (λ found. found ≡ field_effect behaviour kind) }
{
    match behaviour {
        Behaviour::Access(FieldAccess::GetStatic) => exchange(alloc, &[], &[kind]),
        Behaviour::Access(FieldAccess::PutStatic) => exchange(alloc, &[kind], &[]),
        Behaviour::Access(FieldAccess::GetField) => exchange(alloc, &[Kind::R], &[kind]),
        Behaviour::Access(FieldAccess::PutField) => exchange(alloc, &[Kind::R, kind], &[]),
        _ => Ok(None),
    }
}

/// The kinds that a call takes below the arguments: that of its receiver, if it has one.
fn receiver_of(how: Invocation) -> &'static [Kind]
    ensures { result.now ≡ receiver_of how }
{
    match how {
        Invocation::Static => &[],
        Invocation::Virtual | Invocation::Special | Invocation::Interface => &[Kind::R],
    }
}

/// The effect of a behaviour that names a method of these kinds.
fn method_effect(
    alloc: Global,
    behaviour: Behaviour,
    kinds: &MethodKinds,
) -> Result<Option<Effect>, Memory>
    ensures { IfOk result (λ found. found ≡ method_effect behaviour kinds.now.taken kinds.now.given) }
{
    let given = list_of(alloc, kinds.given)?;
    match behaviour {
        Behaviour::Invoke(how) => {
            let taken = joined(alloc, receiver_of(how), kinds.taken.as_slice())?;
            exchange(alloc, taken.as_slice(), given.as_slice())
        }
        _ => Ok(None),
    }
}

/// The effect of a behaviour that loads a constant.
fn constant_part(
    alloc: Global,
    pool: &Pool,
    instr: &RawInstr,
    behaviour: Behaviour,
) -> Result<Option<Effect>, Memory>
    requires { part_of behaviour ≡ Constant }
    ensures { IfOk result (Finds pool.now instr.now behaviour) }
{
    match constant_kind(tag_named(pool, instr)) {
        Some(kind) => loaded_effect(alloc, behaviour, kind),
        None => Ok(None),
    }
}

/// The effect of a behaviour that names a field.
fn field_part(
    alloc: Global,
    pool: &Pool,
    instr: &RawInstr,
    behaviour: Behaviour,
) -> Result<Option<Effect>, Memory>
    requires { part_of behaviour ≡ Field }
    ensures { IfOk result (Finds pool.now instr.now behaviour) }
{
    let found = field_kind(alloc, pool, instr)?;
    match found {
        Some(kind) => field_effect(alloc, behaviour, kind),
        None => Ok(None),
    }
}

/// The effect of a behaviour that names a method.
fn method_part(
    alloc: Global,
    pool: &Pool,
    instr: &RawInstr,
    behaviour: Behaviour,
) -> Result<Option<Effect>, Memory>
    requires { part_of behaviour ≡ Method }
    ensures { IfOk result (Finds pool.now instr.now behaviour) }
{
    let found = method_kinds(alloc, pool, instr)?;
    match found {
        Some(kinds) => method_effect(alloc, behaviour, &kinds),
        None => Ok(None),
    }
}

/// What of the pool the effect of a behaviour depends on.
fn part_of(behaviour: Behaviour) -> Part
    ensures { result ≡ part_of behaviour }
{
    match behaviour {
        Behaviour::Loaded => Part::Constant,
        Behaviour::Access(_) => Part::Field,
        Behaviour::Invoke(_) => Part::Method,
        _ => Part::Nothing,
    }
}

/// The effect of an instruction with this behaviour; none where the pool has no such entry as it names.
pub(crate) fn effect_of(
    alloc: Global,
    pool: &Pool,
    instr: &RawInstr,
    behaviour: Behaviour,
) -> Result<Option<Effect>, Memory>
    ensures { IfOk result (Finds pool.now instr.now behaviour) }
{
    match part_of(behaviour) {
        Part::Nothing => fixed_effect(alloc, instr, behaviour),
        Part::Constant => constant_part(alloc, pool, instr, behaviour),
        Part::Field => field_part(alloc, pool, instr, behaviour),
        Part::Method => method_part(alloc, pool, instr, behaviour),
    }
}
