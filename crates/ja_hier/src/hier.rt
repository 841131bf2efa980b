ghost use Rattle.std.specs.Prelude.{◌≡◌, ℕ, List, ◌<◌, ◌≤◌, ◌^◌, ◌↔◌, Some, None, length, sum_by, take, IsTrue, IfOk, IfErr, IfSome, IfNone, OnOk};
ghost use Rattle.ja_hier.specs.declared.skip.Skip.TheVariants.{NoMethod, NotVirtual};
ghost use Rattle.ja_hier.specs.Faults.{IsFault, IsHierarchy};
ghost use Rattle.ja_hier.specs.InnerIndex.{AreForks, ArePlaces, AreStarts, IsIndexed, IsIndexOf};
ghost use Rattle.ja_hier.specs.declared.starts.Member.TheVariants.{Method};
ghost use Rattle.ja_hier.specs.Members.{count_of, IsNumbered};
ghost use Rattle.ja_hier.specs.LookUps.{FindsField, Finds};
ghost use Rattle.ja_supertypes.specs.Faults.{AreClasses};
ghost use Rattle.ja_supertypes.specs.LibraryTypes.{AreLibraryTypes, IsNearest};
ghost use Rattle.ja_supertypes.specs.Supertypes as supertypes;
ghost use Rattle.ja_supertypes.specs.Supertypes.{superclass_of, AreSupertypes, IsAtOrAbove, IsSuperclass};
ghost use Rattle.ja_base.specs.Limit.{max_numbered};

use crate::crossing::check_packages;
use crate::forks::forks;
use crate::index::{MembersByName, members_by_name};
use crate::skip::Skip;
use crate::starts::{Member, starts};
use crate::tables::Tables;
use crate::{FieldAt, HierFault, fields, methods};
use ja_base::{ClassId, Memory, Name, Names, Numbers, Seq};
use ja_ir::{ClassHead, MethodAt};
use ja_supertypes::{Classes, classes_of};
use std::alloc::Global;
use std::marker::Model;

/// The hierarchy of the classes of a program, which contracts see as the list of their heads.
///
/// The number of a class is its place in the list. Fields and methods are numbered in the order of the
/// classes and, in one class, as declared.
#[derive(Drop)]
pub struct Hier {
    tables: Tables,
}

impl Model for Hier {
    ghost use Rattle.std.specs.Prelude.{List};
    ghost use Rattle.ja_ir.specs.declared.head.ClassHead.{ClassHead};

    ghost Value = { List ClassHead };

    ghost use Rattle.ja_hier.specs.InnerIndex.{IsIndexed};

    ghost view = { λ hier. hier.tables.classes };

    ghost invariant = { λ hier. IsIndexed hier.tables };
}

/// The hierarchy of these classes.
///
/// # Errors
///
/// The first fault in the list's order, one check after the other over all classes: a class in a package
/// of the platform, a second class of one name, a class that is its own supertype, a method that
/// redeclares a package-private method of another package. `Memory` for want of memory.
pub fn hierarchy(alloc: Global, heads: &[ClassHead]) -> Result<Hier, HierFault>
    requires { IsNumbered heads.now }
    ensures heads { IfOk result (λ hier. hier ≡ heads.now) }
    ensures valid { OnOk result (IsHierarchy heads.now) }
    ensures fault { IfErr result (IsFault heads.now) }
{
    match tables_of(alloc, heads) {
        Ok(tables) => checked(tables),
        Err(fault) => Err(fault),
    }
}

/// The hierarchy with these tables, unless a method redeclares one of another package.
fn checked(tables: Tables) -> Result<Hier, HierFault>
    requires { IsIndexed tables }
    ensures heads { IfOk result (λ hier. hier ≡ tables.classes) }
    ensures valid { OnOk result (IsHierarchy tables.classes) }
    ensures fault { IfErr result (IsFault tables.classes) }
{
    match check_packages(&tables) {
        Ok(()) => Ok(Hier { tables }),
        Err(fault) => Err(fault),
    }
}

fn tables_of(alloc: Global, heads: &[ClassHead]) -> Result<Tables, HierFault>
    requires { IsNumbered heads.now }
    ensures heads { IfOk result (λ tables. tables.classes ≡ heads.now) }
    ensures indexed { IfOk result IsIndexed }
    ensures fault { IfErr result (IsFault heads.now) }
{
    let fields = members_of(alloc, heads, Member::Field)?;
    let methods = members_of(alloc, heads, Member::Method)?;
    match ways_of(alloc, heads) {
        Ok(ways) => Ok(joined(ways, fields, methods)),
        Err(fault) => Err(fault),
    }
}

/// The classes, and the forks of their ways up.
#[derive(Drop)]
struct Ways {
    classes: Classes,
    forks: Numbers,
}

/// The members of a kind of all classes: the number of the first of each class, and all by name.
#[derive(Drop)]
struct Members {
    starts: Numbers,
    by_name: MembersByName,
}

/// The tables with these parts.
fn joined(ways: Ways, fields: Members, methods: Members) -> Tables
    ensures { result ≡ record { classes = ways.classes; field_starts = fields.starts; method_starts = methods.starts; forks = ways.forks; fields = fields.by_name; methods = methods.by_name } }
{
    Tables {
        classes: ways.classes,
        field_starts: fields.starts,
        method_starts: methods.starts,
        forks: ways.forks,
        fields: fields.by_name,
        methods: methods.by_name,
    }
}

/// The classes of these heads, and the forks of their ways up.
fn ways_of(alloc: Global, heads: &[ClassHead]) -> Result<Ways, HierFault>
    requires { length heads.now ≤ max_numbered }
    ensures heads { IfOk result (λ ways. ways.classes ≡ heads.now) }
    ensures valid { OnOk result (AreClasses heads.now) }
    ensures forks { IfOk result (λ ways. AreForks heads.now ways.forks) }
    ensures fault { IfErr result (IsFault heads.now) }
{
    match classes_of(alloc, heads) {
        Ok(classes) => with_forks(alloc, classes),
        Err(fault) => Err(HierFault::from(fault)),
    }
}

/// The classes with the forks of their ways up.
fn with_forks(alloc: Global, classes: Classes) -> Result<Ways, HierFault>
    requires few { length classes ≤ max_numbered }
    requires valid { AreClasses classes }
    ensures classes { IfOk result (λ ways. ways.classes ≡ classes) }
    ensures forks { IfOk result (λ ways. AreForks classes ways.forks) }
    ensures fault { IfErr result (IsFault classes) }
{
    match forks(alloc, &classes) {
        Ok(forks) => Ok(Ways { classes, forks }),
        Err(memory) => Err(HierFault::from(memory)),
    }
}

/// The members of a kind that the classes of these heads declare.
fn members_of(alloc: Global, heads: &[ClassHead], member: Member) -> Result<Members, Memory>
    requires { sum_by (count_of member) heads.now ≤ max_numbered }
    ensures starts { IfOk result (λ members. AreStarts heads.now (count_of member) members.starts) }
    ensures classes { IfOk result (λ members. IsIndexOf member heads.now members.by_name.classes) }
    ensures places { IfOk result (λ members. ArePlaces member heads.now members.by_name.places) }
{
    let starts = starts(alloc, heads, member)?;
    let by_name = members_by_name(alloc, heads, member)?;
    Ok(Members { starts, by_name })
}

/// Whether another class is a class or a proper supertype of it.
pub fn is_at_or_above(classes: &Classes, class: u32, other: u32) -> bool
    requires inside { class < length classes.now }
    requires other_inside { other < length classes.now }
    ensures { IsTrue result ↔ IsAtOrAbove classes.now class other }
{
    class == other || classes.is_supertype(class, other)
}

impl Hier {
    /// The heads of the classes, in order.
    pub fn heads(&self) -> &Seq<ClassHead>
        ensures { result.now ≡ self.now }
    {
        self.tables.classes.heads()
    }

    /// The program class of a name; a name that no class has is one of the library. It takes no memory.
    pub fn class_named(&self, name: &Name) -> Option<ClassId>
        ensures some { IfSome result (λ c. supertypes.class_named self.now name.now ≡ Some c.0) }
        ensures none { IfNone result (supertypes.class_named self.now name.now ≡ None) }
        ensures inside { IfSome result (λ c. c.0 < length self.now) }
    {
        match self.tables.classes.class_named(name) {
            Some(class) => Some(ClassId(class)),
            None => None,
        }
    }

    /// The direct superclass of a class, where it is a program class. It takes no memory.
    pub fn superclass(&self, c: ClassId) -> Option<ClassId>
        requires { c.0 < length self.now }
        ensures some { IfSome result (λ d. superclass_of self.now c.0 ≡ Some d.0) }
        ensures none { IfNone result (superclass_of self.now c.0 ≡ None) }
        ensures inside { IfSome result (λ d. d.0 < length self.now) }
    {
        match self.tables.classes.superclass(c.0) {
            Some(class) => Some(ClassId(class)),
            None => None,
        }
    }

    /// The numbers of the proper supertypes of a class that are program classes, in ascending order. It
    /// takes no memory.
    pub fn supertypes(&self, c: ClassId) -> &Numbers
        requires { c.0 < length self.now }
        ensures { AreSupertypes self.now c.0 result.now }
    {
        self.tables.classes.supertypes(c.0)
    }

    /// Whether class `d` is a proper superclass of class `c`. It takes no memory.
    pub fn is_superclass(&self, c: ClassId, d: ClassId) -> bool
        requires c { c.0 < length self.now }
        requires d { d.0 < length self.now }
        ensures { IsTrue result ↔ IsSuperclass self.now c.0 d.0 }
    {
        self.tables.classes.is_superclass(c.0, d.0)
    }

    /// The nearest superclass of a class that is one of the library, which may be `java/lang/Object`;
    /// none where the way up ends in a program class that names no superclass. It takes no memory.
    pub fn library_superclass(&self, c: ClassId) -> Option<&Name>
        requires { c.0 < length self.now }
        ensures some { IfSome result (λ name. IsNearest self.now c.0 name.now) }
        ensures none { IfNone result ((name : List ℕ) → IsNearest self.now c.0 name → ⊥) }
    {
        self.tables.classes.library_superclass(c.0)
    }

    /// The library types of a class, by which table rows apply to it: its nearest library superclass,
    /// where it is not `java/lang/Object`, then the library interfaces of the class and of its program
    /// superclasses upwards, in declared order and each at its first place, where a program interface
    /// gives way to its own interfaces. It takes no memory.
    pub fn library_types(&self, c: ClassId) -> &Names
        requires { c.0 < length self.now }
        ensures { AreLibraryTypes self.now c.0 result.now }
    {
        self.tables.classes.library_types(c.0)
    }

    /// The number of the methods that the classes before one declare, which is that of its first method. It
    /// takes no memory.
    pub fn first_method(&self, c: ClassId) -> u64
        requires { c.0 < length self.now }
        ensures { result ≡ sum_by (count_of Method) (take c.0 self.now) }
    {
        methods::first_of(&self.tables, c.0)
    }

    /// Whether class `b` is class `a` or a proper supertype of it. It takes no memory.
    pub fn below(&self, a: ClassId, b: ClassId) -> bool
        requires a { a.0 < length self.now }
        requires b { b.0 < length self.now }
        ensures { IsTrue result ↔ IsAtOrAbove self.now a.0 b.0 }
    {
        is_at_or_above(&self.tables.classes, a.0, b.0)
    }

    /// Where the look-up of a field that is named in a class ends (JVM specification 5.4.3.2). It takes
    /// no memory.
    pub fn find_field(&self, c: ClassId, name: &Name, desc: &Name) -> FieldAt
        requires { c.0 < length self.now }
        ensures { FindsField self.now name.now desc.now c.0 result }
    {
        fields::find_field(&self.tables, c.0, name, desc)
    }

    /// Where the look-up of a method that is named in a class ends: the first declaration in the class
    /// and its program superclasses upwards, else the one method with code that is left among the
    /// superinterfaces (JVM specification 5.4.3.3, but that an abstract method hides none here), else the
    /// library. It takes no memory.
    pub fn find_method(&self, c: ClassId, name: &Name, desc: &Name) -> MethodAt
        requires { c.0 < length self.now }
        ensures { Finds self.now NoMethod name.now desc.now c.0 result }
    {
        methods::find(&self.tables, Skip::NoMethod, c.0, name, desc)
    }

    /// What a virtual call selects on an object of a class (JVM specification 6.5, invokevirtual):
    /// where the look-up ends that passes over private and static methods. It takes no memory.
    pub fn select(&self, k: ClassId, name: &Name, desc: &Name) -> MethodAt
        requires { k.0 < length self.now }
        ensures { Finds self.now NotVirtual name.now desc.now k.0 result }
    {
        methods::find(&self.tables, Skip::NotVirtual, k.0, name, desc)
    }
}
