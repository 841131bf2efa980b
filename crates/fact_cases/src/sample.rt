//! The whole program of the definitions, made in memory.
ghost use Rattle.std.specs.Prelude.{◌≡◌, ◌++◌, [], ◌∷◌, None, true, codes, IfOk, OnOk};
ghost use Rattle.ja_ir.specs.declared.op.Op.TheVariants.{Return};
ghost use Rattle.ja_ir.specs.Examples.{method, at};
ghost use Rattle.ja_ir.specs.Sample.{sink, main, constructor, member, without_code, initializer, selected, sample};

use ja_base::{
    ClassId, Desc, Flags, JavaType, JavaTypes, Kind, Memory, MethodId, Name, Numbers, Seq,
};
use ja_ir::{
    CallKind, CallOp, Catch, ClassIds, ClassInfo, ClassInfos, Entries, Entry, Field, Fields,
    Handler, Handlers, Instr, Instrs, LibRow, Method, MethodAt, MethodIds, Methods, Op, Program,
    RowEffect, RowFlow, RowResult, Selection, Selections, Site, Sites, Successors,
    law_sample_is_whole,
};
use std::alloc::Global;

/// The static method of four instructions.
pub const MAIN: MethodId = MethodId(0);

/// The constructor.
pub const CONSTRUCTOR: MethodId = MethodId(1);

/// The method with a receiver.
pub const MEMBER: MethodId = MethodId(2);

/// The method without code.
pub const WITHOUT_CODE: MethodId = MethodId(3);

/// A reached instruction with this operation.
fn instr(alloc: Global, pc: u32, op: Op, next: &[u64], height: u32) -> Result<Instr, Memory>
    ensures { IfOk result (λ x. x ≡ at pc op next.now height) }
{
    let next = Successors::of(alloc, next)?;
    Ok(Instr {
        pc,
        op,
        next,
        height,
        reached: true,
    })
}

/// Marks of the one category.
fn marks(alloc: Global) -> Result<Flags, Memory>
    ensures { IfOk result (λ marks. marks ≡ true ∷ []) }
{
    let mut marks = Seq::new(alloc);
    marks.push(true)?;
    Ok(marks)
}

/// The position of the first argument.
fn first_position(alloc: Global) -> Result<Numbers, Memory>
    ensures { IfOk result (λ positions. positions ≡ 0 ∷ []) }
{
    let mut positions = Seq::new(alloc);
    positions.push(0)?;
    Ok(positions)
}

/// The row of a sink.
fn sink_row(alloc: Global) -> Result<LibRow, Memory>
    ensures { IfOk result (λ row. row ≡ sink.row) }
{
    let sinks = first_position(alloc)?;
    let marks = marks(alloc)?;
    Ok(LibRow {
        flow: RowFlow::Never,
        effect: RowEffect::Quiet,
        result: RowResult::Fresh,
        sinks,
        marks,
        category: 0,
    })
}

/// The type of a number, as the one parameter of the sink.
fn number_params(alloc: Global) -> Result<JavaTypes, Memory>
    ensures { IfOk result (λ params. params ≡ sink.params) }
{
    let name = Name::of(alloc, b"I")?;
    let mut params = Seq::new(alloc);
    params.push(JavaType {
        kind: Kind::P1,
        name,
    })?;
    Ok(params)
}

/// A call of a sink of one number.
fn sink(alloc: Global) -> Result<CallOp, Memory>
    ensures { IfOk result (λ call. call ≡ sink) }
{
    let class = Name::of(alloc, b"demo/Taint")?;
    let name = Name::of(alloc, b"sink")?;
    let desc = Name::of(alloc, b"(I)V")?;
    let params = number_params(alloc)?;
    let row = sink_row(alloc)?;
    Ok(CallOp {
        kind: CallKind::Static,
        class,
        name,
        desc,
        params,
        result: None,
        row,
        found: Some(MethodAt::Library),
    })
}

/// A method of the class, without parameters and a result.
fn method(
    alloc: Global,
    name: &[u8],
    flags: u32,
    locals: u32,
    stack: u32,
    code: Instrs,
    handlers: Handlers,
) -> Result<Method, Memory>
    ensures { IfOk result (λ m. m ≡ method 0 name.now flags locals stack code handlers) }
{
    let name = Name::of(alloc, name)?;
    let desc = Name::of(alloc, b"()V")?;
    Ok(Method {
        class: ClassId(0),
        name,
        desc,
        types: Desc {
            params: Seq::new(alloc),
            result: None,
            words: 0,
        },
        flags,
        locals,
        stack,
        code,
        handlers,
    })
}

/// Adds a reached instruction with this operation.
fn add(
    code: &mut Instrs,
    alloc: Global,
    pc: u32,
    op: Op,
    next: &[u64],
    height: u32,
) -> Result<(), Memory>
    ensures { OnOk result (code.new ≡ code.old ++ at pc op next.now height ∷ []) }
{
    let instr = instr(alloc, pc, op, next, height)?;
    code.push(instr)
}

/// The code that gives a number to the sink, and throws again what the call throws.
fn main_code(alloc: Global) -> Result<Instrs, Memory>
    ensures { IfOk result (λ code. code ≡ main.code) }
{
    let mut code = Seq::new(alloc);
    add(&mut code, alloc, 0, Op::Const(Kind::P1), &[1], 0)?;
    let sink = sink(alloc)?;
    add(&mut code, alloc, 1, Op::Call(sink), &[2], 1)?;
    add(&mut code, alloc, 2, Op::Return(None), &[], 0)?;
    add(&mut code, alloc, 3, Op::Throw, &[], 1)?;
    Ok(code)
}

/// The handler of all that the first two instructions throw.
fn main_handlers(alloc: Global) -> Result<Handlers, Memory>
    ensures { IfOk result (λ handlers. handlers ≡ main.handlers) }
{
    let mut handlers = Seq::new(alloc);
    handlers.push(Handler {
        start: 0,
        end: 2,
        target: 3,
        catch: Catch::All,
    })?;
    Ok(handlers)
}

/// The method that gives a number to the sink, and throws again what the call throws.
fn main(alloc: Global) -> Result<Method, Memory>
    ensures { IfOk result (λ m. m ≡ main) }
{
    let code = main_code(alloc)?;
    let handlers = main_handlers(alloc)?;
    method(alloc, b"main", 0x0009, 0, 1, code, handlers)
}

/// The code that returns at once.
fn return_code(alloc: Global) -> Result<Instrs, Memory>
    ensures { IfOk result (λ code. code ≡ at 0 (Return None) [] 0 ∷ []) }
{
    let mut code = Seq::new(alloc);
    add(&mut code, alloc, 0, Op::Return(None), &[], 0)?;
    Ok(code)
}

/// A method with a receiver that returns at once.
fn returns(alloc: Global, name: &[u8]) -> Result<Method, Memory>
    ensures { IfOk result (λ m. m ≡ method 0 name.now 1 1 0 (at 0 (Return None) [] 0 ∷ []) []) }
{
    let code = return_code(alloc)?;
    method(alloc, name, 0x0001, 1, 0, code, Seq::new(alloc))
}

/// The method without code.
fn without_code(alloc: Global) -> Result<Method, Memory>
    ensures { IfOk result (λ m. m ≡ without_code) }
{
    let (code, handlers) = (Seq::new(alloc), Seq::new(alloc));
    method(alloc, b"n", 0x0401, 0, 0, code, handlers)
}

/// The class initialiser, which returns at once.
fn initializer(alloc: Global) -> Result<Method, Memory>
    ensures { IfOk result (λ m. m ≡ initializer) }
{
    let code = return_code(alloc)?;
    method(alloc, b"<clinit>", 0x0008, 0, 0, code, Seq::new(alloc))
}

/// The first two methods.
fn first_methods(alloc: Global) -> Result<Methods, Memory>
    ensures { IfOk result (λ list. list ≡ main ∷ constructor ∷ []) }
{
    let mut list = Seq::new(alloc);
    let first = main(alloc)?;
    list.push(first)?;
    let second = returns(alloc, b"<init>")?;
    list.push(second)?;
    Ok(list)
}

/// Adds the method with a receiver, and the one without code.
fn add_methods(list: &mut Methods, alloc: Global) -> Result<(), Memory>
    ensures { OnOk result (list.new ≡ list.old ++ member ∷ without_code ∷ []) }
{
    let third = returns(alloc, b"m")?;
    list.push(third)?;
    let fourth = without_code(alloc)?;
    list.push(fourth)
}

fn methods(alloc: Global) -> Result<Methods, Memory>
    ensures { IfOk result (λ list. list ≡ sample.methods) }
{
    let mut list = first_methods(alloc)?;
    add_methods(&mut list, alloc)?;
    let last = initializer(alloc)?;
    list.push(last)?;
    Ok(list)
}

/// What is selected for a name.
fn selection(alloc: Global, name: &[u8], target: MethodAt) -> Result<Selection, Memory>
    ensures { IfOk result (λ s. s ≡ record { name = name.now; desc = codes "()V"; target = target }) }
{
    let name = Name::of(alloc, name)?;
    let desc = Name::of(alloc, b"()V")?;
    Ok(Selection { name, desc, target })
}

fn selections(alloc: Global) -> Result<Selections, Memory>
    ensures { IfOk result (λ list. list ≡ selected) }
{
    let mut list = Seq::new(alloc);
    let first = selection(alloc, b"m", MethodAt::Program(MethodId(2)))?;
    list.push(first)?;
    let second = selection(alloc, b"n", MethodAt::Abstract(MethodId(3)))?;
    list.push(second)?;
    Ok(list)
}

/// The class above the class: itself.
fn supers(alloc: Global) -> Result<ClassIds, Memory>
    ensures { IfOk result (λ list. list ≡ record { 0 = 0 } ∷ []) }
{
    let mut list = Seq::new(alloc);
    list.push(ClassId(0))?;
    Ok(list)
}

/// The class initialiser of the class.
fn inits(alloc: Global) -> Result<MethodIds, Memory>
    ensures { IfOk result (λ list. list ≡ record { 0 = 4 } ∷ []) }
{
    let mut list = Seq::new(alloc);
    list.push(MethodId(4))?;
    Ok(list)
}

/// The class.
fn class(alloc: Global) -> Result<ClassInfo, Memory>
    ensures { IfOk result (λ class. sample.classes ≡ class ∷ []) }
{
    let name = Name::of(alloc, b"A")?;
    let file = Name::of(alloc, b"A")?;
    let supers = supers(alloc)?;
    let selections = selections(alloc)?;
    let inits = inits(alloc)?;
    Ok(ClassInfo {
        name,
        file,
        flags: 0x0421,
        absorbing: false,
        supers,
        selections,
        inits,
    })
}

fn classes(alloc: Global) -> Result<ClassInfos, Memory>
    ensures { IfOk result (λ list. list ≡ sample.classes) }
{
    let class = class(alloc)?;
    let mut list = Seq::new(alloc);
    list.push(class)?;
    Ok(list)
}

fn fields(alloc: Global) -> Result<Fields, Memory>
    ensures { IfOk result (λ list. list ≡ sample.fields) }
{
    let name = Name::of(alloc, b"a")?;
    let desc = Name::of(alloc, b"I")?;
    let mut list = Seq::new(alloc);
    list.push(Field {
        class: ClassId(0),
        name,
        desc,
        flags: 0,
        text: false,
    })?;
    Ok(list)
}

/// What the environment may call: a method on an object of the class, or a static one.
fn entry(alloc: Global, method: u32) -> Result<Entry, Memory>
    ensures { IfOk result (λ e. e ≡ record { class = record { 0 = 0 }; method = record { 0 = method }; marked = []; marks = true ∷ [] }) }
{
    let marks = marks(alloc)?;
    Ok(Entry {
        class: ClassId(0),
        method: MethodId(method),
        marked: Seq::new(alloc),
        marks,
    })
}

fn entries(alloc: Global) -> Result<Entries, Memory>
    ensures { IfOk result (λ list. list ≡ sample.entries) }
{
    let mut list = Seq::new(alloc);
    let first = entry(alloc, 0)?;
    list.push(first)?;
    let second = entry(alloc, 2)?;
    list.push(second)?;
    Ok(list)
}

fn sites(alloc: Global) -> Result<Sites, Memory>
    ensures { IfOk result (λ list. list ≡ sample.sites) }
{
    let positions = first_position(alloc)?;
    let target = Name::of(alloc, b"demo/Taint.sink(I)V")?;
    let mut list = Seq::new(alloc);
    list.push(Site {
        method: MethodId(0),
        index: 1,
        positions,
        target,
        category: 0,
    })?;
    Ok(list)
}

/// The program: one class, one field, and five methods of 4, 1, 1, 0 and 1 instructions.
pub fn sample(alloc: Global) -> Result<Program, Memory>
    ensures { IfOk result (λ p. p ≡ sample) }
{
    law_sample_is_whole();
    let classes = classes(alloc)?;
    let methods = methods(alloc)?;
    let fields = fields(alloc)?;
    let entries = entries(alloc)?;
    let sites = sites(alloc)?;
    let categories = Seq::new(alloc);
    Ok(Program::new(classes, methods, fields, entries, sites, categories))
}
