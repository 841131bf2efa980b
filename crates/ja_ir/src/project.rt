ghost use Rattle.std.specs.Prelude.{◌≡◌, ◌<◌, IfOk, List, if◌then◌else◌, map};
ghost use Rattle.ja_ir.specs.Categories as categories;
ghost use Rattle.ja_ir.specs.Categories.{category_count, projected};

use crate::copy::{
    copy_classes, copy_desc, copy_fields, copy_handlers, copy_result, copy_sites, copy_types,
};
use crate::{CallOp, Entries, Entry, Instr, Instrs, LibRow, Method, Methods, Op, Program, RowFlow};
use ja_base::{Memory, Seq, copy_names};
use std::alloc::Global;

impl Program {
    /// The program that the analysis of one category of marks, which there is, looks at: a row that always
    /// makes marks, but none of the category, has them from its arguments alone, and an entry whose marks
    /// lack the category has no marked position. All else is copied.
    pub fn project(&self, alloc: Global, category: u32) -> Result<Program, Memory>
        requires { category < category_count self.now }
        ensures { IfOk result (λ program. program ≡ projected category self.now) }
    {
        let parts = self.parts();
        let classes = copy_classes(alloc, parts.classes.as_slice())?;
        let methods = methods_in(alloc, parts.methods.as_slice(), category)?;
        let fields = copy_fields(alloc, parts.fields.as_slice())?;
        let entries = entries_in(alloc, parts.entries.as_slice(), category)?;
        let sites = copy_sites(alloc, parts.sites.as_slice())?;
        let names = copy_names(alloc, parts.categories.as_slice())?;
        Ok(Program::new(classes, methods, fields, entries, sites, names))
    }
}

/// Whether a category is among those that are flagged.
fn has_category(flags: &[bool], category: u32) -> bool
    ensures { result ≡ categories.has_category flags.now category }
{
    flags.get(category as usize).copied().unwrap_or(false)
}

/// The methods, as a category sees them.
fn methods_in(alloc: Global, methods: &[Method], category: u32) -> Result<Methods, Memory>
    ensures { IfOk result (λ list. list ≡ map (categories.method_in category) methods.now) }
{
    let mut list = Seq::new(alloc);
    for method in methods {
        list.push(method_in(alloc, method, category)?)?;
    }
    Ok(list)
}

/// A method, as a category sees it.
fn method_in(alloc: Global, method: &Method, category: u32) -> Result<Method, Memory>
    ensures { IfOk result (λ copy. copy ≡ categories.method_in category method.now) }
{
    let name = method.name.copy(alloc)?;
    let desc = method.desc.copy(alloc)?;
    let types = copy_desc(alloc, &method.types)?;
    let code = code_in(alloc, method.code.as_slice(), category)?;
    let handlers = copy_handlers(alloc, method.handlers.as_slice())?;
    Ok(Method {
        class: method.class,
        name,
        desc,
        types,
        flags: method.flags,
        locals: method.locals,
        stack: method.stack,
        code,
        handlers,
    })
}

/// The instructions, as a category sees them.
fn code_in(alloc: Global, code: &[Instr], category: u32) -> Result<Instrs, Memory>
    ensures { IfOk result (λ list. list ≡ map (categories.instr_in category) code.now) }
{
    let mut list = Seq::new(alloc);
    for instr in code {
        list.push(instr_in(alloc, instr, category)?)?;
    }
    Ok(list)
}

/// An instruction, as a category sees it.
fn instr_in(alloc: Global, instr: &Instr, category: u32) -> Result<Instr, Memory>
    ensures { IfOk result (λ copy. copy ≡ categories.instr_in category instr.now) }
{
    let op = op_in(alloc, &instr.op, category)?;
    let next = instr.next.copy(alloc)?;
    Ok(Instr {
        pc: instr.pc,
        op,
        next,
        height: instr.height,
        reached: instr.reached,
    })
}

/// An operation, as a category sees it.
fn op_in(alloc: Global, op: &Op, category: u32) -> Result<Op, Memory>
    ensures { IfOk result (λ copy. copy ≡ categories.op_in category op.now) }
{
    match op {
        Op::Call(call) => {
            let call = call_in(alloc, call, category)?;
            Ok(Op::Call(call))
        }
        Op::Shuffle { pops, pushes } => {
            let pushes = Seq::copy_of(alloc, pushes.as_slice())?;
            Ok(Op::Shuffle {
                pops: *pops,
                pushes,
            })
        }
        Op::Cast(name) => {
            let name = name.copy(alloc)?;
            Ok(Op::Cast(name))
        }
        Op::Nop => Ok(Op::Nop),
        Op::Const(kind) => Ok(Op::Const(*kind)),
        Op::Text => Ok(Op::Text),
        Op::New(token) => Ok(Op::New(*token)),
        Op::Load(kind, local) => Ok(Op::Load(*kind, *local)),
        Op::Store(kind, local) => Ok(Op::Store(*kind, *local)),
        Op::ArrLoad(kind) => Ok(Op::ArrLoad(*kind)),
        Op::ArrStore(kind) => Ok(Op::ArrStore(*kind)),
        Op::Mix {
            pops,
            result,
            throws,
        } => Ok(Op::Mix {
            pops: *pops,
            result: *result,
            throws: *throws,
        }),
        Op::Branch { pops } => Ok(Op::Branch { pops: *pops }),
        Op::Return(kind) => Ok(Op::Return(*kind)),
        Op::GetStatic(field) => Ok(Op::GetStatic(*field)),
        Op::PutStatic(field) => Ok(Op::PutStatic(*field)),
        Op::GetField(field) => Ok(Op::GetField(*field)),
        Op::PutField(field) => Ok(Op::PutField(*field)),
        Op::NewArray { last, dimensions } => Ok(Op::NewArray {
            last: *last,
            dimensions: *dimensions,
        }),
        Op::ArrLen => Ok(Op::ArrLen),
        Op::Throw => Ok(Op::Throw),
        Op::InstanceOf => Ok(Op::InstanceOf),
        Op::Monitor => Ok(Op::Monitor),
    }
}

/// A call, as a category sees it.
fn call_in(alloc: Global, call: &CallOp, category: u32) -> Result<CallOp, Memory>
    ensures { IfOk result (λ copy. copy ≡ categories.call_in category call.now) }
{
    let class = call.class.copy(alloc)?;
    let name = call.name.copy(alloc)?;
    let desc = call.desc.copy(alloc)?;
    let params = copy_types(alloc, call.params.as_slice())?;
    let result = copy_result(alloc, &call.result)?;
    let row = row_in(alloc, &call.row, category)?;
    Ok(CallOp {
        kind: call.kind,
        class,
        name,
        desc,
        params,
        result,
        row,
        found: call.found,
    })
}

/// A row, as a category sees it.
fn row_in(alloc: Global, row: &LibRow, category: u32) -> Result<LibRow, Memory>
    ensures { IfOk result (λ copy. copy ≡ categories.row_in category row.now) }
{
    let marks = row.marks.as_slice();
    let flow = flow_for(has_category(marks, category), row.flow);
    let sinks = Seq::copy_of(alloc, row.sinks.as_slice())?;
    let marks = Seq::copy_of(alloc, marks)?;
    Ok(LibRow {
        flow,
        effect: row.effect,
        result: row.result,
        sinks,
        marks,
        category: row.category,
    })
}

/// A flow, as a category sees it that it marks or does not.
fn flow_for(marks: bool, flow: RowFlow) -> RowFlow
    ensures { result ≡ categories.flow_for marks flow }
{
    match (marks, flow) {
        (false, RowFlow::Always) => RowFlow::Args,
        _ => flow,
    }
}

/// The entries, as a category sees them.
fn entries_in(alloc: Global, entries: &[Entry], category: u32) -> Result<Entries, Memory>
    ensures { IfOk result (λ list. list ≡ map (categories.entry_in category) entries.now) }
{
    let mut list = Seq::new(alloc);
    for entry in entries {
        list.push(entry_in(alloc, entry, category)?)?;
    }
    Ok(list)
}

/// An entry, as a category sees it.
fn entry_in(alloc: Global, entry: &Entry, category: u32) -> Result<Entry, Memory>
    ensures { IfOk result (λ copy. copy ≡ categories.entry_in category entry.now) }
{
    let marks = entry.marks.as_slice();
    let positions = if has_category(marks, category) {
        entry.marked.as_slice()
    } else {
        &[]
    };
    let marked = Seq::copy_of(alloc, positions)?;
    let marks = Seq::copy_of(alloc, marks)?;
    Ok(Entry {
        class: entry.class,
        method: entry.method,
        marked,
        marks,
    })
}
