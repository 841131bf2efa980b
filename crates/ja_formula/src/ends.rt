ghost use Rattle.std.specs.Prelude.{◌≡◌, ◌<◌, ◌↔◌, ◌&&◌, true, false, Some, IfOk, IfErr, length, slice_get};
ghost use Rattle.ja_ir.specs.Lookup.{code_of, instr_at};
ghost use Rattle.ja_node_core.specs.Tree.{Assignment as Variables};
ghost use Rattle.ja_node_table.specs.Seats.{aim_of};
ghost use Rattle.ja_bdd.specs.Meaning.{meaning, IsMeant, Keeps};
ghost use Rattle.ja_bdd.specs.Workers.{IsWorkerOf, seen};
ghost use Rattle.ja_facts.specs.Formulas.{IsNormalEnd, IsExceptionalEnd};
ghost use Rattle.ja_work.specs.declared.frame.Frame.{Frame};
ghost use Rattle.ja_work.specs.Ends as clauses;
ghost use Rattle.ja_work.specs.Frames.{read, whole};
ghost use Rattle.ja_work.specs.Thrown.{ends_by};
ghost use Rattle.ja_work.specs.Told.{told};
ghost use Rattle.ja_clauses.specs.Tables.{AreShaped, tests_by};
ghost use Rattle.ja_formula.specs.Formulas.{HasSlotsOf, normal_formula, thrown_formula};
ghost use Rattle.ja_formula.specs.Made.{IsRulePart, IsNormalPart, IsThrownPart, AreAimed, LacksRoomFor};
ghost use Rattle.ja_formula.specs.Inner.{clauses_by, has_end, IsRoomy, late_of};

use crate::rule::{End, Rule};
use crate::whole::rule_node;
use ja_base::MethodId;
use ja_bdd::Worker;
use ja_clauses::{Before, may_end, may_go_on};
use ja_facts::Facts;
use ja_ir::{Instr, Op, Program};
use ja_node_core::Aim;
use ja_node_table::{Full, Node, NodeTable};
use ja_work::{Frame, Way};

/// Instruction `i` of method `m`.
fn instruction(program: &Program, m: MethodId, i: u32) -> &Instr
    requires method { m.0 < length program.now.methods }
    requires index { i < length (code_of (slice_get program.now.methods m.0)) }
    ensures found { instr_at program.now m.0 i ≡ Some result.now }
    ensures roomy { (frame : Frame) → HasSlotsOf program.now m.0 frame → result.now.reached ≡ true → IsRoomy frame result.now }
{
    program.methods().at(m.0 as u64).code.at(i as u64)
}

/// Whether an instruction has a normal end, at a call one of its library part.
fn has_normal_end(before: &Before, instr: &Instr) -> bool
    ensures { result ≡ (instr.now.reached && clauses.may_go_on (tests_by before.now) instr.now.op) }
{
    instr.reached && may_go_on(before, &instr.op)
}

/// An end of an instruction, which has it.
fn end_node<A: Aim>(
    worker: &mut Worker<A>,
    table: &NodeTable<A>,
    frame: &Frame,
    before: &Before,
    instr: &Instr,
    end: End,
) -> Result<Node, Full<A>>
    requires worker { IsWorkerOf table.now worker.old }
    requires roomy { IsRoomy frame.now instr.now }
    requires there { has_end (tests_by before.now) instr.now.op end ≡ true }
    requires aim { AreAimed (A.aims (aim_of table.now)) (IsRulePart frame.now (clauses_by end (tests_by before.now) instr.now.op instr.now.height)) }
    ensures worker { IsWorkerOf table.now worker.new }
    ensures keeps { Keeps (seen worker.old) (seen worker.new) }
    ensures ok { IfOk result (λ n. IsMeant (seen worker.new) n.number (whole frame.now (clauses_by end (tests_by before.now) instr.now.op instr.now.height))) }
    ensures full { IfErr result (LacksRoomFor table.now (seen worker.new) (IsRulePart frame.now (clauses_by end (tests_by before.now) instr.now.op instr.now.height))) }
{
    let rule = Rule {
        end,
        before,
        op: &instr.op,
        height: instr.height,
    };
    rule_node(worker, table, frame, &rule)
}

/// An exceptional end of an instruction of some way; the constant false where it has none of it.
fn way_node<A: Aim>(
    worker: &mut Worker<A>,
    table: &NodeTable<A>,
    frame: &Frame,
    before: &Before,
    instr: &Instr,
    way: Way,
) -> Result<Node, Full<A>>
    requires worker { IsWorkerOf table.now worker.old }
    requires roomy { IsRoomy frame.now instr.now }
    requires aim { clauses.may_end (tests_by before.now) instr.now.op way ≡ true → AreAimed (A.aims (aim_of table.now)) (IsRulePart frame.now (clauses.exceptional_clauses way (tests_by before.now) instr.now.op instr.now.height)) }
    ensures worker { IsWorkerOf table.now worker.new }
    ensures keeps { Keeps (seen worker.old) (seen worker.new) }
    ensures ok { IfOk result (λ n. IsMeant (seen worker.new) n.number (ends_by frame.now (tests_by before.now) instr.now.op instr.now.height way)) }
    ensures full { IfErr result (λ e. (clauses.may_end (tests_by before.now) instr.now.op way ≡ true) × LacksRoomFor table.now (seen worker.new) (IsRulePart frame.now (clauses.exceptional_clauses way (tests_by before.now) instr.now.op instr.now.height)) e) }
{
    if !may_end(before, &instr.op, way) {
        return Ok(Node::FALSE);
    }
    match end_node(worker, table, frame, before, instr, End::Exceptional(way)) {
        Ok(node) => Ok(node),
        Err(full) => Err(full),
    }
}

/// The way in which an operation may end by an exception after it has begun.
fn late_way(op: &Op) -> Way
    ensures { result ≡ late_of op.now }
{
    match op {
        Op::Throw => Way::Thrown,
        _ => Way::InLibrary,
    }
}

/// The node of the normal end of instruction `i` of method `m`, at a call of that of its library part,
/// over the copies of the frame's variables at present and next.
///
/// It is the constant false where the instruction is not reached or has no normal end. The frame is the
/// method's, and the tables have a set for each instruction. `Full` comes only for a word under a part of
/// the clauses of that end. It takes no memory.
pub fn formula<A: Aim>(
    worker: &mut Worker<A>,
    table: &NodeTable<A>,
    program: &Program,
    facts: &Facts,
    frame: &Frame,
    m: MethodId,
    i: u32,
) -> Result<Node, Full<A>>
    requires worker { IsWorkerOf table.now worker.old }
    requires shaped { AreShaped program.now facts.now }
    requires frame { HasSlotsOf program.now m.0 frame.now }
    requires method { m.0 < length program.now.methods }
    requires index { i < length (code_of (slice_get program.now.methods m.0)) }
    requires aim { AreAimed (A.aims (aim_of table.now)) (IsNormalPart program.now facts.now frame.now m.0 i) }
    ensures worker { IsWorkerOf table.now worker.new }
    ensures keeps { Keeps (seen worker.old) (seen worker.new) }
    ensures ok { IfOk result (λ n. IsMeant (seen worker.new) n.number (normal_formula program.now facts.now frame.now m.0 i)) }
    ensures means { IfOk result (λ n. (a : Variables) → (meaning (seen worker.new) n.number a ≡ true) ↔ IsNormalEnd program.now (told program.now facts.now) m.0 i (read frame.now 1 a) (read frame.now 2 a)) }
    ensures full { IfErr result (LacksRoomFor table.now (seen worker.new) (IsNormalPart program.now facts.now frame.now m.0 i)) }
{
    let instr = instruction(program, m, i);
    let before = Before::of(program, facts, m, i);
    if !has_normal_end(&before, instr) {
        return Ok(Node::FALSE);
    }
    match end_node(worker, table, frame, &before, instr, End::Normal) {
        Ok(node) => Ok(node),
        Err(full) => Err(full),
    }
}

/// The node of the exceptional end of instruction `i` of method `m`, over the copies of the frame's
/// variables at present and next: of an exception of its own, and not of one from a method that it calls.
///
/// It is the constant false where the instruction is not reached or has no such end. The frame is the
/// method's, and the tables have a set for each instruction. `Full` comes only for a word under a part of
/// the clauses of such an end, or under the whole end. It takes no memory.
pub fn formula_thrown<A: Aim>(
    worker: &mut Worker<A>,
    table: &NodeTable<A>,
    program: &Program,
    facts: &Facts,
    frame: &Frame,
    m: MethodId,
    i: u32,
) -> Result<Node, Full<A>>
    requires worker { IsWorkerOf table.now worker.old }
    requires shaped { AreShaped program.now facts.now }
    requires frame { HasSlotsOf program.now m.0 frame.now }
    requires method { m.0 < length program.now.methods }
    requires index { i < length (code_of (slice_get program.now.methods m.0)) }
    requires aim { AreAimed (A.aims (aim_of table.now)) (IsThrownPart program.now facts.now frame.now m.0 i) }
    ensures worker { IsWorkerOf table.now worker.new }
    ensures keeps { Keeps (seen worker.old) (seen worker.new) }
    ensures ok { IfOk result (λ n. IsMeant (seen worker.new) n.number (thrown_formula program.now facts.now frame.now m.0 i)) }
    ensures means { IfOk result (λ n. (a : Variables) → (meaning (seen worker.new) n.number a ≡ true) ↔ IsExceptionalEnd program.now (told program.now facts.now) m.0 i (read frame.now 1 a) (read frame.now 2 a)) }
    ensures full { IfErr result (LacksRoomFor table.now (seen worker.new) (IsThrownPart program.now facts.now frame.now m.0 i)) }
{
    let instr = instruction(program, m, i);
    let before = Before::of(program, facts, m, i);
    if !instr.reached {
        return Ok(Node::FALSE);
    }
    let late = match way_node(worker, table, frame, &before, instr, late_way(&instr.op)) {
        Ok(late) => late,
        Err(full) => return Err(full),
    };
    let clean = match way_node(worker, table, frame, &before, instr, Way::Clean) {
        Ok(clean) => clean,
        Err(full) => return Err(full),
    };
    match worker.or(table, clean, late) {
        Ok(node) => Ok(node),
        Err(full) => Err(full),
    }
}
