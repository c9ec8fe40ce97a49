//! Loops: their turns are reserved, and filled once their bodies stand.

ghost use Rattle.std.specs.Prelude.{◌≡◌, ◌<◌, ◌^◌, IfOk, option_map};
ghost use Rattle.c_tree.specs.Blocks.{if_any, first_contents};
ghost use Rattle.c_tree.specs.Room.{height, greatest_height};
ghost use Rattle.c_tree.specs.View.{expression_of, first_of};
ghost use Rattle.program_lowering.specs.StatementParts.Counting.{parts_with};
ghost use Rattle.program_lowering.specs.StatementParts.Loops.{Waits, Filled, HeadCode, ForHeadCode, LoopAdded};
ghost use Rattle.program_lowering.specs.StatementParts.Loops.{ForTailCode};

use crate::expressions::Emitter;
use crate::parts::block::{enter, leave};
use crate::parts::counted::Range;
use crate::parts::exits::{BlockExits, Exits};
use crate::parts::initializer::{condition, first, part};
use c_tree::{Expression, First, Variable};
use sb_base::Line;
use std::alloc::{AllocError, Global};
use tac_ir::{CountedLoop, Instruction, Span};

/// What stands in the parentheses of a `for`, with its line: its first part, its condition and its step.
#[derive(Clone, Copy)]
pub struct ForClauses<'a> {
    pub line: Line,
    pub first: &'a First,
    pub condition: &'a Option<Expression>,
    pub step: &'a Option<Expression>,
}

/// A loop whose condition stands: the node that its turn will have, and where its condition begins.
#[derive(Clone, Copy)]
pub struct LoopHead {
    pub turn: usize,
    pub condition: usize,
}

/// A `for` whose condition and step stand: its block with the exits of its body, the node that its turn will have, and
/// where its condition and its step begin.
#[derive(Clone, Copy)]
pub struct ForHead {
    pub inside: BlockExits,
    pub turn: usize,
    pub condition: usize,
    pub step: usize,
}

/// The body of a `for`: where it begins, and its nodes.
#[derive(Clone, Copy)]
pub struct LoopBody {
    pub entry: usize,
    pub nodes: Span,
}

/// Fills a node that was reserved.
#[tactic(auto, using(crate::proofs::StatementParts::LoopParts::filling))]
pub fn fill(code: &mut Emitter, node: usize, instruction: Instruction)
    requires { Waits code.old node }
    ensures { Filled code.old code.new node instruction }
{
    code.code[node] = instruction;
}

/// The condition of a `while` or a `do`, which leads to the turn that will be at a node, or out of the loop.
#[tactic(auto, using(crate::proofs::StatementParts::LoopParts::heads))]
pub fn test_turn(code: &mut Emitter, e: &Expression, fails: usize) -> Result<LoopHead, AllocError>
    requires { height (expression_of e.now) < 2 ^ 64 }
    ensures { IfOk result (λ h. HeadCode code.old code.new (expression_of e.now) h.turn h.condition fails) }
{
    let turn = code.add(Instruction::Reserved)?;
    let branch = code.add(Instruction::Branch {
        from: 0,
        not_zero: turn,
        zero: fails,
    })?;
    let condition = code.expression(e, 0, branch)?;
    Ok(LoopHead { turn, condition })
}

/// The exits of a `for`, with its condition and its step.
pub fn for_parts(
    code: &mut Emitter,
    variables: &[Variable],
    numbers: &[usize],
    clauses: &ForClauses,
    x: Exits,
) -> Result<ForHead, AllocError>
    requires condition { greatest_height (if_any (option_map expression_of clauses.now.condition.now)) < 2 ^ 64 }
    requires step { greatest_height (if_any (option_map expression_of clauses.now.step.now)) < 2 ^ 64 }
    ensures { IfOk result (λ h. ForHeadCode variables.now code.old code.new numbers.now
        (option_map expression_of clauses.now.condition.now) (option_map expression_of clauses.now.step.now) h x) }
{
    let inside = leave(code, variables, numbers, x)?;
    let turn = code.add(Instruction::Reserved)?;
    let condition = condition(code, clauses.condition, turn, inside.exits.next)?;
    let step = part(code, clauses.step, condition)?;
    Ok(ForHead {
        inside,
        turn,
        condition,
        step,
    })
}

// The number of a counted loop in the table, with the nodes where its parts begin, and those of its body.
#[tactic(auto, using(crate::proofs::StatementParts::LoopParts::loops_added))]
fn add_loop(
    code: &mut Emitter,
    range: Option<Range>,
    setting: usize,
    h: ForHead,
    body: Span,
) -> Result<Option<usize>, AllocError>
    ensures { IfOk result (λ n. LoopAdded code.old code.new (parts_with range) setting h body n) }
{
    match range {
        None => Ok(None),
        Some(range) => {
            let number = code.loops.len();
            code.loops.push(CountedLoop {
                variable: range.variable,
                start: range.start,
                bound: range.bound,
                setting,
                condition: h.condition,
                turn: h.turn,
                step: h.step,
                body,
                added: Span { start: 0, end: 0 },
            })?;
            Ok(Some(number))
        }
    }
}

/// The first part of a `for` whose body stands, with its turn filled, and its block entered.
#[tactic(auto, using(crate::proofs::StatementParts::LoopParts::for_tails))]
pub fn for_tail(
    code: &mut Emitter,
    clauses: &ForClauses,
    range: Option<Range>,
    h: ForHead,
    body: LoopBody,
) -> Result<usize, AllocError>
    requires height { greatest_height (first_contents (first_of clauses.now.first.now)) < 2 ^ 64 }
    requires waits { Waits code.old h.turn }
    ensures { IfOk result (λ n. ForTailCode code.old code.new clauses.now.line (first_of clauses.now.first.now)
        (parts_with range) h body.entry body.nodes n) }
{
    let setting = first(code, clauses.first, h.condition)?;
    let counted = add_loop(code, range, setting, h, body.nodes)?;
    fill(
        code,
        h.turn,
        Instruction::Turn {
            counted,
            next: body.entry,
        },
    );
    let entry = enter(code, h.inside.block, clauses.line, setting)?;
    Ok(entry)
}
