//! Statements with the statements in them. What is executed last is lowered first.

ghost use Rattle.std.specs.Prelude.{◌≡◌, ◌<◌, ◌^◌, true, IfOk, Some, map, option_map, length};
ghost use Rattle.c_tree.specs.Blocks.{first_contents, if_any};
ghost use Rattle.c_tree.specs.Room.{height, greatest_height};
ghost use Rattle.c_tree.specs.Statements.{block, if_then, if_else, while_do, do_while, for, switch, statements_in};
ghost use Rattle.c_tree.specs.Statements.{items_in};
ghost use Rattle.c_tree.specs.View.{expression_of, first_of, statement_of};
ghost use Rattle.program_lowering.specs.StatementParts.Items.{item_of};
ghost use Rattle.program_lowering.specs.StatementCode.Sizes.{statement_height, each_height, items_height};
ghost use Rattle.program_lowering.specs.StatementCode.Switches.{has_one_default, are_decided, each_decided};
ghost use Rattle.program_lowering.specs.StatementCode.Switches.{items_decided};
ghost use Rattle.program_lowering.specs.StatementCode.Code.{StatementCode, StatementsCode, ItemsCode};

use crate::expressions::Emitter;
use crate::parts::block::{block_variables, enter, first_variables, leave, switch_variables};
use crate::parts::counted::counted_parts;
use crate::parts::exits::Exits;
use crate::parts::loops::{ForClauses, LoopBody, fill, for_parts, for_tail, test_turn};
use crate::statements::labels::{default_start, test_items};
use crate::statements::simple::{branch, declare_all, evaluate, give_back};
use c_tree::{Expression, Statement, SwitchItem, Variable};
use sb_base::Line;
use std::alloc::AllocError;
use tac_ir::{Instruction, Span};

/// Lowers a statement of a function with these variables, which is left for these nodes, and gives the node where it
/// begins. An error comes where there is no memory for it.
#[cycle(lowering)]
#[tactic(auto, using(crate::proofs::StatementCode::SingleStatements::nothing_done))]
pub fn statement(
    code: &mut Emitter,
    variables: &[Variable],
    s: &Statement,
    x: Exits,
) -> Result<usize, AllocError>
    requires height { statement_height (statement_of s.now) < 2 ^ 64 }
    requires decided { are_decided (statement_of s.now) ≡ true }
    ensures { IfOk result (λ n. StatementCode variables.now code.old code.new (statement_of s.now) n x) }
{
    match s {
        Statement::Expression(e) => evaluate(code, variables, e, x),
        Statement::Empty => Ok(x.next),
        Statement::Declaration(declared) => declare_all(code, variables, declared.as_slice(), x),
        Statement::Block(line, body) => block(code, variables, *line, body.as_slice(), x),
        Statement::If(e, body) => if_then(code, variables, e, body.get(), x),
        Statement::IfElse(e, body, other) => {
            if_else(code, variables, e, body.get(), other.get(), x)
        }
        Statement::While(e, body) => while_do(code, variables, e, body.get(), x),
        Statement::DoWhile(body, e) => do_while(code, variables, body.get(), e, x),
        Statement::For(line, first, condition, step, body) => {
            let clauses = ForClauses {
                line: *line,
                first,
                condition,
                step,
            };
            for_loop(code, variables, &clauses, body.get(), x)
        }
        Statement::Switch(e, line, items) => {
            switch(code, variables, e, *line, items.as_slice(), x)
        }
        Statement::Break => Ok(x.breaks),
        Statement::Continue => Ok(x.continues),
        Statement::Return(e) => give_back(code, variables, e, x),
    }
}

/// Statements and declarations in order.
#[cycle(lowering)]
#[tactic(auto, using(crate::proofs::StatementCode::Compound::no_statements_yet))]
pub fn statements(
    code: &mut Emitter,
    variables: &[Variable],
    body: &[Statement],
    x: Exits,
) -> Result<usize, AllocError>
    requires height { each_height (statements_in (map statement_of body.now)) < 2 ^ 64 }
    requires decided { each_decided (statements_in (map statement_of body.now)) ≡ true }
    ensures { IfOk result (λ n. StatementsCode variables.now code.old code.new
        (statements_in (map statement_of body.now)) n x) }
{
    let mut node = x.next;
    for i in (0..body.len()).rev() {
        node = statement(code, variables, &body[i], x.before(node))?;
    }
    Ok(node)
}

// The items of a switch, with the nodes where they begin.
#[cycle(lowering)]
fn switch_items(
    code: &mut Emitter,
    variables: &[Variable],
    items: &[SwitchItem],
    x: Exits,
) -> Result<Vec<usize>, AllocError>
    requires height { items_height (items_in (map item_of items.now)) < 2 ^ 64 }
    requires decided { items_decided (items_in (map item_of items.now)) ≡ true }
    ensures code { IfOk result (λ starts. ItemsCode variables.now code.old code.new (items_in (map item_of items.now))
        starts.items x) }
    ensures length { IfOk result (λ starts. length starts.items ≡ length items.now) }
{
    let mut starts = vec![in code.alloc; x.next; items.len()]?;
    let mut node = x.next;
    for i in (0..items.len()).rev() {
        node = statement(code, variables, &items[i].statement, x.before(node))?;
        starts[i] = node;
    }
    Ok(starts)
}

#[cycle(lowering)]
fn block(
    code: &mut Emitter,
    variables: &[Variable],
    line: Line,
    body: &[Statement],
    x: Exits,
) -> Result<usize, AllocError>
    requires height { each_height (statements_in (map statement_of body.now)) < 2 ^ 64 }
    requires decided { each_decided (statements_in (map statement_of body.now)) ≡ true }
    ensures { IfOk result (λ n. StatementCode variables.now code.old code.new
        (block line (statements_in (map statement_of body.now))) n x) }
{
    let declared = block_variables(code.alloc, body)?;
    let numbers = declared.as_slice();
    let inside = leave(code, variables, numbers, x)?;
    let first = statements(code, variables, body, inside.exits)?;
    let entry = enter(code, inside.block, line, first)?;
    Ok(entry)
}

#[cycle(lowering)]
fn if_then(
    code: &mut Emitter,
    variables: &[Variable],
    e: &Expression,
    body: &Statement,
    x: Exits,
) -> Result<usize, AllocError>
    requires height { statement_height (if_then (expression_of e.now) (statement_of body.now)) < 2 ^ 64 }
    requires decided { are_decided (statement_of body.now) ≡ true }
    ensures { IfOk result (λ n. StatementCode variables.now code.old code.new
        (if_then (expression_of e.now) (statement_of body.now)) n x) }
{
    let taken = statement(code, variables, body, x)?;
    let first = branch(code, e, taken, x.next)?;
    Ok(first)
}

#[cycle(lowering)]
fn if_else(
    code: &mut Emitter,
    variables: &[Variable],
    e: &Expression,
    body: &Statement,
    other: &Statement,
    x: Exits,
) -> Result<usize, AllocError>
    requires height { statement_height (if_else (expression_of e.now) (statement_of body.now) (statement_of other.now))
        < 2 ^ 64 }
    requires decided { are_decided (statement_of body.now) ≡ true }
    requires other_decided { are_decided (statement_of other.now) ≡ true }
    ensures { IfOk result (λ n. StatementCode variables.now code.old code.new
        (if_else (expression_of e.now) (statement_of body.now) (statement_of other.now)) n x) }
{
    let fails = statement(code, variables, other, x)?;
    let holds = statement(code, variables, body, x)?;
    let first = branch(code, e, holds, fails)?;
    Ok(first)
}

#[cycle(lowering)]
fn while_do(
    code: &mut Emitter,
    variables: &[Variable],
    e: &Expression,
    body: &Statement,
    x: Exits,
) -> Result<usize, AllocError>
    requires height { statement_height (while_do (expression_of e.now) (statement_of body.now)) < 2 ^ 64 }
    requires decided { are_decided (statement_of body.now) ≡ true }
    ensures { IfOk result (λ n. StatementCode variables.now code.old code.new
        (while_do (expression_of e.now) (statement_of body.now)) n x) }
{
    let head = test_turn(code, e, x.next)?;
    let first = statement(code, variables, body, x.in_loop(head.condition))?;
    fill(
        code,
        head.turn,
        Instruction::Turn {
            counted: None,
            next: first,
        },
    );
    Ok(head.condition)
}

#[cycle(lowering)]
fn do_while(
    code: &mut Emitter,
    variables: &[Variable],
    body: &Statement,
    e: &Expression,
    x: Exits,
) -> Result<usize, AllocError>
    requires height { statement_height (do_while (statement_of body.now) (expression_of e.now)) < 2 ^ 64 }
    requires decided { are_decided (statement_of body.now) ≡ true }
    ensures { IfOk result (λ n. StatementCode variables.now code.old code.new
        (do_while (statement_of body.now) (expression_of e.now)) n x) }
{
    let head = test_turn(code, e, x.next)?;
    let first = statement(code, variables, body, x.in_loop(head.condition))?;
    fill(
        code,
        head.turn,
        Instruction::Turn {
            counted: None,
            next: first,
        },
    );
    Ok(head.turn)
}

#[cycle(lowering)]
fn for_loop(
    code: &mut Emitter,
    variables: &[Variable],
    clauses: &ForClauses,
    body: &Statement,
    x: Exits,
) -> Result<usize, AllocError>
    requires first { greatest_height (first_contents (first_of clauses.now.first.now)) < 2 ^ 64 }
    requires condition { greatest_height (if_any (option_map expression_of clauses.now.condition.now)) < 2 ^ 64 }
    requires step { greatest_height (if_any (option_map expression_of clauses.now.step.now)) < 2 ^ 64 }
    requires height { statement_height (statement_of body.now) < 2 ^ 64 }
    requires decided { are_decided (statement_of body.now) ≡ true }
    ensures { IfOk result (λ n. StatementCode variables.now code.old code.new
        (for clauses.now.line (first_of clauses.now.first.now) (option_map expression_of clauses.now.condition.now)
        (option_map expression_of clauses.now.step.now) (statement_of body.now)) n x) }
{
    let declared = first_variables(code.alloc, clauses.first)?;
    let numbers = declared.as_slice();
    let head = for_parts(code, variables, numbers, clauses, x)?;
    let start = code.code.len();
    let turn = statement(code, variables, body, head.inside.exits.in_loop(head.step))?;
    let end = code.code.len();
    let range = counted_parts(clauses.first, clauses.condition, clauses.step, body);
    let nodes = Span { start, end };
    let entry = for_tail(code, clauses, range, head, LoopBody { entry: turn, nodes })?;
    Ok(entry)
}

#[cycle(lowering)]
fn switch(
    code: &mut Emitter,
    variables: &[Variable],
    e: &Expression,
    line: Line,
    items: &[SwitchItem],
    x: Exits,
) -> Result<usize, AllocError>
    requires value { height (expression_of e.now) < 2 ^ 64 }
    requires height { items_height (items_in (map item_of items.now)) < 2 ^ 64 }
    requires default { has_one_default (items_in (map item_of items.now)) ≡ true }
    requires decided { items_decided (items_in (map item_of items.now)) ≡ true }
    ensures { IfOk result (λ n. StatementCode variables.now code.old code.new
        (switch (expression_of e.now) line (items_in (map item_of items.now))) n x) }
{
    let declared = switch_variables(code.alloc, items)?;
    let numbers = declared.as_slice();
    let inside = leave(code, variables, numbers, x)?;
    let nodes = switch_items(code, variables, items, inside.exits.in_switch())?;
    let starts = nodes.as_slice();
    let other = default_start(items, starts, inside.exits.next);
    let tests = test_items(code, items, starts, other)?;
    let entry = enter(code, inside.block, line, tests)?;
    let first = code.expression(e, 0, entry)?;
    Ok(first)
}
