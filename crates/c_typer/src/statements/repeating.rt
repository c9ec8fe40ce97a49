//! What stands behind the body of a `do` (C99 6.8.5.2).

ghost use Rattle.std.specs.Prelude.{◌≡◌, true};
ghost use Rattle.c_syntax.specs.View as view;
ghost use Rattle.c_tree.specs.Statements as built;
ghost use Rattle.c_tree.specs.View.{statement_of};
ghost use Rattle.c_faults.specs.Answer.{Answer, Fails, Gives};
ghost use Rattle.c_rules.specs.Values.{value_of};
ghost use Rattle.c_expression_typing.specs.Constructs.{valued};
ghost use Rattle.c_expression_typing.specs.Typed.{typed};
ghost use Rattle.c_typing_state.specs.State.{State, Types, state_of};
ghost use Rattle.c_programs.specs.FileState.{FileTypes, file_of};
ghost use Rattle.c_unit_typing.specs.Files.{File, finished, in_state, ◌~>◌};
ghost use Rattle.c_unit_typing.specs.Constructs as constructs;

use crate::initializers::dropping::let_go;
use crate::statements::allocated::Allocated;
use crate::statements::building::do_while;
use crate::statements::controlling::{allocated_value, controlling, controls};
use c_faults::{Fault, Refusal};
use c_programs::state::FileTyper;
use c_rules::TypedValue;
use c_rules::holding::beside;
use c_syntax::Expression;
use c_tree::Statement;
use c_typing_state::Typer;
use sb_base::Line;

// The condition behind a body that violates no rule.
fn behind_body<'a>(
    file: &mut FileTyper<'a>,
    line: Line,
    body: Allocated<Statement>,
    condition: &Expression<'a>,
) -> Result<Allocated<Statement>, Refusal>
    ensures { FileTypes statement_of (file_of file.new) result
        ((in_state (constructs.controlling line (view.expression_of condition.now)) ~> λ c. finished (built.do_while
        (statement_of body) c)) (file_of file.old)) }
{
    let (body, condition) = beside(body, controlling(&mut file.typer, line, condition))?;
    let statement = do_while(file.typer.alloc, body, condition)?;
    Ok(statement)
}

// What is violated first where the body violates a rule, and the condition has a value.
fn fault_or(typer: &Typer, line: Line, fault: Fault, value: Allocated<TypedValue>) -> Refusal
    ensures { Fails {B = File × built.Statement} result (constructs.fault_or fault
        (constructs.controls line (value_of value) (state_of typer.now))) }
{
    match controls(typer, line, value) {
        Ok(condition) => {
            let_go(condition);
            Refusal::Fault(fault)
        }
        Err(refusal) => refusal,
    }
}

// What is violated first where the body violates a rule.
fn fault_before<'a>(
    typer: &mut Typer<'a>,
    line: Line,
    fault: Fault,
    condition: &Expression<'a>,
) -> Refusal
    ensures { Fails {B = File × built.Statement} result (constructs.fault_before line fault
        (valued (typed true (view.expression_of condition.now)) (state_of typer.old))) }
{
    match allocated_value(typer, true, condition) {
        Ok(value) => fault_or(typer, line, fault, value),
        Err(Refusal::Fault(_)) => Refusal::Fault(fault),
        Err(Refusal::Memory) => Refusal::Memory,
    }
}

// The same, by the state before the body, which is of no more use.
fn fault_from<'a>(
    before: Typer<'a>,
    line: Line,
    fault: Fault,
    condition: &Expression<'a>,
) -> Refusal
    ensures { Fails {B = File × built.Statement} result (constructs.fault_before line fault
        (valued (typed true (view.expression_of condition.now)) (state_of before.entry))) }
{
    let mut typer = before;
    let refusal = fault_before(&mut typer, line, fault, condition);
    let_go(typer);
    refusal
}

/// What stands behind the body of a `do` that is typed or refused, by the state before it. The rule on conditions is
/// judged at the word `do`, before all that the body violates.
pub(crate) fn do_behind<'a>(
    file: &mut FileTyper<'a>,
    before: Typer<'a>,
    line: Line,
    body: Result<Allocated<Statement>, Refusal>,
    condition: &Expression<'a>,
) -> Result<Allocated<Statement>, Refusal>
    ensures { (start : File) (typed : Answer (File × built.Statement)) → start.state ≡ state_of before.entry
        → FileTypes statement_of (file_of file.old) body typed
        → FileTypes statement_of (file_of file.new) result
        (constructs.do_behind line (view.expression_of condition.now) start typed) }
{
    match body {
        Ok(body) => {
            let_go(before);
            behind_body(file, line, body, condition)
        }
        Err(Refusal::Fault(fault)) => Err(fault_from(before, line, fault, condition)),
        Err(Refusal::Memory) => {
            let_go(before);
            Err(Refusal::Memory)
        }
    }
}
