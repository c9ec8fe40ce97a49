//! What a statement does before or behind the statements in it.

ghost use Rattle.std.specs.Prelude.{◌≡◌, ◌<◌, ◌^◌, IfOk, Some, map, option_map};
ghost use Rattle.c_tree.specs.Blocks.{declared_contents, if_any};
ghost use Rattle.c_tree.specs.Room.{height, greatest_height};
ghost use Rattle.c_tree.specs.Statements.{expression_statement, declaration, return};
ghost use Rattle.c_tree.specs.View.{declared_of, expression_of};
ghost use Rattle.program_lowering.specs.StatementParts.Code.{ConditionCode};
ghost use Rattle.program_lowering.specs.StatementCode.Code.{StatementCode, ResultCode};

use crate::expressions::Emitter;
use crate::parts::exits::Exits;
use crate::parts::initializer::declare;
use c_tree::{DeclaredVariable, Expression, Variable};
use std::alloc::AllocError;
use tac_ir::Instruction;

/// An expression as a statement.
#[tactic(auto, using(crate::proofs::StatementCode::SingleStatements::evaluating))]
pub fn evaluate(
    code: &mut Emitter,
    variables: &[Variable],
    e: &Expression,
    x: Exits,
) -> Result<usize, AllocError>
    requires { height (expression_of e.now) < 2 ^ 64 }
    ensures { IfOk result (λ n. StatementCode variables.now code.old code.new
        (expression_statement (expression_of e.now)) n x) }
{
    let first = code.expression(e, 0, x.next)?;
    Ok(first)
}

/// A declaration.
#[tactic(auto, using(crate::proofs::StatementCode::SingleStatements::declaring))]
pub fn declare_all(
    code: &mut Emitter,
    variables: &[Variable],
    declared: &[DeclaredVariable],
    x: Exits,
) -> Result<usize, AllocError>
    requires { greatest_height (declared_contents (map declared_of declared.now)) < 2 ^ 64 }
    ensures { IfOk result (λ n. StatementCode variables.now code.old code.new
        (declaration (map declared_of declared.now)) n x) }
{
    let first = declare(code, declared, x.next)?;
    Ok(first)
}

// A value that a function returns, in temporary 0.
#[tactic(auto, using(crate::proofs::StatementCode::SingleStatements::resulting))]
fn result(code: &mut Emitter, e: &Expression, returns: usize) -> Result<usize, AllocError>
    requires { height (expression_of e.now) < 2 ^ 64 }
    ensures { IfOk result (λ n. ResultCode code.old code.new (expression_of e.now) n returns) }
{
    let taken = code.take(e.kind, e.line, 0, returns)?;
    let first = code.expression(e, 0, taken)?;
    Ok(first)
}

/// A return, with its value or with none.
#[tactic(auto, using(crate::proofs::StatementCode::SingleStatements::returning))]
pub fn give_back(
    code: &mut Emitter,
    variables: &[Variable],
    e: &Option<Expression>,
    x: Exits,
) -> Result<usize, AllocError>
    requires { greatest_height (if_any (option_map expression_of e.now)) < 2 ^ 64 }
    ensures { IfOk result (λ n. StatementCode variables.now code.old code.new
        (return (option_map expression_of e.now)) n x) }
{
    match e {
        None => {
            let first = code.add(Instruction::Constant {
                to: 0,
                word: 0,
                next: x.returns,
            })?;
            Ok(first)
        }
        Some(e) => {
            let first = result(code, e, x.returns)?;
            Ok(first)
        }
    }
}

/// The condition of an `if`, with its two ways.
#[tactic(auto, using(crate::proofs::StatementCode::SingleStatements::branching))]
pub fn branch(
    code: &mut Emitter,
    e: &Expression,
    holds: usize,
    fails: usize,
) -> Result<usize, AllocError>
    requires { height (expression_of e.now) < 2 ^ 64 }
    ensures { IfOk result (λ n. ConditionCode code.old code.new (Some (expression_of e.now)) n holds fails) }
{
    let test = code.add(Instruction::Branch {
        from: 0,
        not_zero: holds,
        zero: fails,
    })?;
    let first = code.expression(e, 0, test)?;
    Ok(first)
}
