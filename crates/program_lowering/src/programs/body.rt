//! The body of a function, with its only return.

ghost use Rattle.std.specs.Prelude.{◌≡◌, ◌<◌, ◌^◌, true, IfOk, map};
ghost use Rattle.c_tree.specs.Statements.{statements_in};
ghost use Rattle.c_tree.specs.View.{statement_of};
ghost use Rattle.program_lowering.specs.StatementCode.Sizes.{each_height};
ghost use Rattle.program_lowering.specs.StatementCode.Switches.{each_decided};
ghost use Rattle.program_lowering.specs.ProgramCode.Code.{BodyCode};

use crate::expressions::Emitter;
use crate::parts::exits::Exits;
use crate::statements::statement::statements;
use c_tree::{Kind, Statement, Variable};
use std::alloc::{AllocError, Global};
use tac_ir::Instruction;
use tree_containers::Items;

/// What is made of a function, and the node where it begins.
#[derive(Drop)]
pub struct Body {
    pub code: Emitter,
    pub entry: usize,
}

/// Lowers the body of a function with these variables, which gives a value of this kind, behind the texts of the
/// program so far, where it is told of each static object whether it is a string literal. At its end it gives 0.
pub fn lower_body(
    alloc: Global,
    variables: &[Variable],
    body: &[Statement],
    kind: Kind,
    texts: Vec<Items<u8>>,
    literals: Vec<bool>,
) -> Result<Body, AllocError>
    requires height { each_height (statements_in (map statement_of body.now)) < 2 ^ 64 }
    requires decided { each_decided (statements_in (map statement_of body.now)) ≡ true }
    ensures { IfOk result (λ b. BodyCode variables.now (statements_in (map statement_of body.now)) kind texts.items
        literals.items b.code b.entry) }
{
    let mut code = Emitter::new(alloc, texts, literals);
    let returns = code.add(Instruction::Return { from: 0 })?;
    let end = code.add(Instruction::ZeroOf {
        kind,
        to: 0,
        next: returns,
    })?;
    let exits = Exits {
        next: end,
        breaks: end,
        continues: end,
        returns,
    };
    let entry = statements(&mut code, variables, body, exits)?;
    Ok(Body { code, entry })
}
