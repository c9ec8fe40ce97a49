//! Functions with their tables.

ghost use Rattle.std.specs.Prelude.{◌≡◌, ◌≤◌, true, IfOk, map};
ghost use Rattle.c_tree.specs.Blocks.{all_of, body_variables};
ghost use Rattle.c_tree.specs.View.{function_of};
ghost use Rattle.program_lowering.specs.StatementCode.Sizes.{each_height};
ghost use Rattle.program_lowering.specs.StatementCode.Switches.{each_decided};
ghost use Rattle.program_lowering.specs.ProgramCode.Code.{FunctionCode, Completes};

use crate::expressions::Emitter;
use crate::programs::body::{Body, lower_body};
use crate::programs::variables::{all_variables, entered_variables};
use c_tree::{Function, Kind, Variable};
use std::alloc::{AllocError, Global};
use tac_ir::CodeFunction;
use tree_containers::Items;

/// The code of a function, the texts of the program so far, and its string literals.
#[derive(Drop)]
pub struct Lowered {
    pub function: CodeFunction,
    pub texts: Vec<Items<u8>>,
    pub literals: Vec<bool>,
}

fn copied(alloc: Global, variables: &[Variable]) -> Result<Items<Variable>, AllocError>
    ensures { IfOk result (λ r. r ≡ variables.now) }
{
    Ok(Items::from_vec(Vec::from_slice(alloc, variables)?))
}

// The function of a body, with these variables.
fn complete(
    f: &Function,
    parameters: Items<Variable>,
    variables: Items<Variable>,
    entered: Items<Variable>,
    body: Body,
) -> Lowered
    ensures { Completes f.now.line f.now.type_number f.now.room parameters variables entered body result }
{
    let Body { code, entry } = body;
    let Emitter {
        alloc: _,
        code,
        keys,
        blocks,
        loops,
        texts,
        literals,
    } = code;
    Lowered {
        function: CodeFunction {
            line: f.line,
            type_number: f.type_number,
            parameters,
            variables,
            entered,
            room: f.room,
            entry,
            code: Items::from_vec(code),
            keys: Items::from_vec(keys),
            blocks: Items::from_vec(blocks),
            loops: Items::from_vec(loops),
        },
        texts,
        literals,
    }
}

/// Lowers a function, which gives a value of this kind, behind the texts of the program so far, where it is told of
/// each static object whether it is a string literal.
#[tactic(auto, using(crate::proofs::ProgramCode::Bodies::rooms))]
pub fn lower_function(
    alloc: Global,
    f: &Function,
    kind: Kind,
    texts: Vec<Items<u8>>,
    literals: Vec<bool>,
) -> Result<Lowered, AllocError>
    requires height { each_height (function_of f.now).body ≤ f.now.room }
    requires decided { each_decided (function_of f.now).body ≡ true }
    ensures { IfOk result (λ r. FunctionCode (function_of f.now) kind texts.items literals.items r) }
{
    // A number that is read is known to be in the range of its type: the room is less than 2^64.
    let _room = f.room;
    let all = all_variables(alloc, f)?;
    let numbered = all.as_slice();
    let statements = f.body.as_slice();
    let parameters = copied(alloc, f.parameters.as_slice())?;
    let variables = copied(alloc, f.variables.as_slice())?;
    let opened = entered_variables(alloc, f)?;
    let entered = Items::from_vec(opened);
    let body = lower_body(alloc, numbered, statements, kind, texts, literals)?;
    Ok(complete(f, parameters, variables, entered, body))
}
