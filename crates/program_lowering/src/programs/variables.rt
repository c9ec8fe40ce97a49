//! The variables of functions (C99 6.2.4 paragraph 5).

ghost use Rattle.std.specs.Prelude.{◌≡◌, ◌+◌, ◌<◌, ◌^◌, IfOk, map, length, if◌then◌else◌};
ghost use Rattle.c_tree.specs.Blocks.{all_of, closed, is_among, opened, body_variables};
ghost use Rattle.c_tree.specs.View.{function_of};

use crate::parts::block::block_variables;
use c_tree::{Function, Kind, Variable};
use std::alloc::{AllocError, Global};

/// All variables of a function in the order of their numbers.
pub fn all_variables(alloc: Global, f: &Function) -> Result<Vec<Variable>, AllocError>
    ensures { IfOk result (λ vs. vs.items ≡ all_of (function_of f.now)) }
{
    let mut all = Vec::from_slice(alloc, f.parameters.as_slice())?;
    all.extend_from_slice(f.variables.as_slice())?;
    Ok(all)
}

fn is_among(numbers: &[usize], number: usize) -> bool
    ensures { result ≡ is_among numbers.now number }
{
    for other in numbers {
        if *other == number {
            return true;
        }
    }
    false
}

// A variable of a block that is not entered is no object.
fn closed(variable: Variable) -> Variable
    ensures { result ≡ closed variable }
{
    if variable.is_object {
        Variable {
            kind: Kind::Void,
            is_object: false,
        }
    } else {
        variable
    }
}

fn opened_one(numbers: &[usize], number: usize, variable: Variable) -> Variable
    ensures { result ≡ (if is_among numbers.now number then variable else closed variable) }
{
    if is_among(numbers, number) {
        variable
    } else {
        closed(variable)
    }
}

// Variables from a number on, of which those alone are objects that have one of these numbers.
fn opened(
    alloc: Global,
    numbers: &[usize],
    first: usize,
    variables: &[Variable],
) -> Result<Vec<Variable>, AllocError>
    requires { first + length variables.now < 2 ^ 64 }
    ensures { IfOk result
        (λ vs. vs.items ≡ opened numbers.now first variables.now (map closed variables.now)) }
{
    let mut all = Vec::new(alloc);
    for i in 0..variables.len() {
        all.push(opened_one(numbers, first + i, variables[i]))?;
    }
    Ok(all)
}

/// The automatic variables of a function, of which those alone are objects that the block of its body declares.
pub fn entered_variables(alloc: Global, f: &Function) -> Result<Vec<Variable>, AllocError>
    ensures { IfOk result (λ vs. vs.items ≡ body_variables (function_of f.now)) }
{
    let numbers = block_variables(alloc, f.body.as_slice())?;
    let parameters = f.parameters.as_slice().len();
    let all = opened(alloc, &numbers, parameters, f.variables.as_slice())?;
    Ok(all)
}
