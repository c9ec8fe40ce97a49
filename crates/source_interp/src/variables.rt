//! The variables of functions and of their blocks (C99 6.2.4 paragraph 5).

ghost use Rattle.std.specs.Prelude.{◌≡◌, ◌+◌, ◌++◌, ◌<◌, ◌^◌, IfOk, OnOk, if◌then◌else◌, length, map};
ghost use Rattle.c_tree.specs.Blocks.{all_of, block_objects, block_variables, body_variables, closed, declared_by};
ghost use Rattle.c_tree.specs.Blocks.{first_variables, is_among, opened, switch_variables, variables_in};
ghost use Rattle.c_tree.specs.Statements.{items_in, statements_in};
ghost use Rattle.c_tree.specs.View.{declared_of, first_of, function_of, statement_of};
ghost use Rattle.source_interp.specs.Variables.{item_of};

use c_tree::{DeclaredVariable, First, Function, Kind, Statement, SwitchItem, Variable};
use std::alloc::{AllocError, Global};

fn is_among(numbers: &[usize], number: usize) -> bool
    ensures { result ≡ is_among numbers.now number }
{
    for other in numbers {
        if *other == number {
            return true;
        }
    }
    false
}

// A variable of a block that is not entered is no object.
fn closed(variable: Variable) -> Variable
    ensures { result ≡ closed variable }
{
    if variable.is_object {
        Variable {
            kind: Kind::Void,
            is_object: false,
        }
    } else {
        variable
    }
}

fn opened_one(numbers: &[usize], number: usize, variable: Variable) -> Variable
    ensures { result ≡ (if is_among numbers.now number then variable else closed variable) }
{
    if is_among(numbers, number) {
        variable
    } else {
        closed(variable)
    }
}

/// Variables from a number on, of which those alone are objects that have one of these numbers.
pub fn opened(
    alloc: Global,
    numbers: &[usize],
    first: usize,
    variables: &[Variable],
) -> Result<Vec<Variable>, AllocError>
    requires { first + length variables.now < 2 ^ 64 }
    ensures { IfOk result
        (λ vs. vs.items ≡ opened numbers.now first variables.now (map closed variables.now)) }
{
    let mut all = Vec::new(alloc);
    for i in 0..variables.len() {
        all.push(opened_one(numbers, first + i, variables[i]))?;
    }
    Ok(all)
}

/// All variables of a function in the order of their numbers.
pub fn all_variables(alloc: Global, f: &Function) -> Result<Vec<Variable>, AllocError>
    ensures { IfOk result (λ vs. vs.items ≡ all_of (function_of f.now)) }
{
    let mut all = Vec::from_slice(alloc, f.parameters.as_slice())?;
    all.extend_from_slice(f.variables.as_slice())?;
    Ok(all)
}

/// All variables of a function, of which those alone are objects that have some numbers.
pub fn block_objects(
    alloc: Global,
    f: &Function,
    numbers: &[usize],
) -> Result<Vec<Variable>, AllocError>
    ensures { IfOk result (λ vs. vs.items ≡ block_objects (all_of (function_of f.now)) numbers.now) }
{
    let all = all_variables(alloc, f)?;
    let objects = opened(alloc, numbers, 0, &all)?;
    Ok(objects)
}

// The variables of a declaration.
fn add_declared(numbers: &mut Vec<usize>, declared: &[DeclaredVariable]) -> Result<(), AllocError>
    ensures { OnOk result (numbers.new.items ≡ numbers.old.items ++ variables_in (map declared_of declared.now)) }
{
    for variable in declared {
        numbers.push(variable.variable)?;
    }
    Ok(())
}

// The variables that a statement declares in its block.
fn add_variables(numbers: &mut Vec<usize>, s: &Statement) -> Result<(), AllocError>
    ensures { OnOk result (numbers.new.items ≡ numbers.old.items ++ declared_by (statement_of s.now)) }
{
    match s {
        Statement::Declaration(declared) => add_declared(numbers, declared.as_slice()),
        _ => Ok(()),
    }
}

/// The numbers of the variables that a block declares itself, in order.
pub fn block_variables(alloc: Global, body: &[Statement]) -> Result<Vec<usize>, AllocError>
    ensures { IfOk result (λ ns. ns.items ≡ block_variables (statements_in (map statement_of body.now))) }
{
    let mut numbers = Vec::new(alloc);
    for statement in body {
        add_variables(&mut numbers, statement)?;
    }
    Ok(numbers)
}

/// Those of the block of a switch.
pub fn switch_variables(alloc: Global, items: &[SwitchItem]) -> Result<Vec<usize>, AllocError>
    ensures { IfOk result (λ ns. ns.items ≡ switch_variables (items_in (map item_of items.now))) }
{
    let mut numbers = Vec::new(alloc);
    for item in items {
        add_variables(&mut numbers, &item.statement)?;
    }
    Ok(numbers)
}

/// Those of the first part of a `for`.
pub fn first_variables(alloc: Global, first: &First) -> Result<Vec<usize>, AllocError>
    ensures { IfOk result (λ ns. ns.items ≡ first_variables (first_of first.now)) }
{
    let mut numbers = Vec::new(alloc);
    match first {
        First::Declaration(declared) => add_declared(&mut numbers, declared.as_slice())?,
        First::Nothing | First::Expression(_) => {}
    }
    Ok(numbers)
}

/// The automatic variables of a function, of which those alone are objects that the block of its body declares.
pub fn entered_variables(alloc: Global, f: &Function) -> Result<Vec<Variable>, AllocError>
    ensures { IfOk result (λ vs. vs.items ≡ body_variables (function_of f.now)) }
{
    let numbers = block_variables(alloc, f.body.as_slice())?;
    let parameters = f.parameters.as_slice().len();
    let all = opened(alloc, &numbers, parameters, f.variables.as_slice())?;
    Ok(all)
}
