//! What is asked of calls and returns besides: no array is handed over, structures come to temporaries that may have
//! contents, and formats are bytes.

ghost use Rattle.std.specs.Prelude.{◌≡◌, ◌==◌, ◌&&◌, ◌∷◌, [], map, length, IfOk, Some};
ghost use Rattle.std.specs.List.{list_all};
ghost use Rattle.c_tree.specs.Format.{pieces};
ghost use Rattle.source_meaning.specs.Printing.{pieces_or_none};
ghost use Rattle.tac_ir.specs.Meaning.{function_in, text_in};
ghost use Rattle.tac_ir.specs.Structures.{result_of_type};
ghost use Rattle.metadata_relation.specs.Blocks.{result_of};
ghost use Rattle.metadata_relation.specs.Registers.{is_no_aggregate};
ghost use Rattle.metadata_relation.specs.Steps.{are_handed_over, is_handed_over, can_enter_body, are_covered_calls};
ghost use Rattle.metadata_relation.specs.Steps.{is_covered_call, is_covered_main, comes_to, gives_from, have_bytes};
ghost use Rattle.metadata_relation.specs.Steps.{result_comes_to};
ghost use Rattle.instruction_selection.specs.Covered.{admits_with, callable_functions, is_callable, may_have, IsTabled};

use crate::blocks::has_objects;
use crate::calls::{body_objects, result_of};
use crate::covered::Coverage;
use crate::covered::contents::FunctionContents;
use crate::covered::instructions::{can_be_entered, is_no_aggregate};
use crate::formats::pieces_of;
use crate::initializers::text_of;
use c_tree::format::Piece;
use c_tree::{Kind, Variable};
use metadata_expansion::areas::given_by_type;
use std::alloc::{AllocError, Global};
use tac_ir::{CodeFunction, Instruction, Tac};

// Whether a value of a kind is handed over, as an argument or a result.
fn is_handed_over(kind: Kind) -> bool
    ensures { result ≡ is_handed_over kind }
{
    match kind {
        Kind::Void | Kind::Scalar(_) | Kind::Structure(_) => true,
        Kind::Array(_) => false,
    }
}

// Whether parameters are.
fn are_handed_over(variables: &[Variable]) -> bool
    ensures { result ≡ are_handed_over variables.now }
{
    for i in 0..variables.len() {
        if !is_handed_over(variables[i].kind) {
            return false;
        }
    }
    true
}

// Whether a body with these objects can be entered.
fn can_enter_body(variables: &[Variable]) -> bool
    ensures { result ≡ can_enter_body variables.now }
{
    !has_objects(variables) || can_be_entered(variables)
}

// Whether a call of a function is covered.
fn is_callable(alloc: Global, program: &Tac, function: &CodeFunction) -> Result<bool, AllocError>
    ensures { IfOk result (λ yes. yes ≡ is_callable program.now function.now) }
{
    let objects = body_objects(alloc, function)?;
    let takes = can_enter_body(&objects) && are_handed_over(function.parameters.as_slice());
    Ok(takes && is_handed_over(result_of(program, function)))
}

// Whether a call of each function of a program is.
pub(crate) fn callable_functions(alloc: Global, program: &Tac) -> Result<Vec<bool>, AllocError>
    ensures { IfOk result (λ list. list.items ≡ callable_functions program.now) }
{
    let mut list = Vec::new(alloc);
    let functions = program.functions.as_slice();
    for i in 0..functions.len() {
        list.push(is_callable(alloc, program, &functions[i])?)?;
    }
    Ok(list)
}

// Whether all of these hold.
pub(crate) fn are_all(tests: &[bool]) -> bool
    ensures { result ≡ list_all (λ b. b) tests.now }
{
    for test in tests {
        if !*test {
            return false;
        }
    }
    true
}

// Whether a call of the function with a number is covered; one that is not there is.
#[tactic(auto, using(crate::proofs::Coverages::callee_there, crate::proofs::Coverages::callee_missing))]
fn is_covered_callee(coverage: &Coverage, function: usize) -> bool
    requires { IsTabled coverage.now }
    ensures { result ≡ is_covered_call coverage.now.program.now (function_in coverage.now.program.now function) }
{
    match coverage.callable.get(function) {
        Some(test) => *test,
        None => true,
    }
}

// Whether a function has a type.
fn has_type(function: &CodeFunction, type_number: usize) -> bool
    ensures { result ≡ (function.now.type_number == type_number) }
{
    function.type_number == type_number
}

// Whether calls of each of these functions that has a type are covered, as a table tells of each.
fn are_covered_in(
    program: &Tac,
    functions: &[CodeFunction],
    callable: &[bool],
    type_number: usize,
) -> bool
    requires { callable.now ≡ map (is_callable program.now) functions.now }
    ensures { result ≡ are_covered_calls program.now type_number functions.now }
{
    for i in 0..functions.len() {
        if has_type(&functions[i], type_number) && !callable[i] {
            return false;
        }
    }
    true
}

// Whether calls of each function of a type are.
#[tactic(auto, using(crate::proofs::Coverages::all_calls))]
fn are_covered_calls(coverage: &Coverage, type_number: usize) -> bool
    requires { IsTabled coverage.now }
    ensures { result
        ≡ are_covered_calls coverage.now.program.now type_number coverage.now.program.now.functions }
{
    if coverage.are_all {
        return true;
    }
    let functions = coverage.program.functions.as_slice();
    are_covered_in(coverage.program, functions, coverage.callable, type_number)
}

// Whether a structure that a call gives comes to a temporary that may have contents.
fn comes_to(kind: Kind, may_have: bool) -> bool
    ensures { result ≡ comes_to kind may_have }
{
    match kind {
        Kind::Structure(_) => may_have,
        Kind::Void | Kind::Scalar(_) | Kind::Array(_) => true,
    }
}

// The same of what the function with a number gives; one that is not there gives nothing.
fn result_comes_to(program: &Tac, function: usize, may_have: bool) -> bool
    ensures { result ≡ result_comes_to program.now (function_in program.now function) may_have }
{
    match program.functions.as_slice().get(function) {
        Some(callee) => comes_to(result_of(program, callee), may_have),
        None => true,
    }
}

// Whether a call by name is covered, whose result comes to a temporary that may have contents or not.
fn admits_call(coverage: &Coverage, function: usize, may_have: bool) -> bool
    requires { IsTabled coverage.now }
    ensures { result ≡ (is_covered_call coverage.now.program.now (function_in coverage.now.program.now function)
        && result_comes_to coverage.now.program.now (function_in coverage.now.program.now function) may_have) }
{
    is_covered_callee(coverage, function) && result_comes_to(coverage.program, function, may_have)
}

// The same of a call through a pointer to functions of a type.
fn admits_call_through(coverage: &Coverage, type_number: usize, may_have: bool) -> bool
    requires { IsTabled coverage.now }
    ensures { result
        ≡ (are_covered_calls coverage.now.program.now type_number coverage.now.program.now.functions
        && comes_to (result_of_type coverage.now.program.now.results type_number) may_have) }
{
    are_covered_calls(coverage, type_number)
        && comes_to(given_by_type(coverage.program, type_number), may_have)
}

// Whether a value of a kind is given from a temporary as it stands: a structure, which has a byte, from the first one.
fn gives_from(kind: Kind, temporary: usize) -> bool
    ensures { result ≡ gives_from kind temporary }
{
    match kind {
        Kind::Void | Kind::Scalar(_) => true,
        Kind::Structure(size) => temporary == 0 && 1 <= size,
        Kind::Array(_) => false,
    }
}

// Whether a piece of a format is a directive, or a byte.
fn has_byte(piece: Piece) -> bool
    ensures { result ≡ have_bytes (piece ∷ []) }
{
    match piece {
        Piece::Byte(byte) => u32::from(byte) < 256,
        Piece::Directive(_) => true,
    }
}

// Whether all pieces are so.
fn have_bytes(pieces: &[Piece]) -> bool
    ensures { result ≡ have_bytes pieces.now }
{
    for i in 0..pieces.len() {
        if !has_byte(pieces[i]) {
            return false;
        }
    }
    true
}

// Whether those of a format are.
fn has_format_of_bytes(coverage: &Coverage, text: usize) -> Result<bool, AllocError>
    ensures { IfOk result
        (λ yes. yes ≡ have_bytes (pieces_or_none (pieces (text_in coverage.now.program.now text)))) }
{
    let list = pieces_of(coverage.alloc, text_of(coverage.program, text))?;
    Ok(have_bytes(&list))
}

// Whether an instruction of a function with contents is one of which all this holds.
pub(crate) fn admits(
    coverage: &Coverage,
    function: &CodeFunction,
    contents: &FunctionContents,
    instruction: &Instruction,
) -> Result<bool, AllocError>
    requires { IsTabled coverage.now }
    ensures { IfOk result (λ yes. yes
        ≡ admits_with coverage.now.program.now function.now (may_have contents.now) instruction.now) }
{
    match instruction {
        Instruction::ZeroOf {
            kind: Kind::Structure(_),
            to,
            next,
        } => Ok(contents.may_have(*next, *to)),
        Instruction::Take { to, next, .. } => Ok(contents.may_have(*next, *to)),
        Instruction::Print { text, .. } => has_format_of_bytes(coverage, *text),
        Instruction::Call {
            function: called,
            first,
            next,
            ..
        } => Ok(admits_call(coverage, *called, contents.may_have(*next, *first))),
        Instruction::CallThrough {
            type_number,
            first,
            next,
            ..
        } => Ok(admits_call_through(coverage, *type_number, contents.may_have(*next, *first))),
        Instruction::Return { from } => Ok(gives_from(
            result_of(coverage.program, function),
            *from,
        )),
        _ => Ok(true),
    }
}

// Whether a function gives a scalar, or no value.
fn gives_scalar(program: &Tac, function: &CodeFunction) -> bool
    ensures { result ≡ is_no_aggregate (result_of program.now function.now) }
{
    is_no_aggregate(result_of(program, function))
}

// How many parameters a function has.
fn parameter_count(function: &CodeFunction) -> usize
    ensures { result ≡ length function.now.parameters }
{
    function.parameters.as_slice().len()
}

// Whether the call of `main` is covered, which takes nothing and gives a scalar.
pub(crate) fn is_covered_main(coverage: &Coverage) -> bool
    requires { IsTabled coverage.now }
    ensures { result ≡ is_covered_main coverage.now.program.now
        (function_in coverage.now.program.now coverage.now.program.now.main) }
{
    let number = coverage.program.main;
    match coverage.program.functions.as_slice().get(number) {
        Some(main) => {
            (is_covered_callee(coverage, number) && gives_scalar(coverage.program, main))
                && parameter_count(main) == 0
        }
        None => false,
    }
}
