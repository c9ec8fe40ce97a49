//! Types of plain variables.

ghost use Rattle.std.specs.Prelude.{◌≡◌, ◌<◌, ◌∷◌, [], length, Some, slice_get};
ghost use Rattle.c_tree.specs.Valid.{at_number};
ghost use Rattle.source_meaning.specs.Good.{plain_type};
ghost use Rattle.metadata_plan.specs.Registers.{all_variables};

use c_tree::{Kind, Variable};
use obj_memory::Scalar;
use tac_ir::CodeFunction;

// The type of a variable, where it is a plain one.
fn type_of(variable: &Variable) -> Option<Scalar>
    ensures { result ≡ plain_type (variable.now ∷ []) 0 }
{
    if variable.is_object {
        return None;
    }
    match variable.kind {
        Kind::Scalar(scalar) => Some(scalar),
        Kind::Void | Kind::Structure(_) | Kind::Array(_) => None,
    }
}

// One of some variables, by its number.
fn variable_at(variables: &[Variable], number: usize) -> &Variable
    requires { number < length variables.now }
    ensures { slice_get variables.now number ≡ Some result.now }
{
    &variables[number]
}

// The type of one of some variables, by its number, where it is a plain one.
#[tactic(auto, using(crate::proofs::PlainTypes::type_at, crate::proofs::PlainTypes::type_past))]
fn type_in(variables: &[Variable], number: usize) -> Option<Scalar>
    ensures { result ≡ plain_type variables.now number }
{
    if number >= variables.len() {
        return None;
    }
    type_of(variable_at(variables, number))
}

/// The type of a variable of a function, by its number, where it is a plain one.
#[tactic(auto, using(crate::proofs::PlainTypes::type_before, crate::proofs::PlainTypes::type_behind))]
pub fn plain_type(function: &CodeFunction, number: usize) -> Option<Scalar>
    ensures { result ≡ plain_type (all_variables function.now) number }
{
    let parameters = function.parameters.as_slice();
    if number < parameters.len() {
        return type_in(parameters, number);
    }
    type_in(function.variables.as_slice(), number - parameters.len())
}

// The kind of one of some variables, by its number; a number that is none's has that of no value.
#[tactic(auto, using(crate::proofs::PlainTypes::kind_at, crate::proofs::PlainTypes::kind_past))]
fn kind_in(variables: &[Variable], number: usize) -> Kind
    ensures { result ≡ (at_number variables.now number).kind }
{
    if number >= variables.len() {
        return Kind::Void;
    }
    variable_at(variables, number).kind
}

/// The kind of a variable of a function, by its number.
#[tactic(auto, using(crate::proofs::PlainTypes::kind_before, crate::proofs::PlainTypes::kind_behind))]
pub fn kind_of(function: &CodeFunction, number: usize) -> Kind
    ensures { result ≡ (at_number (all_variables function.now) number).kind }
{
    let parameters = function.parameters.as_slice();
    if number < parameters.len() {
        return kind_in(parameters, number);
    }
    kind_in(function.variables.as_slice(), number - parameters.len())
}
