//! Programs of integers alone.

ghost use Rattle.std.specs.Prelude.{◌≡◌, map};
ghost use Rattle.std.specs.List.{list_all};
ghost use Rattle.c_tree.specs.View.{function_of, function_type_of, program_of};
ghost use Rattle.compiled_programs.specs.Programs.{gives_no_pointer, is_integer_function, is_integer_program};
ghost use Rattle.compiled_programs.specs.Programs.{is_integer_variable};

use crate::expression::{has_no_pointer, is_integer_kind};
use crate::statement::are_integer_statements;
use c_tree::{Function, FunctionType, Program, Variable};

fn is_integer_variable(variable: &Variable) -> bool
    ensures { result ≡ is_integer_variable variable.now }
{
    !variable.is_object && is_integer_kind(variable.kind)
}

fn are_integer_variables(variables: &[Variable]) -> bool
    ensures { result ≡ list_all is_integer_variable variables.now }
{
    for variable in variables {
        if !is_integer_variable(variable) {
            return false;
        }
    }
    true
}

fn is_integer_function(function: &Function) -> bool
    ensures { result ≡ is_integer_function (function_of function.now) }
{
    (are_integer_variables(function.parameters.as_slice())
        && are_integer_variables(function.variables.as_slice()))
        && are_integer_statements(function.body.as_slice())
}

fn are_integer_functions(functions: &[Function]) -> bool
    ensures { result ≡ list_all is_integer_function (map function_of functions.now) }
{
    for function in functions {
        if !is_integer_function(function) {
            return false;
        }
    }
    true
}

// Whether functions of none of these types give a pointer or a structure.
fn give_no_pointers(types: &[FunctionType]) -> bool
    ensures { result ≡ list_all gives_no_pointer (map function_type_of types.now) }
{
    for function_type in types {
        if !has_no_pointer(function_type.result) {
            return false;
        }
    }
    true
}

/// Whether a program has integers alone: no static objects, literals among them, no objects, pointers or structures,
/// and of the library `putchar`, `getchar`, `exit` and `abort`. It takes no memory.
#[tactic(auto, unfolding(crate::specs::Programs::is_integer_program))]
pub fn is_integer_program(program: &Program) -> bool
    ensures { result ≡ is_integer_program (program_of program.now) }
{
    program.statics.as_slice().is_empty()
        && give_no_pointers(program.function_types.as_slice())
        && are_integer_functions(program.functions.as_slice())
}
