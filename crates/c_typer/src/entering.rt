//! The block of a function, which stands in the scope of its parameters (C99 6.2.1 paragraph 4).

ghost use Rattle.std.specs.Prelude.{◌≡◌, ◌++◌, ◌∷◌, [], None, IfOk, OnOk, map, option_copied, option_map};
ghost use Rattle.c_tree.specs.Statements.{statements_in};
ghost use Rattle.c_tree.specs.View.{statement_of};
ghost use Rattle.c_scope.specs.declared.meaning.Meaning.TheVariants as meanings;
ghost use Rattle.c_scope.specs.Names.{names_of};
ghost use Rattle.c_scope.specs.Parameters.{scope_of};
ghost use Rattle.c_operand_typing.specs.Calls.{with_type};
ghost use Rattle.c_typing_state.specs.State.{state_of};
ghost use Rattle.c_programs.specs.FileState.{file_of};
ghost use Rattle.c_unit_typing.specs.Declarations.{variable_in};
ghost use Rattle.c_unit_typing.specs.Units.{entered, left, marks_in, parameter_in, parameters_in};
ghost use Rattle.c_typer.specs.Entering.{begun, parameter_if, parameter_of};

use c_operand_typing::primaries::{is_object, kind_of_place};
use c_programs::place::place_among;
use c_programs::state::{Definition, FileTyper};
use c_scope::meaning::{Designated, Meaning};
use c_scope::names::Names;
use c_scope::parameters::ParameterScope;
use c_tree::{CType, Statement, TypeWord, Variable};
use c_typing_state::Typer;
use sb_base::Line;
use std::alloc::{AllocError, Global};
use std::mem;
use tree_containers::Items;

// Which variables of a function are objects, where that is known.
fn marks_in(
    alloc: Global,
    objects: &Option<Items<Items<bool>>>,
    number: usize,
) -> Result<Option<Vec<bool>>, AllocError>
    ensures { IfOk result (λ marks. option_map (λ v. v.items) marks ≡ marks_in objects.now number) }
{
    match objects {
        None => Ok(None),
        Some(functions) => match functions.as_slice().get(number) {
            None => Ok(None),
            Some(marks) => Ok(Some(marks.as_slice().to_vec(alloc)?)),
        },
    }
}

// The variable that a parameter is.
fn parameter_named(typer: &Typer, what: Designated, words: &[TypeWord]) -> Option<Variable>
    ensures { parameter_if result ≡ parameter_in (state_of typer.now) (meanings.Named what words.now) }
{
    match what {
        Designated::Variable(number) => Some(Variable {
            kind: kind_of_place(typer.extents(), words),
            is_object: is_object(typer, true, number, words),
        }),
        _ => None,
    }
}

fn parameter_in(typer: &Typer, meaning: &Meaning) -> Option<Variable>
    ensures { parameter_if result ≡ parameter_in (state_of typer.now) meaning.now }
{
    match meaning {
        Meaning::Named(what, c_type) => parameter_named(typer, *what, c_type.words()),
        _ => None,
    }
}

// Puts the variable that a parameter is behind others, where one of the names of a scope is a parameter.
fn add_parameter(
    typer: &Typer,
    parameters: &mut Vec<Variable>,
    meaning: Option<&Meaning>,
) -> Result<(), AllocError>
    ensures { OnOk result (parameters.new.items
        ≡ parameters.old.items ++ parameter_of (state_of typer.now) (option_copied meaning.entry)) }
{
    let Some(meaning) = meaning else {
        return Ok(());
    };
    match parameter_in(typer, meaning) {
        None => Ok(()),
        Some(variable) => {
            parameters.push(variable)?;
            Ok(())
        }
    }
}

// The variables that the names of a scope of parameters are.
#[tactic(auto, using(crate::proofs::Parameters::parameters_end))]
fn parameters_in(typer: &Typer, names: &Names<Meaning>) -> Result<Vec<Variable>, AllocError>
    ensures { IfOk result (λ vs. vs.items ≡ parameters_in (state_of typer.now) (names_of names.now)) }
{
    let mut parameters = Vec::new(typer.alloc);
    for number in 0..names.len() {
        add_parameter(typer, &mut parameters, names.at(number))?;
    }
    Ok(parameters)
}

// A type of functions, behind the others where it is none of them.
fn with_type<'a>(typer: &mut Typer<'a>, words: &[TypeWord]) -> Result<(), AllocError>
    ensures { OnOk result (state_of typer.new ≡ with_type words.now (state_of typer.old)) }
{
    if place_among(words, &typer.function_types) < typer.function_types.len() {
        return Ok(());
    }
    let c_type = CType::new(words.to_vec(typer.alloc)?);
    typer.function_types.push(c_type)?;
    Ok(())
}

// The state of the block of a function before its parameters.
fn begin<'a>(file: &mut FileTyper<'a>, number: usize) -> Result<(), AllocError>
    ensures { OnOk result (file_of file.new ≡ begun number (file_of file.old)) }
{
    let alloc = file.typer.alloc;
    file.typer.objects = marks_in(alloc, &file.objects, number)?;
    file.typer.taken = Vec::new(alloc);
    file.typer.function = Some(number);
    file.variables = Vec::new(alloc);
    Ok(())
}

/// Enters the block of the function with a number and a type, in the scope of its parameters, and gives these.
pub(crate) fn enter<'a>(
    file: &mut FileTyper<'a>,
    number: usize,
    words: &[TypeWord],
    scope: ParameterScope<'a>,
) -> Result<Vec<Variable>, AllocError>
    ensures entered { OnOk result
        (file_of file.new ≡ entered number words.now (scope_of scope.entry) (file_of file.old)) }
    ensures parameters { IfOk result (λ vs. vs.items
        ≡ parameters_in (entered number words.now (scope_of scope.entry) (file_of file.old)).state
        (scope_of scope.entry).names) }
{
    begin(file, number)?;
    let parameters = parameters_in(&file.typer, &scope.names)?;
    file.typer.environment.enter_parameters(scope)?;
    with_type(&mut file.typer, words)?;
    Ok(parameters)
}

/// Leaves the block of a function, whose name stands on a line.
pub(crate) fn leave<'a>(
    file: &mut FileTyper<'a>,
    line: Line,
    c_type: CType,
    parameters: Vec<Variable>,
    body: Items<Statement>,
) -> Result<(), AllocError>
    ensures { OnOk result (file_of file.new
        ≡ left line c_type parameters.items (file_of file.old, statements_in (map statement_of body))) }
{
    let alloc = file.typer.alloc;
    let variables = mem::replace(&mut file.variables, Vec::new(alloc));
    let taken = mem::replace(&mut file.typer.taken, Vec::new(alloc));
    file.typer.environment.close();
    file.typer.environment.variables = 0;
    file.typer.objects = None;
    file.typer.function = None;
    file.definitions.push(Definition {
        line,
        c_type,
        parameters: Items::from_vec(parameters),
        variables: Items::from_vec(variables),
        body,
    })?;
    file.taken.push(Items::from_vec(taken))?;
    Ok(())
}
