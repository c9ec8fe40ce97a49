//! Function definitions and the external declarations of a file (C99 6.9), in the order of the tokens.

ghost use Rattle.std.specs.Prelude.{◌≡◌, Some, false, map, option_map};
ghost use Rattle.c_syntax.specs.StatementsView as views;
ghost use Rattle.c_syntax.specs.View as view;
ghost use Rattle.c_tree.specs.View.{statement_of};
ghost use Rattle.c_tree.specs.Statements.{statements_in};
ghost use Rattle.c_scope.specs.declared.meaning.Meaning.TheVariants as meanings;
ghost use Rattle.c_scope.specs.Parameters.{scope_of};
ghost use Rattle.c_declarator_typing.specs.Declarators.{located, shape_of};
ghost use Rattle.c_declarator_typing.specs.Specifications.{specification_of};
ghost use Rattle.c_typing_state.specs.State.{Types, judged, state_of, ◌>>>◌};
ghost use Rattle.c_expression_typing.specs.Typed.{specification};
ghost use Rattle.c_programs.specs.FileState.{FileTypes, file_of};
ghost use Rattle.c_unit_typing.specs.Declarations.{stored_once};
ghost use Rattle.c_unit_typing.specs.Units.{around_body, body, body_of, defined_by, definition, entered, external};
ghost use Rattle.c_unit_typing.specs.Units.{externals, scope_or_none, with_body};

use crate::declarations::declarators::declaration;
use crate::declarations::specifying::stored_once;
use crate::entering::{enter, leave};
use crate::initializers::dropping::let_go;
use crate::naming::defined_as;
use crate::statements::around::Around;
use crate::statements::statement::block_items;
use c_call_rules::function_type::result_type;
use c_declarator_typing::{Shape, Specification};
use c_faults::Refusal;
use c_programs::state::FileTyper;
use c_rules::holding::beside;
use c_scope::meaning::{Designated, Meaning};
use c_scope::names::Names;
use c_scope::parameters::ParameterScope;
use c_syntax::{Block, Declarator, External, Specifier};
use c_syntax_typing::{declarator, specifiers};
use c_tree::{CType, Statement, TypeWord};
use c_typing_state::Typer;
use sb_base::Line;
use std::alloc::Global;
use tree_containers::Items;

// The statements of the block of a function with a type.
fn body<'a>(
    file: &mut FileTyper<'a>,
    words: &[TypeWord],
    block: &Block<'a>,
) -> Result<Items<Statement>, Refusal>
    ensures { FileTypes (λ ss. statements_in (map statement_of ss)) (file_of file.new) result
        (body (around_body words.now) (views.block_of block.now) (file_of file.old)) }
{
    let around = Around {
        may_break: false,
        may_continue: false,
        result: result_type(words),
    };
    block_items(file, around, block.items.as_slice())
}

// The scope of parameters that directly follow a name, or no names.
fn scope_or_none<'a>(alloc: Global, scope: Option<ParameterScope<'a>>) -> ParameterScope<'a>
    ensures { scope_of result ≡ scope_or_none (option_map scope_of scope.entry) }
{
    match scope {
        Some(scope) => scope,
        None => ParameterScope {
            names: Names::new(alloc),
            tags: Names::new(alloc),
            variables: 0,
        },
    }
}

// The block of a function with a number and a type, whose name stands on a line.
fn with_function<'a>(
    file: &mut FileTyper<'a>,
    line: Line,
    scope: Option<ParameterScope<'a>>,
    block: &Block<'a>,
    number: usize,
    c_type: CType,
) -> Result<(), Refusal>
    ensures { FileTypes (λ done. done) (file_of file.new) result (body_of line c_type
        (scope_or_none (option_map scope_of scope.entry)) (views.block_of block.now)
        (entered number c_type (scope_or_none (option_map scope_of scope.entry)) (file_of file.old))) }
{
    let scope = scope_or_none(file.typer.alloc, scope);
    let parameters = enter(file, number, c_type.words(), scope)?;
    let statements = body(file, c_type.words(), block)?;
    leave(file, line, c_type, parameters, statements)?;
    Ok(())
}

// The block of what a name stands for, where that is a function of the file.
fn with_named<'a>(
    file: &mut FileTyper<'a>,
    line: Line,
    scope: Option<ParameterScope<'a>>,
    block: &Block<'a>,
    what: Designated,
    c_type: CType,
) -> Result<(), Refusal>
    ensures { FileTypes (λ done. done) (file_of file.new) result (with_body line (option_map scope_of scope.entry)
        (views.block_of block.now) (Some (meanings.Named what c_type)) (file_of file.old)) }
{
    match what {
        Designated::Function(number) => with_function(file, line, scope, block, number, c_type),
        _ => Ok(()),
    }
}

fn with_meaning<'a>(
    file: &mut FileTyper<'a>,
    line: Line,
    scope: Option<ParameterScope<'a>>,
    block: &Block<'a>,
    meaning: Meaning,
) -> Result<(), Refusal>
    ensures { FileTypes (λ done. done) (file_of file.new) result (with_body line (option_map scope_of scope.entry)
        (views.block_of block.now) (Some meaning) (file_of file.old)) }
{
    match meaning {
        Meaning::Named(what, c_type) => with_named(file, line, scope, block, what, c_type),
        _ => Ok(()),
    }
}

// The block of a definition whose name is declared.
fn with_body<'a>(
    file: &mut FileTyper<'a>,
    line: Line,
    scope: Option<ParameterScope<'a>>,
    block: &Block<'a>,
    meaning: Option<Meaning>,
) -> Result<(), Refusal>
    ensures { FileTypes (λ done. done) (file_of file.new) result (with_body line (option_map scope_of scope.entry)
        (views.block_of block.now) meaning (file_of file.old)) }
{
    match meaning {
        None => Ok(()),
        Some(meaning) => with_meaning(file, line, scope, block, meaning),
    }
}

// A definition by what its declarator says.
fn defined_by<'a>(
    file: &mut FileTyper<'a>,
    specification: &Specification,
    shape: Shape<'a>,
    block: &Block<'a>,
) -> Result<(), Refusal>
    ensures { FileTypes (λ done. done) (file_of file.new) result (defined_by (specification_of specification.now)
        (shape_of shape.entry) (views.block_of block.now) (shape_of shape.entry).name (file_of file.old)) }
{
    let Some(name) = &shape.name else {
        return Ok(());
    };
    let line = name.line;
    let meaning = defined_as(&mut file.typer, specification, &shape, name)?;
    let Shape {
        name: _,
        derivations: _,
        parameters,
    } = shape;
    with_body(file, line, parameters, block, meaning)
}

// The specifiers of a definition.
fn specified<'a>(typer: &mut Typer<'a>, trees: &[Specifier<'a>]) -> Result<Specification, Refusal>
    ensures { Types specification_of (state_of typer.new) result
        ((specification false (view.specifiers_in trees.now) >>> λ spec. judged (stored_once spec))
        (state_of typer.old)) }
{
    let specification = specifiers(typer, false, trees)?;
    let judged = stored_once(&specification);
    let (specification, _) = beside(specification, judged)?;
    Ok(specification)
}

// A function definition (6.9.1).
fn definition<'a>(
    file: &mut FileTyper<'a>,
    trees: &[Specifier<'a>],
    tree: &Declarator<'a>,
    block: &Block<'a>,
) -> Result<(), Refusal>
    ensures { FileTypes (λ done. done) (file_of file.new) result (definition (view.specifiers_in trees.now)
        (view.declarator_of tree.now) (views.block_of block.now) (file_of file.old)) }
{
    let specification = specified(&mut file.typer, trees)?;
    let shape = declarator(&mut file.typer, true, tree);
    let (specification, shape) = beside(specification, shape)?;
    let defined = defined_by(file, &specification, shape, block);
    let_go(specification);
    defined
}

fn external<'a>(file: &mut FileTyper<'a>, tree: &External<'a>) -> Result<(), Refusal>
    ensures { FileTypes (λ done. done) (file_of file.new) result
        (external (views.external_of tree.now) (file_of file.old)) }
{
    match tree {
        External::Function(specifiers, declarator, block) => {
            definition(file, specifiers.as_slice(), declarator.get(), block)
        }
        External::Declaration(tree) => {
            let variables = declaration(file, false, tree)?;
            let_go(variables);
            Ok(())
        }
    }
}

/// Types the external declarations of a file, in order.
pub(crate) fn externals<'a>(file: &mut FileTyper<'a>, trees: &[External<'a>]) -> Result<(), Refusal>
    ensures { FileTypes (λ done. done) (file_of file.new) result
        (externals (views.externals_in trees.now) (file_of file.old)) }
{
    for tree in trees {
        external(file, tree)?;
    }
    Ok(())
}
