//! The head of a `for` (C99 6.8.5.3).

ghost use Rattle.std.specs.Prelude.{◌≡◌, option_map, map};
ghost use Rattle.c_syntax.specs.declared.position.Position.{Position};
ghost use Rattle.c_syntax.specs.Statements as syntax;
ghost use Rattle.c_syntax.specs.StatementsView as views;
ghost use Rattle.c_syntax.specs.View as view;
ghost use Rattle.c_tree.specs.Statements as built;
ghost use Rattle.c_tree.specs.View.{declared_of, expression_of, first_of};
ghost use Rattle.c_faults.specs.Answer.{Gives};
ghost use Rattle.c_rules.specs.Values.{value_of};
ghost use Rattle.c_typing_state.specs.State.{Types, state_of};
ghost use Rattle.c_programs.specs.FileState.{FileTypes, file_of};
ghost use Rattle.c_unit_typing.specs.Constructs as constructs;
ghost use Rattle.c_unit_typing.specs.Files.{finished, in_state, ◌~>◌};
ghost use Rattle.c_typer.specs.Around.{head_of};

use crate::declarations::declarators::declaration;
use crate::statements::allocated::Allocated;
use crate::statements::controlling::{controls, evaluated, evaluated_if, valued_if};
use c_faults::Refusal;
use c_programs::state::FileTyper;
use c_rules::TypedValue;
use c_rules::holding::beside;
use c_syntax::{Boxed, Declaration, Expression as ExpressionTree, ForHead, ForInit};
use c_tree::{Expression, First};
use c_typing_state::Typer;
use sb_base::Line;
use tree_containers::Items;

/// The head of a `for`.
#[derive(Drop)]
pub struct Head {
    /// The first part.
    pub first: Allocated<First>,
    /// The condition.
    pub condition: Option<Allocated<Expression>>,
    /// What each turn ends with.
    pub step: Option<Allocated<Expression>>,
}

// The first part that is a declaration.
fn first_declared<'a>(
    file: &mut FileTyper<'a>,
    tree: &Declaration<'a>,
) -> Result<Allocated<First>, Refusal>
    ensures { FileTypes first_of (file_of file.new) result
        (constructs.first_typed (syntax.declares (views.declaration_of tree.now)) (file_of file.old)) }
{
    let variables = declaration(file, true, tree)?;
    let first = First::Declaration(Items::from_vec(variables));
    let first = Allocated::new(file.typer.alloc, first)?;
    Ok(first)
}

// The first part that is an expression.
fn first_expression<'a>(
    file: &mut FileTyper<'a>,
    tree: &ExpressionTree<'a>,
) -> Result<Allocated<First>, Refusal>
    ensures { FileTypes first_of (file_of file.new) result ((in_state (constructs.evaluated (view.expression_of
        tree.now)) ~> λ e. finished (built.first_expression e)) (file_of file.old)) }
{
    let tree = evaluated(&mut file.typer, tree)?;
    let first = First::Expression(tree.take());
    let first = Allocated::new(file.typer.alloc, first)?;
    Ok(first)
}

// The first part that is an expression or nothing.
fn first_evaluated<'a>(
    file: &mut FileTyper<'a>,
    tree: &Option<Boxed<ExpressionTree<'a>>>,
) -> Result<Allocated<First>, Refusal>
    ensures { (at : Position) → FileTypes first_of (file_of file.new) result
        (constructs.first_typed (syntax.evaluates (views.optional_of tree.now) at) (file_of file.old)) }
{
    match tree {
        None => {
            let first = Allocated::new(file.typer.alloc, First::Nothing)?;
            Ok(first)
        }
        Some(tree) => first_expression(file, tree.get()),
    }
}

// The first part.
fn first_typed<'a>(
    file: &mut FileTyper<'a>,
    tree: &ForInit<'a>,
) -> Result<Allocated<First>, Refusal>
    ensures { FileTypes first_of (file_of file.new) result
        (constructs.first_typed (views.for_init_of tree.now) (file_of file.old)) }
{
    match tree {
        ForInit::Declaration(tree) => first_declared(file, tree),
        ForInit::Expression(tree, _) => first_evaluated(file, tree),
    }
}

// A condition, if there is one.
fn controls_if(
    typer: &Typer,
    line: Line,
    value: Option<Allocated<TypedValue>>,
) -> Result<Option<Allocated<Expression>>, Refusal>
    ensures { Gives (option_map expression_of) result
        (constructs.controls_if line (option_map value_of value) (state_of typer.now)) }
{
    match value {
        None => Ok(None),
        Some(value) => {
            let condition = controls(typer, line, value)?;
            Ok(Some(condition))
        }
    }
}

// The second and third part behind the first.
fn behind_first<'a>(
    typer: &mut Typer<'a>,
    line: Line,
    condition: &Option<Boxed<ExpressionTree<'a>>>,
    step: &Option<Boxed<ExpressionTree<'a>>>,
    first: Allocated<First>,
) -> Result<Allocated<Head>, Refusal>
    ensures { Types head_of (state_of typer.new) result (constructs.behind_first line
        (views.optional_of condition.now) (views.optional_of step.now) (first_of first) (state_of typer.old)) }
{
    let (first, value) = beside(first, valued_if(typer, condition))?;
    let (parts, step) = beside((first, value), evaluated_if(typer, step))?;
    let (first, value) = parts;
    let (parts, condition) = beside((first, step), controls_if(typer, line, value))?;
    let (first, step) = parts;
    let head = Head {
        first,
        condition,
        step,
    };
    let head = Allocated::new(typer.alloc, head)?;
    Ok(head)
}

/// The head of a `for`, with the line of the word: all three parts are typed before the rule on conditions is judged.
/// Refusals as of the declaration, of the expressions and of `controls`.
pub(crate) fn head_typed<'a>(
    file: &mut FileTyper<'a>,
    line: Line,
    tree: &ForHead<'a>,
) -> Result<Allocated<Head>, Refusal>
    ensures { FileTypes head_of (file_of file.new) result (constructs.head_typed line
        (views.for_init_of tree.now.init) (views.optional_of tree.now.condition) (views.optional_of tree.now.step)
        (file_of file.old)) }
{
    let first = first_typed(file, &tree.init)?;
    behind_first(&mut file.typer, line, &tree.condition, &tree.step, first)
}
