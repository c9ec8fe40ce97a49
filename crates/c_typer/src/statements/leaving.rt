//! `break`, `continue` and `return` (C99 6.8.6).

ghost use Rattle.std.specs.Prelude.{◌≡◌, Some};
ghost use Rattle.c_syntax.specs.StatementsView as views;
ghost use Rattle.c_syntax.specs.View as view;
ghost use Rattle.c_tree.specs.Statements as built;
ghost use Rattle.c_tree.specs.View.{statement_of};
ghost use Rattle.c_faults.specs.declared.fault.Refusal.TheVariants.{Fault as OfFault};
ghost use Rattle.c_faults.specs.declared.fault.Rule.TheVariants.{MistakenReturn};
ghost use Rattle.c_faults.specs.Answer.{Gives};
ghost use Rattle.c_rules.specs.Values.{value_of};
ghost use Rattle.c_typing_state.specs.State.{Types, state_of};
ghost use Rattle.c_unit_typing.specs.Constructs as constructs;

use crate::initializers::dropping::let_go;
use crate::statements::allocated::Allocated;
use crate::statements::building::{break_out, continue_on, give_back};
use crate::statements::controlling::allocated_value;
use c_faults::{Fault, Refusal, Rule};
use c_rules::TypedValue;
use c_rules::conversion::assigned;
use c_rules::value::unqualified;
use c_syntax::{Boxed, Expression as ExpressionTree};
use c_tree::{Statement, TypeWord};
use c_typing_state::Typer;
use sb_base::Line;

/// `break`, with its line. The rule on labels is violated where it may not stand.
pub(crate) fn break_at(
    typer: &Typer,
    may_stand: bool,
    line: Line,
) -> Result<Allocated<Statement>, Refusal>
    ensures { Gives statement_of result (constructs.jump may_stand line built.break (state_of typer.now)) }
{
    if may_stand {
        let statement = break_out(typer.alloc)?;
        Ok(statement)
    } else {
        let rule = Rule::MisplacedLabel;
        Err(Refusal::Fault(Fault { rule, line }))
    }
}

/// `continue`, with its line. The rule on labels is violated where it may not stand.
pub(crate) fn continue_at(
    typer: &Typer,
    may_stand: bool,
    line: Line,
) -> Result<Allocated<Statement>, Refusal>
    ensures { Gives statement_of result (constructs.jump may_stand line built.continue (state_of typer.now)) }
{
    if may_stand {
        let statement = continue_on(typer.alloc)?;
        Ok(statement)
    } else {
        let rule = Rule::MisplacedLabel;
        Err(Refusal::Fault(Fault { rule, line }))
    }
}

// Whether a function with this result gives no value.
fn gives_void(words: &[TypeWord]) -> bool
    ensures { result ≡ constructs.gives_void words.now }
{
    matches!(unqualified(words), [TypeWord::Void, ..])
}

// That a `return` has a value and should not, or the other way round.
fn mistaken(line: Line) -> Refusal
    ensures { result ≡ OfFault (record { rule = MistakenReturn; line = line }) }
{
    let rule = Rule::MistakenReturn;
    Refusal::Fault(Fault { rule, line })
}

// `return;`
fn returned_nothing(
    typer: &Typer,
    line: Line,
    words: &[TypeWord],
) -> Result<Allocated<Statement>, Refusal>
    ensures { Gives statement_of result (constructs.returned_nothing line words.now (state_of typer.now)) }
{
    if gives_void(words) {
        let statement = give_back(typer.alloc, None)?;
        Ok(statement)
    } else {
        Err(mistaken(line))
    }
}

// `return E;`
fn returned_value(
    typer: &Typer,
    line: Line,
    words: &[TypeWord],
    value: Allocated<TypedValue>,
) -> Result<Allocated<Statement>, Refusal>
    ensures { Gives statement_of result
        (constructs.returned_value line words.now (value_of value) (state_of typer.now)) }
{
    if gives_void(words) {
        let_go(value);
        return Err(mistaken(line));
    }
    let tree = assigned(typer.alloc, typer.extents(), line, words, value.take())?;
    let tree = Allocated::new(typer.alloc, tree)?;
    let statement = give_back(typer.alloc, Some(tree))?;
    Ok(statement)
}

/// `return` in a function whose result has this type, with its line. The rule on returns is violated by a value where
/// the function gives none, and by none where it gives one; other refusals as of the expression, and as of an
/// assignment.
pub(crate) fn returned<'a>(
    typer: &mut Typer<'a>,
    line: Line,
    words: &[TypeWord],
    tree: &Option<Boxed<ExpressionTree<'a>>>,
) -> Result<Allocated<Statement>, Refusal>
    ensures { Types statement_of (state_of typer.new) result
        (constructs.returned line words.now (views.optional_of tree.now) (state_of typer.old)) }
{
    match tree {
        None => returned_nothing(typer, line, words),
        Some(tree) => {
            let value = allocated_value(typer, true, tree.get())?;
            returned_value(typer, line, words, value)
        }
    }
}
