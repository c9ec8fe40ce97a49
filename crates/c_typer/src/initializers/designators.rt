//! Designators (C99 6.7.8 paragraphs 6 and 7).

ghost use Rattle.std.specs.Prelude.{false};
ghost use Rattle.c_syntax.specs.StatementsView.{designation_of, designator_of, designators_in};
ghost use Rattle.c_syntax.specs.View.{expression_of};
ghost use Rattle.c_initializer_rules.specs.Initializing.{initializing_of};
ghost use Rattle.c_typing_state.specs.State.{Types, state_of, ◌>>>◌};
ghost use Rattle.c_expression_typing.specs.Constructs.{valued};
ghost use Rattle.c_expression_typing.specs.Typed.{typed};
ghost use Rattle.c_unit_typing.specs.Initializers.{by_index, designated, designated_by, designated_once};

use crate::initializers::steps::{with_index, with_name};
use crate::initializers::values::{index_of, value};
use c_faults::Refusal;
use c_initializer_rules::Initializing;
use c_syntax::Expression;
use c_syntax::declaration::{Designation, Designator};
use c_typing_state::Typer;
use sb_base::Line;

// `[ expression ]`, with the line of the `[`.
fn by_index<'a>(
    typer: &mut Typer<'a>,
    begun: &mut Initializing,
    line: Line,
    tree: &Expression<'a>,
) -> Result<(), Refusal>
    ensures { Types (λ done. initializing_of begun.new) (state_of typer.new) result
        ((valued (typed false (expression_of tree.now)) >>> λ v. by_index line (initializing_of begun.old) v)
        (state_of typer.old)) }
{
    let value = value(typer, false, tree)?;
    with_index(typer, begun, line, index_of(value))
}

// A designator.
fn designated_once<'a>(
    typer: &mut Typer<'a>,
    begun: &mut Initializing,
    tree: &Designator<'a>,
) -> Result<(), Refusal>
    ensures { Types (λ done. initializing_of begun.new) (state_of typer.new) result
        (designated_once (designator_of tree.now) (initializing_of begun.old) (state_of typer.old)) }
{
    match tree {
        Designator::Element(opening, tree, _) => {
            by_index(typer, begun, opening.line, tree.get())
        }
        Designator::Member(dot, name) => {
            with_name(typer, begun, dot.line, name.spelling.bytes())
        }
    }
}

// Designators from left to right.
fn designated<'a>(
    typer: &mut Typer<'a>,
    begun: &mut Initializing,
    trees: &[Designator<'a>],
) -> Result<(), Refusal>
    ensures { Types (λ done. initializing_of begun.new) (state_of typer.new) result
        (designated (designators_in trees.now) (initializing_of begun.old) (state_of typer.old)) }
{
    for tree in trees {
        designated_once(typer, begun, tree)?;
    }
    Ok(())
}

/// The designators of an item, if it has any: the object that they name is the next one. The rule on items is violated
/// at the `[` or `.` of a designator that names no part.
pub(crate) fn designated_by<'a>(
    typer: &mut Typer<'a>,
    begun: &mut Initializing,
    designation: &Option<Designation<'a>>,
) -> Result<(), Refusal>
    ensures { Types (λ done. initializing_of begun.new) (state_of typer.new) result
        (designated_by (designation_of designation.now) (initializing_of begun.old) (state_of typer.old)) }
{
    match designation {
        None => Ok(()),
        Some(designation) => {
            begun.begin_designation(typer.alloc)?;
            designated(typer, begun, designation.designators.as_slice())
        }
    }
}
