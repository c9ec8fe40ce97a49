//! The values of expressions, and what they are where they are constant.

ghost use Rattle.std.specs.Prelude.{◌≡◌};
ghost use Rattle.c_syntax.specs.View.{expression_of};
ghost use Rattle.c_rules.specs.Values.{value_of};
ghost use Rattle.c_typing_state.specs.State.{Types, state_of};
ghost use Rattle.c_expression_typing.specs.Constructs.{valued};
ghost use Rattle.c_expression_typing.specs.Typed.{typed};
ghost use Rattle.c_unit_typing.specs.Initializers.{index_in, is_index};

use crate::initializers::dropping::let_go;
use c_const::constant_word;
use c_declarator_typing::sizes::has_sign;
use c_faults::Refusal;
use c_operand_typing::operators;
use c_rules::TypedValue;
use c_syntax::Expression;
use c_syntax_typing::expression;
use c_typing_state::Typer;

/// The value of an expression (C99 6.3.2.1), which is evaluated or not. Refusals as of `expression`.
pub(crate) fn value<'a>(
    typer: &mut Typer<'a>,
    is_evaluated: bool,
    tree: &Expression<'a>,
) -> Result<TypedValue, Refusal>
    ensures { Types value_of (state_of typer.new) result
        (valued (typed is_evaluated (expression_of tree.now)) (state_of typer.old)) }
{
    let operand = expression(typer, is_evaluated, tree)?;
    operators::value(typer, operand)
}

fn is_index(has_sign: bool, word: u64) -> bool
    ensures { result ≡ is_index has_sign word }
{
    !has_sign || word < 1 << 63
}

/// The index that the value of the expression of `[ ]` gives (C99 6.7.8 paragraph 6), where that is an integer constant
/// expression that is not negative.
pub(crate) fn index_in(value: &TypedValue) -> Option<u64>
    ensures { result ≡ index_in (value_of value.now) }
{
    match constant_word(&value.tree) {
        Some(word) if is_index(has_sign(&value.tree), word) => Some(word),
        _ => None,
    }
}

/// The same of a value that is of no more use.
pub(crate) fn index_of(value: TypedValue) -> Option<u64>
    ensures { result ≡ index_in (value_of value) }
{
    let index = index_in(&value);
    let_go(value);
    index
}
