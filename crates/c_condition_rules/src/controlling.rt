//! The controlling expressions of statements (C99 6.8.4, 6.8.5).

ghost use Rattle.c_tree.specs.View.{expression_of};
ghost use Rattle.c_faults.specs.Answer.{Gives};
ghost use Rattle.c_rules.specs.Values.{value_of};
ghost use Rattle.c_condition_rules.specs.Conditions.{condition, switch_value};

use c_faults::{Refusal, Rule};
use c_place_rules::refusal::refused;
use c_rules::unary::is_scalar;
use c_rules::value::{converted, integer, typed};
use c_rules::{Class, TypedValue};
use c_tree::{Expression, Extent};
use sb_base::Line;
use std::alloc::Global;

/// The condition of an `if` or a loop, with the line of the statement's first token. The rule on conditions is violated
/// by what is no scalar.
#[tactic(auto, unfolding(crate::specs::Conditions::condition))]
pub fn condition(
    structures: &[Option<Extent>],
    line: Line,
    value: TypedValue,
) -> Result<Expression, Refusal>
    ensures { Gives expression_of result (condition structures.now line (value_of value)) }
{
    if is_scalar(Class::of(structures, value.c_type.words())) {
        Ok(value.tree)
    } else {
        refused(value, Rule::NoCondition, line)
    }
}

/// The value of a switch, with the line of its first token: an integer, which is promoted; its type is that of the
/// values of the labels. The rule on conditions is violated by what is no integer.
#[tactic(auto, unfolding(crate::specs::Conditions::switch_value))]
pub fn switch_value(
    alloc: Global,
    structures: &[Option<Extent>],
    line: Line,
    value: TypedValue,
) -> Result<TypedValue, Refusal>
    ensures { Gives value_of result (switch_value structures.now line (value_of value)) }
{
    match Class::of(structures, value.c_type.words()) {
        Class::Integer(t) => {
            let tree = converted(alloc, integer(t.promoted()), value.tree)?;
            typed(alloc, t.promoted(), tree)
        }
        _ => refused(value, Rule::NoCondition, line),
    }
}
