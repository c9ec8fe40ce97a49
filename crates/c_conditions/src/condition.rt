//! From the tokens of a condition to its value (C99 6.10.1).

ghost use Rattle.std.specs.Prelude.{◌≡◌, Ok};
ghost use Rattle.c_conditions.specs.Conditions as spec;
ghost use Rattle.c_syntax.specs.View.{expression_of};

use crate::value::Value;
use c_expressions::leveled::Leveled;
use c_expressions::nested::expression;
use c_grammar::cursor::{Cursor, Fault};
use c_grammar::least_precedence;
use c_grammar::typedef_names::TypedefNames;
use c_lexer::Token;
use c_syntax::{Boxed, Expression, Positioned, with_positions};
use std::alloc::{AllocError, Global};

/// One more than the levels that a condition may have.
const LEVELS: usize = 201;

/// Why tokens have no value as a condition.
#[derive(Clone, Copy, Debug, PartialEq, Eq)]
pub enum ConditionFault {
    /// They are no condition, or an operand that is evaluated divides by zero.
    NoValue,
    /// There was no memory.
    Memory,
}

impl From<AllocError> for ConditionFault {
    ghost use Rattle.c_conditions.specs.declared.condition.ConditionFault.TheVariants.{Memory};

    ghost from_gives = { λ _ e. e ≡ Memory };

    fn from(_error: AllocError) -> ConditionFault {
        ConditionFault::Memory
    }
}

/// The value of a tree behind which no word is left, if it has one.
fn word_of(tree: Leveled<Boxed<Expression>>, rest: &[Positioned]) -> Option<u64>
    ensures { result ≡ spec.word_in (spec.value_in (spec.whole (Ok (expression_of tree.entry.tree, rest.now)))) }
{
    if rest.is_empty() {
        Value::of(tree.tree.get())?.word
    } else {
        None
    }
}

/// The value of the condition that these words are.
#[tactic(auto, unfolding(crate::specs::Conditions::conditional_expression))]
fn read<'a>(alloc: Global, words: &[Positioned<'a>]) -> Result<u64, ConditionFault>
    ensures { spec.Answers (spec.word_in (spec.value_in (spec.conditional_expression words.now))) result }
{
    let names = TypedefNames::new(alloc);
    let mut cursor = Cursor { rest: words };
    let least = least_precedence::CONDITIONAL;
    match expression(alloc, &names, &mut cursor, LEVELS, None, least) {
        Ok(tree) => word_of(tree, cursor.rest).ok_or(ConditionFault::NoValue),
        Err(Fault::Refused) => Err(ConditionFault::NoValue),
        Err(Fault::Memory) => Err(ConditionFault::Memory),
    }
}

/// The value of a condition in which each name has become `0`, as a number modulo 2^64 (C99 6.10.1 paragraph 4).
/// `NoValue` where the tokens are no conditional expression of at most 200 levels over integer and character constants,
/// by parentheses and the unary, binary, logical and conditional operators, and where an operand that is evaluated
/// divides by zero.
#[tactic(auto, unfolding(crate::specs::Conditions::condition_value))]
pub fn evaluate(alloc: Global, tokens: &[Token]) -> Result<u64, ConditionFault>
    ensures { spec.Answers (spec.condition_value tokens.now) result }
{
    let words = with_positions(alloc, tokens)?;
    read(alloc, &words)
}
