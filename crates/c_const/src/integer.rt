//! Integer constant expressions (C99 6.6 paragraph 6).

ghost use Rattle.std.specs.Prelude.{◌≡◌, ◌&&◌, IsTrue, ◌↔◌};
ghost use Rattle.c_tree.specs.Kinds.{is_integer};
ghost use Rattle.c_tree.specs.View.{expression_of};
ghost use Rattle.c_const.specs.Integers.{constant_of, constant_word, has_form, integer_of, truth, type_of, value_of};

use c_tree::{Expression, Kind, Node};
use obj_memory::{IntType, Scalar};

/// The value of an integer constant expression, in its type. There is none where the expression is no integer constant
/// expression: where it has another form, or where an operand that is evaluated divides by zero.
#[tactic(auto, unfolding(crate::specs::Integers::constant_of))]
pub fn constant(expression: &Expression) -> Option<i128>
    ensures { result ≡ constant_of (expression_of expression.now) }
{
    match constant_word(expression) {
        Some(word) => Some(integer_of(type_of(expression.kind), word)),
        None => None,
    }
}

/// The word of an integer constant expression: its value modulo 2^64. There is none where `constant` has none.
#[tactic(auto, unfolding(crate::specs::Integers::constant_word))]
pub fn constant_word(expression: &Expression) -> Option<u64>
    ensures { result ≡ constant_word (expression_of expression.now) }
{
    if has_form(expression) {
        value_of(expression)
    } else {
        None
    }
}

// The integer type of a kind.
fn type_of(kind: Kind) -> IntType
    ensures { result ≡ type_of kind }
{
    match kind {
        Kind::Scalar(Scalar::Integer(t)) => t,
        _ => IntType::UnsignedLong,
    }
}

fn is_integer(kind: Kind) -> bool
    ensures { result ≡ is_integer kind }
{
    matches!(kind, Kind::Scalar(Scalar::Integer(_)))
}

// The integer that a word of a type stands for.
#[tactic(auto, unfolding(crate::specs::Integers::integer_of))]
fn integer_of(of: IntType, word: u64) -> i128
    ensures { result ≡ integer_of of word }
{
    if of.is_signed() && word >= 1 << 63 {
        word as i128 - (1 << 64)
    } else {
        word as i128
    }
}

// Whether an expression has the form of an integer constant expression, its operands that are not evaluated too.
fn has_form(expression: &Expression) -> bool
    ensures { result ≡ has_form (expression_of expression.now) }
{
    is_integer(expression.kind)
        && match &expression.node {
            Node::Constant(_) => true,
            Node::Parenthesized(e) | Node::Cast(e) | Node::Convert(e) | Node::Unary(_, e) => {
                has_form(e.get())
            }
            Node::Binary(_, a, b) | Node::And(a, b) | Node::Or(a, b) => {
                has_form(a.get()) && has_form(b.get())
            }
            Node::Conditional(c, a, b) => {
                has_form(c.get()) && (has_form(a.get()) && has_form(b.get()))
            }
            _ => false,
        }
}

// A value as one that is true or false.
fn truth(value: Option<u64>) -> Option<u64>
    ensures { result ≡ truth value }
{
    match value {
        Some(word) => Some(u64::from(word != 0)),
        None => None,
    }
}

// The word of an expression of that form, unless an operand that is evaluated divides by zero.
fn value_of(expression: &Expression) -> Option<u64>
    ensures { result ≡ value_of (expression_of expression.now) }
{
    match &expression.node {
        Node::Constant(word) => Some(*word),
        Node::Parenthesized(e) => value_of(e.get()),
        Node::Cast(e) | Node::Convert(e) => {
            let word = value_of(e.get())?;
            Some(type_of(expression.kind).fit(word))
        }
        Node::Unary(op, e) => {
            let word = value_of(e.get())?;
            Some(op.apply(type_of(e.get().kind), word))
        }
        Node::Binary(op, a, b) => {
            let left = value_of(a.get())?;
            let right = value_of(b.get())?;
            op.apply(type_of(a.get().kind), left, right)
        }
        Node::And(a, b) => match value_of(a.get()) {
            Some(0) => Some(0),
            Some(_) => truth(value_of(b.get())),
            None => None,
        },
        Node::Or(a, b) => match value_of(a.get()) {
            Some(0) => truth(value_of(b.get())),
            Some(_) => Some(1),
            None => None,
        },
        Node::Conditional(c, a, b) => match value_of(c.get()) {
            Some(0) => value_of(b.get()),
            Some(_) => value_of(a.get()),
            None => None,
        },
        _ => None,
    }
}
