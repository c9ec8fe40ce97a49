//! Typed trees of constant expressions, built from the steps of a row, operands first.

use crate::row::{found, integer_type, number};
use anyhow::{Result, bail};
use c_const::constant;
use c_tree::{Expression, Kind, Node};
use obj_memory::{BinaryOperator, IntType, Scalar, UnaryOperator};
use sb_base::Line;
use std::alloc::{AllocError, Global};
use tree_containers::Boxed;

/// What a node does with one operand.
#[derive(Clone, Copy)]
enum One {
    Parenthesized,
    Cast,
    Convert,
    Unary(UnaryOperator),
}

/// What a node does with two operands.
#[derive(Clone, Copy)]
enum Two {
    Binary(BinaryOperator),
    And,
    Or,
    Comma,
}

/// What a step builds above the last nodes that stand alone.
#[derive(Clone, Copy)]
enum Form {
    Word,
    One(One),
    Two(Two),
    Conditional,
}

const FORMS: [(&str, Form); 28] = [
    ("word", Form::Word),
    ("()", Form::One(One::Parenthesized)),
    ("cast", Form::One(One::Cast)),
    ("convert", Form::One(One::Convert)),
    ("unary+", Form::One(One::Unary(UnaryOperator::Plus))),
    ("unary-", Form::One(One::Unary(UnaryOperator::Negate))),
    ("~", Form::One(One::Unary(UnaryOperator::Complement))),
    ("!", Form::One(One::Unary(UnaryOperator::Not))),
    ("&&", Form::Two(Two::And)),
    ("||", Form::Two(Two::Or)),
    (",", Form::Two(Two::Comma)),
    ("?", Form::Conditional),
    ("+", Form::Two(Two::Binary(BinaryOperator::Add))),
    ("-", Form::Two(Two::Binary(BinaryOperator::Subtract))),
    ("*", Form::Two(Two::Binary(BinaryOperator::Multiply))),
    ("/", Form::Two(Two::Binary(BinaryOperator::Divide))),
    ("%", Form::Two(Two::Binary(BinaryOperator::Remainder))),
    ("<<", Form::Two(Two::Binary(BinaryOperator::ShiftLeft))),
    (">>", Form::Two(Two::Binary(BinaryOperator::ShiftRight))),
    ("&", Form::Two(Two::Binary(BinaryOperator::BitAnd))),
    ("^", Form::Two(Two::Binary(BinaryOperator::BitXor))),
    ("|", Form::Two(Two::Binary(BinaryOperator::BitOr))),
    ("<", Form::Two(Two::Binary(BinaryOperator::Less))),
    (">", Form::Two(Two::Binary(BinaryOperator::Greater))),
    ("<=", Form::Two(Two::Binary(BinaryOperator::LessOrEqual))),
    (">=", Form::Two(Two::Binary(BinaryOperator::GreaterOrEqual))),
    ("==", Form::Two(Two::Binary(BinaryOperator::Equal))),
    ("!=", Form::Two(Two::Binary(BinaryOperator::NotEqual))),
];

/// The step of `NAME:TYPE` or `word:TYPE:NUMBER`.
#[derive(Clone, Copy)]
struct Step {
    form: Form,
    of: IntType,
    word: u64,
}

impl Step {
    fn read(text: &str) -> Result<Step> {
        let mut parts = text.split(':');
        let form = found(&FORMS, parts.next())?;
        let of = integer_type(parts.next())?;
        let word = match parts.next() {
            None => 0,
            digits => number(digits)?,
        };
        Ok(Step { form, of, word })
    }
}

fn expression(of: IntType, node: Node) -> Expression {
    Expression {
        kind: Kind::Scalar(Scalar::Integer(of)),
        line: Line::new(1),
        node,
    }
}

// The last value that was put there, in a block of its own.
fn taken<T: Drop>(alloc: Global, stack: &mut Vec<T>) -> Result<Boxed<T>> {
    match stack.pop() {
        Some(value) => Ok(Boxed::new(alloc, value)?),
        None => bail!("no operand is left"),
    }
}

// The last two, in the order in which they were put there.
fn taken_pair<T: Drop>(alloc: Global, stack: &mut Vec<T>) -> Result<(Boxed<T>, Boxed<T>)> {
    let right = taken(alloc, stack)?;
    let left = taken(alloc, stack)?;
    Ok((left, right))
}

// The last three, likewise.
fn taken_three<T: Drop>(
    alloc: Global,
    stack: &mut Vec<T>,
) -> Result<(Boxed<T>, Boxed<T>, Boxed<T>)> {
    let (second, third) = taken_pair(alloc, stack)?;
    let first = taken(alloc, stack)?;
    Ok((first, second, third))
}

/// Puts a value behind others.
pub fn pushed<T: Drop>(values: &mut Vec<T>, value: T) -> Result<(), AllocError> {
    values.push(value)?;
    Ok(())
}

fn unary(form: One, operand: Boxed<Expression>) -> Node {
    match form {
        One::Parenthesized => Node::Parenthesized(operand),
        One::Cast => Node::Cast(operand),
        One::Convert => Node::Convert(operand),
        One::Unary(operator) => Node::Unary(operator, operand),
    }
}

fn binary(form: Two, left: Boxed<Expression>, right: Boxed<Expression>) -> Node {
    match form {
        Two::Binary(operator) => Node::Binary(operator, left, right),
        Two::And => Node::And(left, right),
        Two::Or => Node::Or(left, right),
        Two::Comma => Node::Comma(left, right),
    }
}

fn node(alloc: Global, stack: &mut Vec<Expression>, step: Step) -> Result<Node> {
    Ok(match step.form {
        Form::Word => Node::Constant(step.word),
        Form::One(form) => unary(form, taken(alloc, stack)?),
        Form::Two(form) => {
            let (left, right) = taken_pair(alloc, stack)?;
            binary(form, left, right)
        }
        Form::Conditional => {
            let (condition, first, second) = taken_three(alloc, stack)?;
            Node::Conditional(condition, first, second)
        }
    })
}

fn build(alloc: Global, stack: &mut Vec<Expression>, steps: &str) -> Result<()> {
    for text in steps.split(' ') {
        let step = Step::read(text)?;
        let node = node(alloc, stack, step)?;
        pushed(stack, expression(step.of, node))?;
    }
    Ok(())
}

fn put_value(rt: &HostRuntime, stack: &[Expression]) -> Result<()> {
    let [only] = stack else {
        bail!("no single expression");
    };
    match constant(only) {
        Some(value) => println!(rt; "{value}")?,
        None => println!(rt; "none")?,
    }
    Ok(())
}

/// `STEPS`: prints the value of the expression that the steps build, or `none`.
pub fn put(rt: &HostRuntime, steps: &str) -> Result<()> {
    let mut stack = Vec::new(rt.alloc());
    match build(rt.alloc(), &mut stack, steps) {
        Ok(()) => put_value(rt, stack.as_slice()),
        Err(error) => Err(error),
    }
}
