//! A `for` that counts a plain int variable up by 1 over a range of constants.

ghost use Rattle.std.specs.Prelude.{◌≡◌, option_map};
ghost use Rattle.c_tree.specs.View.{expression_of, first_of, initializer_of, statement_of};
ghost use Rattle.c_lower.specs.Counted.{int_constant, is_one, int_variable, bare_name, is_variable, set_to};
ghost use Rattle.c_lower.specs.Counted.{set_by_name};
ghost use Rattle.c_lower.specs.Counted.{set_by, set_first, compared_with, counts_up, counted_by, counted_parts};
ghost use Rattle.program_lowering.specs.StatementParts.Counting.{setting_with, parts_with};

use crate::parts::assigned::statement_assigns;
use c_const::constant_word;
use c_tree::{Expression, First, Initializer, Kind, Node, PlainName, Statement, Update};
use obj_memory::{BinaryOperator, IntType, Scalar};

/// A plain variable, by its number in the function, and a word.
#[derive(Clone, Copy)]
pub struct Set {
    pub variable: usize,
    pub word: u64,
}

/// The variable of a counted loop, and the words from which and below which it counts.
#[derive(Clone, Copy)]
pub struct Range {
    pub variable: usize,
    pub start: u64,
    pub bound: u64,
}

// An integer constant expression whose own type is int.
fn int_constant(e: &Expression) -> Option<u64>
    ensures { result ≡ int_constant (expression_of e.now) }
{
    match &e.node {
        Node::Convert(_) => None,
        _ => match e.kind {
            Kind::Scalar(Scalar::Integer(IntType::Int)) => constant_word(e),
            _ => None,
        },
    }
}

// Whether it is the constant 1 of type int.
fn is_one(e: &Expression) -> bool
    ensures { result ≡ is_one (expression_of e.now) }
{
    match e.kind {
        Kind::Scalar(Scalar::Integer(IntType::Int)) => match &e.node {
            Node::Constant(word) => *word == 1,
            _ => false,
        },
        _ => false,
    }
}

// An int variable by its name alone.
fn int_variable(e: &Expression) -> Option<usize>
    ensures { result ≡ int_variable (expression_of e.now) }
{
    match e.kind {
        Kind::Scalar(Scalar::Integer(IntType::Int)) => match &e.node {
            Node::Plain(x) => Some(*x),
            _ => None,
        },
        _ => None,
    }
}

// An assigned variable whose name stands in no parentheses.
fn bare_name(x: PlainName) -> Option<usize>
    ensures { result ≡ bare_name x }
{
    if x.parentheses == 0 {
        Some(x.variable)
    } else {
        None
    }
}

fn is_variable(v: usize, x: Option<usize>) -> bool
    ensures { result ≡ is_variable v x }
{
    match x {
        Some(x) => x == v,
        None => false,
    }
}

fn set_to(variable: usize, word: Option<u64>) -> Option<Set>
    ensures { setting_with result ≡ set_to variable word }
{
    match word {
        Some(word) => Some(Set { variable, word }),
        None => None,
    }
}

fn set_by_name(variable: Option<usize>, word: Option<u64>) -> Option<Set>
    ensures { setting_with result ≡ set_by_name variable word }
{
    match variable {
        Some(x) => set_to(x, word),
        None => None,
    }
}

fn set_by(e: &Expression) -> Option<Set>
    ensures { setting_with result ≡ set_by (expression_of e.now) }
{
    match &e.node {
        Node::SetPlain(x, a) => set_by_name(bare_name(*x), int_constant(a.get())),
        _ => None,
    }
}

fn set_first(first: &First) -> Option<Set>
    ensures { setting_with result ≡ set_first (first_of first.now) }
{
    match first {
        First::Nothing => None,
        First::Expression(e) => set_by(e),
        First::Declaration(declared) => match declared.as_slice() {
            [d] => match &d.initializer {
                Some(Initializer::Plain(e)) => set_to(d.variable, int_constant(e)),
                Some(Initializer::Object(_)) | None => None,
            },
            _ => None,
        },
    }
}

fn compared_with(condition: &Option<Expression>) -> Option<Set>
    ensures { setting_with result ≡ compared_with (option_map expression_of condition.now) }
{
    match condition {
        Some(e) => match &e.node {
            Node::Binary(BinaryOperator::Less, a, b) => {
                set_by_name(int_variable(a.get()), int_constant(b.get()))
            }
            _ => None,
        },
        None => None,
    }
}

fn counts_up(v: usize, step: &Option<Expression>) -> bool
    ensures { result ≡ counts_up v (option_map expression_of step.now) }
{
    match step {
        Some(e) => match &e.node {
            Node::StepPlain(Update::Arithmetic(BinaryOperator::Add, IntType::Int), _, x) => {
                is_variable(v, bare_name(*x))
            }
            Node::SetPlain(x, sum) => match &sum.get().node {
                Node::Binary(BinaryOperator::Add, a, b) => {
                    is_variable(v, bare_name(*x))
                        && (is_variable(v, int_variable(a.get())) && is_one(b.get()))
                }
                _ => false,
            },
            _ => false,
        },
        None => false,
    }
}

fn counted_by(
    first: Option<Set>,
    bound: Option<Set>,
    step: &Option<Expression>,
    body: &Statement,
) -> Option<Range>
    ensures { parts_with result ≡ counted_by (setting_with first) (setting_with bound)
        (option_map expression_of step.now) (statement_of body.now) }
{
    match (first, bound) {
        (Some(first), Some(bound)) => {
            let v = first.variable;
            if v == bound.variable && (counts_up(v, step) && !statement_assigns(v, body)) {
                Some(Range {
                    variable: v,
                    start: first.word,
                    bound: bound.word,
                })
            } else {
                None
            }
        }
        _ => None,
    }
}

/// The parts of a `for` that counts a plain int variable up by 1 over a range of constants, which its body assigns
/// nowhere; else none.
pub fn counted_parts(
    first: &First,
    condition: &Option<Expression>,
    step: &Option<Expression>,
    body: &Statement,
) -> Option<Range>
    ensures { parts_with result ≡ counted_parts (first_of first.now) (option_map expression_of condition.now)
        (option_map expression_of step.now) (statement_of body.now) }
{
    counted_by(set_first(first), compared_with(condition), step, body)
}
