//! Expressions of integers alone (C99 6.5).

ghost use Rattle.std.specs.Prelude.{◌≡◌, map};
ghost use Rattle.c_tree.specs.Tree.{expressions_in};
ghost use Rattle.c_tree.specs.View.{expression_of};
ghost use Rattle.compiled_programs.specs.Programs.{are_integer_expressions, has_no_pointer, is_integer_expression};
ghost use Rattle.compiled_programs.specs.Programs.{is_integer_kind, is_integer_routine};
ghost use Rattle.compiled_programs.specs.Programs.{is_integer_update};

use c_tree::{Expression, Kind, Node, Routine, Update};
use obj_memory::Scalar;

/// Whether a value of a kind is an integer.
pub fn is_integer_kind(kind: Kind) -> bool
    ensures { result ≡ is_integer_kind kind }
{
    matches!(kind, Kind::Scalar(Scalar::Integer(_)))
}

/// Whether a kind is that of an integer, or of no value.
pub fn has_no_pointer(kind: Kind) -> bool
    ensures { result ≡ has_no_pointer kind }
{
    matches!(kind, Kind::Void | Kind::Scalar(Scalar::Integer(_)))
}

fn is_integer_routine(routine: Routine) -> bool
    ensures { result ≡ is_integer_routine routine }
{
    matches!(
        routine,
        Routine::Putchar | Routine::Getchar | Routine::Exit | Routine::Abort
    )
}

fn is_integer_update(update: Update) -> bool
    ensures { result ≡ is_integer_update update }
{
    matches!(update, Update::Arithmetic(_, _))
}

/// Whether an expression has integers alone.
#[cycle(expression)]
pub fn is_integer_expression(e: &Expression) -> bool
    ensures { result ≡ is_integer_expression (expression_of e.now) }
{
    if !has_no_pointer(e.kind) {
        return false;
    }
    match &e.node {
        Node::Constant(_) | Node::Plain(_) => true,
        Node::Parenthesized(a) | Node::Cast(a) | Node::Convert(a) | Node::Unary(_, a) => {
            is_integer_expression(a.get())
        }
        Node::Binary(_, a, b) | Node::And(a, b) | Node::Or(a, b) | Node::Comma(a, b) => {
            is_integer_expression(a.get()) && is_integer_expression(b.get())
        }
        Node::Conditional(c, a, b) => {
            is_integer_expression(c.get())
                && is_integer_expression(a.get())
                && is_integer_expression(b.get())
        }
        Node::SetPlain(_, a) => is_integer_expression(a.get()),
        Node::ChangePlain(update, _, a) => {
            is_integer_update(*update) && is_integer_expression(a.get())
        }
        Node::StepPlain(update, _, _) => is_integer_update(*update),
        Node::Call(_, args) => are_integer_expressions(args.as_slice()),
        Node::Library(routine, args) => {
            is_integer_routine(*routine) && are_integer_expressions(args.as_slice())
        }
        Node::Function(_) | Node::Read(_) | Node::Decay(_) | Node::Address(_) => false,
        Node::DerefFunction(_) | Node::AddressFunction(_) => false,
        Node::Offset(_, _, _, _) | Node::Difference(_, _, _) => false,
        Node::Assign(_, _) | Node::Compound(_, _, _) | Node::Step(_, _, _) => false,
        Node::CallThrough(_, _, _) | Node::Printf(_, _) => false,
    }
}

#[cycle(expression)]
fn are_integer_expressions(args: &[Expression]) -> bool
    ensures { result ≡ are_integer_expressions (expressions_in (map expression_of args.now)) }
{
    for first in args {
        if !is_integer_expression(first) {
            return false;
        }
    }
    true
}
