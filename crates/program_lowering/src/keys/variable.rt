//! Plain variables, as a key has them.

ghost use Rattle.std.specs.Prelude.{◌≡◌};
ghost use Rattle.c_tree.specs.View.{expression_of};
ghost use Rattle.c_lower.specs.Keys.{variable_of};

use c_tree::{Expression, Node};

/// A plain variable, in parentheses or not, by its number in the function.
pub fn variable(e: &Expression) -> Option<usize>
    ensures { result ≡ variable_of (expression_of e.now) }
{
    match &e.node {
        Node::Plain(x) => Some(*x),
        Node::Parenthesized(a) => variable(a.get()),
        _ => None,
    }
}
