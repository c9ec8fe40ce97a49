//! Whether the text of an expression assigns a plain variable (C99 6.5.2.4, 6.5.3.1, 6.5.16).

ghost use Rattle.std.specs.Prelude.{◌≡◌, map};
ghost use Rattle.c_tree.specs.Tree.{expressions_in};
ghost use Rattle.c_tree.specs.View.{expression_of, lvalue_of};
ghost use Rattle.c_tree.specs.Walk.{assigns, lvalue_assigns, any_assigns};

use c_tree::{Expression, Lvalue, LvalueNode, Node};

/// Whether an expression assigns the plain variable with this number, in an operand that is not evaluated too.
#[cycle(assigned)]
#[tactic(auto, using(crate::proofs::AccessKeys::Either::either))]
pub fn assigns(x: usize, e: &Expression) -> bool
    ensures { result ≡ assigns x (expression_of e.now) }
{
    match &e.node {
        Node::Constant(_) | Node::Function(_) | Node::Plain(_) => false,
        Node::Read(p) | Node::Decay(p) | Node::Address(p) | Node::Step(_, _, p) => {
            lvalue_assigns(x, p.get())
        }
        Node::Parenthesized(a)
        | Node::DerefFunction(a)
        | Node::AddressFunction(a)
        | Node::Cast(a)
        | Node::Convert(a)
        | Node::Unary(_, a) => assigns(x, a.get()),
        Node::Binary(_, a, b) | Node::Offset(_, _, a, b) | Node::Difference(_, a, b) => {
            assigns(x, a.get()) || assigns(x, b.get())
        }
        Node::And(a, b) | Node::Or(a, b) | Node::Comma(a, b) => {
            assigns(x, a.get()) || assigns(x, b.get())
        }
        Node::Conditional(c, a, b) => {
            assigns(x, c.get()) || (assigns(x, a.get()) || assigns(x, b.get()))
        }
        Node::Assign(p, a) | Node::Compound(_, p, a) => {
            lvalue_assigns(x, p.get()) || assigns(x, a.get())
        }
        Node::SetPlain(y, a) | Node::ChangePlain(_, y, a) => {
            y.variable == x || assigns(x, a.get())
        }
        Node::StepPlain(_, _, y) => y.variable == x,
        Node::Call(_, args) | Node::Library(_, args) | Node::Printf(_, args) => {
            any_assigns(x, args.as_slice())
        }
        Node::CallThrough(_, a, args) => assigns(x, a.get()) || any_assigns(x, args.as_slice()),
    }
}

/// Whether an lvalue does.
#[cycle(assigned)]
#[tactic(auto, using(crate::proofs::AccessKeys::Either::either))]
pub fn lvalue_assigns(x: usize, p: &Lvalue) -> bool
    ensures { result ≡ lvalue_assigns x (lvalue_of p.now) }
{
    match &p.node {
        LvalueNode::Automatic(_) | LvalueNode::Static(_) => false,
        LvalueNode::Deref(a) | LvalueNode::Arrow(a, _, _) | LvalueNode::MemberOfValue(a, _, _) => {
            assigns(x, a.get())
        }
        LvalueNode::Index(_, _, a, b) => assigns(x, a.get()) || assigns(x, b.get()),
        LvalueNode::Member(inner, _, _) | LvalueNode::Parenthesized(inner) => {
            lvalue_assigns(x, inner.get())
        }
    }
}

// Whether one of them does.
#[cycle(assigned)]
fn any_assigns(x: usize, args: &[Expression]) -> bool
    ensures { result ≡ any_assigns x (expressions_in (map expression_of args.now)) }
{
    for first in args {
        if assigns(x, first) {
            return true;
        }
    }
    false
}
