//! What an expression demands (C99 6.5).

ghost use Rattle.std.specs.Prelude.{◌≡◌, ◌+◌, map};
ghost use Rattle.obj_memory.specs.Heap.{rounded_up};
ghost use Rattle.c_tree.specs.Room.{height, passed_bytes, structure_bytes};
ghost use Rattle.c_tree.specs.Tree.{expressions_in, kinds_of};
ghost use Rattle.c_tree.specs.View.{expression_of, lvalue_of};
ghost use Rattle.c_tree.specs.Walk.{sum_of, walk, walk_each, walk_lvalue};
ghost use Rattle.c_room.specs.Demands.{all_next, demand_made, start};
ghost use Rattle.c_room.specs.Numbers.{fitting, with_structures};

use crate::demand::{Demand, InTurn};
use crate::number::plus;
use c_tree::{Expression, Kind, Lvalue, LvalueNode, Node};

// The next multiple of 16, where it is below 2^64.
#[tactic(auto, using(crate::proofs::Fitting::not_rounded, crate::proofs::Fitting::rounded_to))]
fn rounded(size: u64) -> Option<u64>
    ensures { result ≡ fitting (rounded_up 16 size) }
{
    match size.checked_add(15) {
        None => None,
        Some(end) => Some(end / 16 * 16),
    }
}

/// The bytes that a value of a kind takes where a call passes or gives it: those of a structure or union, rounded up to
/// 16. `None` where these are 2^64 or more.
#[tactic(auto, unfolding(crate::specs::Numbers::fitting))]
pub fn structure_bytes(kind: Kind) -> Option<u64>
    ensures { result ≡ fitting (structure_bytes kind) }
{
    match kind {
        Kind::Void | Kind::Scalar(_) | Kind::Array(_) => Some(0),
        Kind::Structure(size) => rounded(size),
    }
}

// The bytes that the structures of a call take, with what it gives.
fn call_bytes(kind: Kind, arguments: &[Expression]) -> Option<u64>
    ensures { result ≡ with_structures (fitting (structure_bytes kind))
        (kinds_of (expressions_in (map expression_of arguments.now))) }
{
    let mut bytes = structure_bytes(kind);
    for argument in arguments {
        bytes = plus(bytes, structure_bytes(argument.kind));
    }
    bytes
}

// Of a call before its operands.
fn call(kind: Kind, arguments: &[Expression]) -> InTurn
    ensures { result ≡ start 0 (structure_bytes kind
        + sum_of (map structure_bytes (kinds_of (expressions_in (map expression_of arguments.now))))) }
{
    InTurn::passing(call_bytes(kind, arguments))
}

/// What an expression demands.
#[cycle(expression)]
pub(crate) fn demand(e: &Expression) -> Demand
    ensures { result ≡ walk demand_made (expression_of e.now) }
{
    match &e.node {
        Node::Constant(_) | Node::Function(_) | Node::Plain(_) | Node::StepPlain(_, _, _) => {
            Demand::value()
        }
        Node::Read(p) | Node::Decay(p) | Node::Address(p) | Node::Step(_, _, p) => {
            Demand::value().beside(lvalue_demand(p.get()))
        }
        Node::Parenthesized(a)
        | Node::DerefFunction(a)
        | Node::AddressFunction(a)
        | Node::Cast(a)
        | Node::Convert(a)
        | Node::Unary(_, a) => Demand::value().beside(demand(a.get())),
        Node::And(a, b) | Node::Or(a, b) | Node::Comma(a, b) => Demand::value()
            .beside(demand(a.get()))
            .beside(demand(b.get())),
        Node::Conditional(c, a, b) => Demand::value()
            .beside(demand(c.get()))
            .beside(demand(a.get()))
            .beside(demand(b.get())),
        Node::Binary(_, a, b) | Node::Offset(_, _, a, b) | Node::Difference(_, a, b) => {
            let first = InTurn::start(0).next(demand(a.get()));
            first.next(demand(b.get())).demand
        }
        Node::Assign(p, a) | Node::Compound(_, p, a) => {
            let first = InTurn::start(0).next(lvalue_demand(p.get()));
            first.next(demand(a.get())).demand
        }
        Node::SetPlain(_, a) | Node::ChangePlain(_, _, a) => {
            InTurn::start(1).next(demand(a.get())).demand
        }
        Node::Call(_, args) => {
            let args = args.as_slice();
            arguments(call(e.kind, args), args).demand
        }
        Node::CallThrough(_, f, args) => {
            let args = args.as_slice();
            arguments(call(e.kind, args).next(demand(f.get())), args).demand
        }
        Node::Library(_, args) => arguments(InTurn::start(0), args.as_slice()).demand,
        Node::Printf(_, args) => arguments(InTurn::start(1), args.as_slice()).demand,
    }
}

// With arguments in turn.
#[cycle(expression)]
fn arguments(mut so_far: InTurn, args: &[Expression]) -> InTurn
    ensures { result ≡ all_next so_far (walk_each demand_made (expressions_in (map expression_of args.now))) }
{
    for argument in args {
        so_far = so_far.next(demand(argument));
    }
    so_far
}

#[cycle(expression)]
fn lvalue_demand(p: &Lvalue) -> Demand
    ensures { result ≡ walk_lvalue demand_made (lvalue_of p.now) }
{
    match &p.node {
        LvalueNode::Automatic(_) | LvalueNode::Static(_) => Demand::value(),
        LvalueNode::Deref(a) | LvalueNode::Arrow(a, _, _) | LvalueNode::MemberOfValue(a, _, _) =>
            Demand::value().beside(demand(a.get())),
        LvalueNode::Index(_, _, a, b) => {
            let first = InTurn::start(0).next(demand(a.get()));
            first.next(demand(b.get())).demand
        }
        LvalueNode::Member(inner, _, _) | LvalueNode::Parenthesized(inner) => {
            Demand::value().beside(lvalue_demand(inner.get()))
        }
    }
}

/// How many values an expression needs at once, of which the result is one. `None` where these are 2^64 or more.
pub fn height(e: &Expression) -> Option<u64>
    ensures { result ≡ fitting (height (expression_of e.now)) }
{
    demand(e).height
}

/// The bytes that structures take in the calls of an expression, each rounded up to 16. `None` where these are 2^64 or
/// more.
pub fn passed_bytes(e: &Expression) -> Option<u64>
    ensures { result ≡ fitting (passed_bytes (expression_of e.now)) }
{
    demand(e).passed
}
