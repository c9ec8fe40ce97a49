//! What an expression or an lvalue itself does, once its operands are there.

ghost use Rattle.std.specs.Prelude.{◌≡◌, ◌+◌, ◌<◌, ◌^◌, map};
ghost use Rattle.source_meaning.specs.Actions.{scalar_of, integer_type};
ghost use Rattle.source_meaning.specs.Expressions.{is_judged};
ghost use Rattle.c_tree.specs.View.{expression_of, lvalue_of};
ghost use Rattle.c_tree.specs.Tree.{lvalue_kind, lvalue_line, expressions_in};
ghost use Rattle.tac_ir.specs.declared.instruction.Instruction.TheVariants as tac;
ghost use Rattle.c_lower.specs.Values.{mode_for, count};
ghost use Rattle.program_lowering.specs.ExpressionCode.Nodes.{node_of, lvalue_node_of};
ghost use Rattle.program_lowering.specs.ExpressionCode.Last.{last_in, last_at};

use crate::expressions::conversions::conversion_in;
use c_tree::{Expression, Fixity, Kind, Lvalue, LvalueNode, Node, Update};
use obj_memory::{IntType, Scalar};
use sb_base::Line;
use tac_ir::{Instruction, Mode, RightOperand};

/// The scalar as which a value of a kind is updated.
pub fn scalar_for(kind: Kind) -> Scalar
    ensures { result ≡ scalar_of kind }
{
    match kind {
        Kind::Scalar(scalar) => scalar,
        Kind::Void | Kind::Structure(_) | Kind::Array(_) => Scalar::Pointer,
    }
}

fn integer_type_for(kind: Kind) -> IntType
    ensures { result ≡ integer_type (scalar_of kind) }
{
    match kind {
        Kind::Scalar(Scalar::Integer(of)) => of,
        Kind::Scalar(Scalar::Pointer) | Kind::Void | Kind::Structure(_) | Kind::Array(_) =>
            IntType::UnsignedLong,
    }
}

fn is_judged(p: &Lvalue) -> bool
    ensures { result ≡ is_judged (lvalue_of p.now) }
{
    match &p.node {
        LvalueNode::Automatic(_) | LvalueNode::Static(_) | LvalueNode::MemberOfValue(_, _, _) =>
            false,
        LvalueNode::Deref(_) | LvalueNode::Index(_, _, _, _) | LvalueNode::Arrow(_, _, _) => true,
        LvalueNode::Member(inner, _, _) | LvalueNode::Parenthesized(inner) => is_judged(
            inner.get(),
        ),
    }
}

fn mode(p: &Lvalue) -> Mode
    ensures { result ≡ mode_for (is_judged (lvalue_of p.now)) }
{
    if is_judged(p) {
        Mode::Unchecked
    } else {
        Mode::Named
    }
}

fn read(p: &Lvalue, key: Option<usize>, d: usize, next: usize) -> Instruction
    ensures { result ≡ tac.Read (lvalue_kind (lvalue_of p.now)) (mode_for (is_judged (lvalue_of p.now)))
        (lvalue_line (lvalue_of p.now)) key d d next }
{
    Instruction::Read {
        kind: p.kind,
        mode: mode(p),
        line: p.line,
        key,
        to: d,
        from: d,
        next,
    }
}

fn write(p: &Lvalue, key: Option<usize>, d: usize, next: usize) -> Instruction
    requires { d + 1 < 2 ^ 64 }
    ensures { result ≡ tac.Write (lvalue_kind (lvalue_of p.now)) (mode_for (is_judged (lvalue_of p.now)))
        (lvalue_line (lvalue_of p.now)) key d d (d + 1) next }
{
    Instruction::Write {
        kind: p.kind,
        mode: mode(p),
        line: p.line,
        key,
        to: d,
        pointer: d,
        value: d + 1,
        next,
    }
}

// An operator that updates an object: how, which of both values it gives, its line, and its right operand.
#[derive(Clone, Copy)]
struct UpdateOperator {
    update: Update,
    fixity: Fixity,
    line: Line,
    right: RightOperand,
}

// An update of an lvalue.
fn updated(
    operator: UpdateOperator,
    p: &Lvalue,
    key: Option<usize>,
    d: usize,
    next: usize,
) -> Instruction
    ensures { result ≡ tac.Update operator.update (scalar_of (lvalue_kind (lvalue_of p.now))) operator.fixity
        (mode_for (is_judged (lvalue_of p.now))) (lvalue_line (lvalue_of p.now)) operator.line key d d operator.right
        next }
{
    Instruction::Update {
        update: operator.update,
        scalar: scalar_for(p.kind),
        fixity: operator.fixity,
        mode: mode(p),
        line: p.line,
        operator_line: operator.line,
        key,
        to: d,
        pointer: d,
        right: operator.right,
        next,
    }
}

// An update of a plain variable of a kind, in the same way.
fn changed(
    operator: UpdateOperator,
    variable: usize,
    kind: Kind,
    d: usize,
    next: usize,
) -> Instruction
    ensures { result ≡ tac.UpdatePlain operator.update (scalar_of kind) operator.fixity operator.line d variable
        operator.right next }
{
    Instruction::UpdatePlain {
        update: operator.update,
        scalar: scalar_for(kind),
        fixity: operator.fixity,
        line: operator.line,
        to: d,
        variable,
        right: operator.right,
        next,
    }
}

// How many arguments there are.
#[tactic(auto, using(crate::proofs::ExpressionCode::Counts::counts))]
fn count(args: &[Expression]) -> usize
    ensures { result ≡ count (expressions_in (map expression_of args.now)) }
{
    args.len()
}

/// What an expression of a kind, at a line, does with its value in a temporary, with the number of the key of its
/// access and that of its format. One that has its operand's value, or that several nodes stand for, does nothing.
pub fn last_in(
    node: &Node,
    kind: Kind,
    line: Line,
    d: usize,
    key: Option<usize>,
    text: usize,
    next: usize,
) -> Option<Instruction>
    requires { d + 1 < 2 ^ 64 }
    ensures { result ≡ last_in (node_of node.now) kind line d key text next }
{
    match node {
        Node::Constant(word) => Some(Instruction::Constant {
            to: d,
            word: *word,
            next,
        }),
        Node::Function(function) => Some(Instruction::FunctionPointer {
            to: d,
            function: *function,
            next,
        }),
        Node::Plain(variable) => Some(Instruction::GetPlain {
            to: d,
            variable: *variable,
            next,
        }),
        Node::Read(p) => Some(read(p.get(), key, d, next)),
        Node::Decay(_)
        | Node::Address(_)
        | Node::Parenthesized(_)
        | Node::DerefFunction(_)
        | Node::AddressFunction(_)
        | Node::And(_, _)
        | Node::Or(_, _)
        | Node::Comma(_, _)
        | Node::Conditional(_, _, _) => None,
        Node::Cast(a) | Node::Convert(a) => conversion_in(a.get().kind, kind, d, next),
        Node::Unary(operator, a) => {
            let int_type = integer_type_for(a.get().kind);
            Some(Instruction::Unary {
                operator: *operator,
                int_type,
                to: d,
                from: d,
                next,
            })
        }
        Node::Binary(operator, a, _) => {
            let int_type = integer_type_for(a.get().kind);
            Some(Instruction::Binary {
                operator: *operator,
                int_type,
                line,
                to: d,
                left: d,
                right: d + 1,
                next,
            })
        }
        Node::Offset(form, size, _, _) => {
            Some(Instruction::Offset {
                form: *form,
                size: *size,
                to: d,
                left: d,
                right: d + 1,
                next,
            })
        }
        Node::Difference(size, _, _) => {
            Some(Instruction::Difference {
                size: *size,
                to: d,
                left: d,
                right: d + 1,
                next,
            })
        }
        Node::Assign(p, _) => Some(write(p.get(), key, d, next)),
        Node::SetPlain(x, _) => Some(Instruction::SetPlain {
            variable: x.variable,
            from: d,
            next,
        }),
        Node::Compound(update, p, _) => {
            let operator = UpdateOperator {
                update: *update,
                fixity: Fixity::Prefix,
                line,
                right: RightOperand::Temporary(d + 1),
            };
            Some(updated(operator, p.get(), key, d, next))
        }
        Node::ChangePlain(update, x, _) => {
            let operator = UpdateOperator {
                update: *update,
                fixity: Fixity::Prefix,
                line,
                right: RightOperand::Temporary(d),
            };
            Some(changed(operator, x.variable, kind, d, next))
        }
        Node::Step(update, fixity, p) => {
            let operator = UpdateOperator {
                update: *update,
                fixity: *fixity,
                line,
                right: RightOperand::One,
            };
            Some(updated(operator, p.get(), key, d, next))
        }
        Node::StepPlain(update, fixity, x) => {
            let operator = UpdateOperator {
                update: *update,
                fixity: *fixity,
                line,
                right: RightOperand::One,
            };
            Some(changed(operator, x.variable, kind, d, next))
        }
        Node::Call(function, args) => {
            let count = count(args.as_slice());
            Some(Instruction::Call {
                function: *function,
                line,
                first: d,
                count,
                next,
            })
        }
        Node::CallThrough(type_number, _, args) => {
            let count = count(args.as_slice());
            Some(Instruction::CallThrough {
                type_number: *type_number,
                line,
                first: d,
                count,
                next,
            })
        }
        Node::Library(routine, args) => {
            let count = count(args.as_slice());
            Some(Instruction::Library {
                routine: *routine,
                line,
                first: d,
                count,
                next,
            })
        }
        Node::Printf(_, args) => {
            let count = count(args.as_slice());
            Some(Instruction::Print {
                text,
                line,
                first: d,
                count,
                next,
            })
        }
    }
}

/// What an lvalue itself does with its pointer in a temporary.
pub fn last_at(node: &LvalueNode, d: usize, next: usize) -> Option<Instruction>
    requires { d + 1 < 2 ^ 64 }
    ensures { result ≡ last_at (lvalue_node_of node.now) d next }
{
    match node {
        LvalueNode::Automatic(variable) => Some(Instruction::HomePointer {
            to: d,
            variable: *variable,
            next,
        }),
        LvalueNode::Static(number) => Some(Instruction::StaticPointer {
            to: d,
            number: *number,
            next,
        }),
        LvalueNode::Deref(_) | LvalueNode::Parenthesized(_) => None,
        LvalueNode::Index(form, size, _, _) => {
            Some(Instruction::Offset {
                form: *form,
                size: *size,
                to: d,
                left: d,
                right: d + 1,
                next,
            })
        }
        LvalueNode::Member(_, offset, size) | LvalueNode::MemberOfValue(_, offset, size) => {
            Some(Instruction::Member {
                offset: *offset,
                size: *size,
                to: d,
                from: d,
                next,
            })
        }
        LvalueNode::Arrow(_, offset, size) => {
            Some(Instruction::Narrow {
                offset: *offset,
                size: *size,
                to: d,
                from: d,
                next,
            })
        }
    }
}
