//! Expressions and lvalues with their operands. What comes next stands already, so the last operand is lowered first.

use crate::expressions::emitter::Emitter;
use crate::expressions::last::{last_at, last_in};
use crate::keys::{read_key, write_key};
use c_tree::{Expression, Lvalue, LvalueNode, Node};
use std::alloc::{AllocError, Global};
use tac_ir::Instruction;

impl Emitter {
    ghost use Rattle.std.specs.Prelude.{◌≡◌, ◌+◌, ◌<◌, ◌^◌, IfOk, map};
    ghost use Rattle.c_tree.specs.Tree.{expressions_in};
    ghost use Rattle.c_tree.specs.View.{expression_of, lvalue_of};
    ghost use Rattle.c_lower.specs.Homes.{used, used_by_lvalue};
    ghost use Rattle.program_lowering.specs.ExpressionCode.Emitted.{ExpressionCode, LvalueCode, ArgumentsCode};
    ghost use Rattle.program_lowering.specs.ExpressionCode.Emitted.{arguments_used};
    ghost use Rattle.program_lowering.specs.ExpressionCode.Last.{KeyAdded, FormatAdded, key_in};
    ghost use Rattle.program_lowering.specs.ExpressionCode.Nodes.{node_of, lvalue_node_of};
    ghost use Rattle.program_lowering.specs.ExpressionCode.Shapes.{OperandsCode, Finishes, LvalueFinishes, operands_in};
    ghost use Rattle.program_lowering.specs.ExpressionCode.Shapes.{operands_at, operands_used};

    // The number of the key of an expression's access, where it has one.
    #[tactic(auto, using(crate::proofs::ExpressionCode::Growing::keys_added))]
    fn key_in(&mut self, node: &Node) -> Result<Option<usize>, AllocError>
        ensures { IfOk result (λ n. KeyAdded self.old self.new (key_in self.old.literals.items (node_of node.now)) n) }
    {
        match node {
            Node::Read(p) | Node::Step(_, _, p) => {
                let key = read_key(self.alloc, &self.literals, p.get())?;
                self.add_key(key)
            }
            Node::Assign(p, a) | Node::Compound(_, p, a) => {
                let key = write_key(self.alloc, &self.literals, p.get(), a.get())?;
                self.add_key(key)
            }
            _ => Ok(None),
        }
    }

    // The number of the format of an expression that has one.
    #[tactic(auto, using(crate::proofs::ExpressionCode::Steps::formats))]
    fn format_in(&mut self, node: &Node) -> Result<usize, AllocError>
        ensures { IfOk result (λ n. FormatAdded self.old self.new (node_of node.now) n) }
    {
        match node {
            Node::Printf(format, _) => {
                let text = self.add_text(format.as_slice())?;
                Ok(text)
            }
            _ => Ok(0),
        }
    }

    // What an expression itself does is added before a node.
    #[tactic(auto, using(crate::proofs::ExpressionCode::Steps::finishing))]
    fn finish(&mut self, e: &Expression, d: usize, next: usize) -> Result<usize, AllocError>
        requires { d + used (expression_of e.now) < 2 ^ 64 }
        ensures { IfOk result (λ n. Finishes self.old self.new (expression_of e.now) d n next) }
    {
        let key = self.key_in(&e.node)?;
        let text = self.format_in(&e.node)?;
        match last_in(&e.node, e.kind, e.line, d, key, text, next) {
            Some(instruction) => {
                let node = self.add(instruction)?;
                Ok(node)
            }
            None => Ok(next),
        }
    }

    // The same of an lvalue.
    #[tactic(auto, using(crate::proofs::ExpressionCode::Steps::lvalue_finishing))]
    fn finish_lvalue(&mut self, p: &Lvalue, d: usize, next: usize) -> Result<usize, AllocError>
        requires { d + used_by_lvalue (lvalue_of p.now) < 2 ^ 64 }
        ensures { IfOk result (λ n. LvalueFinishes self.old self.new (lvalue_of p.now) d n next) }
    {
        match last_at(&p.node, d, next) {
            Some(instruction) => {
                let node = self.add(instruction)?;
                Ok(node)
            }
            None => Ok(next),
        }
    }

    /// Lowers an expression before a node, with its value in a temporary, and gives the node where it begins. An error
    /// comes where there is no memory for it.
    #[cycle(lowering)]
    #[tactic(auto, using(crate::proofs::ExpressionCode::Views::whole))]
    pub fn expression(&mut self, e: &Expression, d: usize, next: usize) -> Result<usize, AllocError>
        requires { d + used (expression_of e.now) < 2 ^ 64 }
        ensures { IfOk result (λ n. ExpressionCode self.old self.new (expression_of e.now) d n next) }
    {
        let last = self.finish(e, d, next)?;
        let first = self.operands(&e.node, d, last)?;
        Ok(first)
    }

    // The operands of an expression, before what it itself does.
    #[cycle(lowering)]
    #[tactic(auto, using(crate::proofs::ExpressionCode::Parts::operand_codes))]
    fn operands(&mut self, node: &Node, d: usize, last: usize) -> Result<usize, AllocError>
        requires { d + operands_used (operands_in (node_of node.now)) < 2 ^ 64 }
        ensures { IfOk result (λ n. OperandsCode self.old self.new (operands_in (node_of node.now)) d n last) }
    {
        match node {
            Node::Constant(_) | Node::Function(_) | Node::Plain(_) | Node::StepPlain(_, _, _) => Ok(
                last,
            ),
            Node::Read(p) | Node::Decay(p) | Node::Address(p) | Node::Step(_, _, p) => {
                let first = self.lvalue(p.get(), d, last)?;
                Ok(first)
            }
            Node::Parenthesized(a)
            | Node::DerefFunction(a)
            | Node::AddressFunction(a)
            | Node::Cast(a)
            | Node::Convert(a)
            | Node::Unary(_, a)
            | Node::SetPlain(_, a)
            | Node::ChangePlain(_, _, a) => {
                let first = self.expression(a.get(), d, last)?;
                Ok(first)
            }
            Node::Binary(_, a, b) | Node::Offset(_, _, a, b) | Node::Difference(_, a, b) => {
                let second = self.expression(b.get(), d + 1, last)?;
                let first = self.expression(a.get(), d, second)?;
                Ok(first)
            }
            Node::Assign(p, a) | Node::Compound(_, p, a) => {
                let second = self.expression(a.get(), d + 1, last)?;
                let first = self.lvalue(p.get(), d, second)?;
                Ok(first)
            }
            Node::And(a, b) => {
                let ways = self.ways(d, last)?;
                let second = self.expression(b.get(), d, ways.test)?;
                let test = self.add(Instruction::Branch {
                    from: d,
                    not_zero: second,
                    zero: ways.zero,
                })?;
                let first = self.expression(a.get(), d, test)?;
                Ok(first)
            }
            Node::Or(a, b) => {
                let ways = self.ways(d, last)?;
                let second = self.expression(b.get(), d, ways.test)?;
                let test = self.add(Instruction::Branch {
                    from: d,
                    not_zero: ways.one,
                    zero: second,
                })?;
                let first = self.expression(a.get(), d, test)?;
                Ok(first)
            }
            Node::Comma(a, b) => {
                let second = self.expression(b.get(), d, last)?;
                let first = self.expression(a.get(), d, second)?;
                Ok(first)
            }
            Node::Conditional(c, a, b) => {
                let other = self.expression(b.get(), d, last)?;
                let taken = self.expression(a.get(), d, last)?;
                let test = self.add(Instruction::Branch {
                    from: d,
                    not_zero: taken,
                    zero: other,
                })?;
                let first = self.expression(c.get(), d, test)?;
                Ok(first)
            }
            Node::Call(_, args) | Node::Library(_, args) | Node::Printf(_, args) => {
                let first = self.arguments(args.as_slice(), d, last)?;
                Ok(first)
            }
            Node::CallThrough(_, a, args) => {
                let second = self.arguments(args.as_slice(), d + 1, last)?;
                let first = self.expression(a.get(), d, second)?;
                Ok(first)
            }
        }
    }

    /// The same of an lvalue, whose pointer, or contents, the temporary gets.
    #[cycle(lowering)]
    #[tactic(auto, using(crate::proofs::ExpressionCode::Views::lvalue_whole))]
    pub fn lvalue(&mut self, p: &Lvalue, d: usize, next: usize) -> Result<usize, AllocError>
        requires { d + used_by_lvalue (lvalue_of p.now) < 2 ^ 64 }
        ensures { IfOk result (λ n. LvalueCode self.old self.new (lvalue_of p.now) d n next) }
    {
        let last = self.finish_lvalue(p, d, next)?;
        let first = self.lvalue_operands(&p.node, d, last)?;
        Ok(first)
    }

    #[cycle(lowering)]
    #[tactic(auto, using(crate::proofs::ExpressionCode::Parts::operand_codes))]
    fn lvalue_operands(
        &mut self,
        node: &LvalueNode,
        d: usize,
        last: usize,
    ) -> Result<usize, AllocError>
        requires { d + operands_used (operands_at (lvalue_node_of node.now)) < 2 ^ 64 }
        ensures { IfOk result (λ n. OperandsCode self.old self.new (operands_at (lvalue_node_of node.now)) d n last) }
    {
        match node {
            LvalueNode::Automatic(_) | LvalueNode::Static(_) => Ok(last),
            LvalueNode::Deref(a)
            | LvalueNode::Arrow(a, _, _)
            | LvalueNode::MemberOfValue(a, _, _) => {
                let first = self.expression(a.get(), d, last)?;
                Ok(first)
            }
            LvalueNode::Index(_, _, a, b) => {
                let second = self.expression(b.get(), d + 1, last)?;
                let first = self.expression(a.get(), d, second)?;
                Ok(first)
            }
            LvalueNode::Member(inner, _, _) | LvalueNode::Parenthesized(inner) => {
                let first = self.lvalue(inner.get(), d, last)?;
                Ok(first)
            }
        }
    }

    // Arguments, from a temporary on.
    #[cycle(lowering)]
    #[tactic(auto, using(crate::proofs::ExpressionCode::Views::argument_codes))]
    fn arguments(&mut self, args: &[Expression], d: usize, next: usize) -> Result<usize, AllocError>
        requires { d + arguments_used (expressions_in (map expression_of args.now)) < 2 ^ 64 }
        ensures { IfOk result
            (λ n. ArgumentsCode self.old self.new (expressions_in (map expression_of args.now)) d n next) }
    {
        let mut node = next;
        for i in (0..args.len()).rev() {
            let e = &args[i];
            let taken = self.take(e.kind, e.line, d + i, node)?;
            node = self.expression(e, d + i, taken)?;
        }
        Ok(node)
    }
}
