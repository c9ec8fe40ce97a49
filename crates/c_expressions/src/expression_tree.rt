//! Expressions from their parts, of which the last may have been refused, each in a block of memory of its own (C99
//! 6.5). These functions alone hold an expression that is in no block, whose type is large.

ghost use Rattle.std.specs.Prelude.{ℕ, suc, Ok, List};
ghost use Rattle.c_expressions.specs.Built as built;
ghost use Rattle.c_expressions.specs.LeveledReads.{Below, BelowExpression, IsSize, ReadsExpression};
ghost use Rattle.c_grammar.specs.Reader.{Outcome};
ghost use Rattle.c_grammar.specs.Reads.{Reads};
ghost use Rattle.c_syntax.specs.Levels.{arguments_levels, typed_levels};
ghost use Rattle.c_syntax.specs.Tree as t;
ghost use Rattle.c_syntax.specs.View.{arguments_of, expression_of, typed_of};
ghost use Rattle.c_syntax.specs.Words.{Words};
ghost use Rattle.c_syntax.specs.declared.position.Position as positions;
ghost use Rattle.c_syntax.specs.declared.position.Spelled as spellings;

use crate::leveled::{Leveled, above, alone};
use c_grammar::cursor::{Fault, spelled};
use c_lexer::{Punctuator, Spelling};
use c_syntax::{Arguments, Boxed, Expression, Items, Position, Spelled, TypedDeclarator};
use std::alloc::Global;

/// An identifier as an expression (C99 6.5.1).
#[tactic(auto, using(crate::proofs::Given::stands_alone))]
pub fn identifier<'a>(
    alloc: Global,
    spelling: &Spelling<'a>,
    position: Position,
) -> Result<Leveled<Boxed<Expression<'a>>>, Fault>
    ensures { (n : ℕ) → (i : Words) → ReadsExpression (suc n)
        (Ok (t.identifier (record { spelling = spelling.now; position = position }), i)) result i }
{
    alone(alloc, Expression::Identifier(spelled(spelling, position)))
}

/// An integer constant as an expression (C99 6.5.1).
#[tactic(auto, using(crate::proofs::Given::stands_alone))]
pub fn integer<'a>(
    alloc: Global,
    spelling: &Spelling<'a>,
    position: Position,
) -> Result<Leveled<Boxed<Expression<'a>>>, Fault>
    ensures { (n : ℕ) → (i : Words) → ReadsExpression (suc n)
        (Ok (t.integer (record { spelling = spelling.now; position = position }), i)) result i }
{
    alone(alloc, Expression::Integer(spelled(spelling, position)))
}

/// A character constant as an expression (C99 6.5.1).
#[tactic(auto, using(crate::proofs::Given::stands_alone))]
pub fn character<'a>(
    alloc: Global,
    spelling: &Spelling<'a>,
    position: Position,
) -> Result<Leveled<Boxed<Expression<'a>>>, Fault>
    ensures { (n : ℕ) → (i : Words) → ReadsExpression (suc n)
        (Ok (t.character (record { spelling = spelling.now; position = position }), i)) result i }
{
    alone(alloc, Expression::Character(spelled(spelling, position)))
}

/// String literals that stand side by side as an expression (C99 6.5.1).
#[tactic(auto, using(crate::proofs::Given::stands_alone))]
pub fn strings<'a>(
    alloc: Global,
    spelling: &Spelling<'a>,
    position: Position,
    others: Result<Items<Spelled<'a>>, Fault>,
) -> Result<Leveled<Boxed<Expression<'a>>>, Fault>
    ensures { (n : ℕ) → (o : Outcome (List spellings.Spelled)) → (i : Words) → Reads (λ z. z) o others.entry i
        → ReadsExpression (suc n) (built.strings (record { spelling = spelling.now; position = position }) o) result i }
{
    match others {
        Ok(others) => {
            alone(
                alloc,
                Expression::Strings(spelled(spelling, position), others),
            )
        }
        Err(fault) => Err(fault),
    }
}

/// A unary operator on an operand (C99 6.5.3).
#[tactic(auto, using(crate::proofs::Given::stands_above))]
pub fn unary<'a>(
    alloc: Global,
    operator: Punctuator,
    position: Position,
    operand: Result<Leveled<Boxed<Expression<'a>>>, Fault>,
) -> Result<Leveled<Boxed<Expression<'a>>>, Fault>
    ensures { (n : ℕ) → (o : Outcome t.Expression) → (i : Words) → IsSize n
        → ReadsExpression n o operand.entry i
        → ReadsExpression (suc n) (built.unary operator position o) result i }
{
    match operand {
        Ok(operand) => {
            let Leveled {
                tree: operand,
                levels,
            } = operand;
            above(
                alloc,
                levels,
                Expression::Unary(operator, position, operand),
            )
        }
        Err(fault) => Err(fault),
    }
}

/// `sizeof` of an expression (C99 6.5.3.4).
#[tactic(auto, using(crate::proofs::Given::stands_above))]
pub fn sizeof_expression<'a>(
    alloc: Global,
    position: Position,
    operand: Result<Leveled<Boxed<Expression<'a>>>, Fault>,
) -> Result<Leveled<Boxed<Expression<'a>>>, Fault>
    ensures { (n : ℕ) → (o : Outcome t.Expression) → (i : Words) → IsSize n
        → ReadsExpression n o operand.entry i
        → ReadsExpression (suc n) (built.sizeof_expression position o) result i }
{
    match operand {
        Ok(operand) => {
            let Leveled {
                tree: operand,
                levels,
            } = operand;
            above(
                alloc,
                levels,
                Expression::SizeofExpression(position, operand),
            )
        }
        Err(fault) => Err(fault),
    }
}

/// `sizeof` of a type name (C99 6.5.3.4).
#[tactic(auto, using(crate::proofs::Given::stands_above))]
pub fn sizeof_type<'a>(
    alloc: Global,
    position: Position,
    left: Position,
    name: Leveled<Boxed<TypedDeclarator<'a>>>,
    right: Result<Position, Fault>,
) -> Result<Leveled<Boxed<Expression<'a>>>, Fault>
    ensures { (n : ℕ) → (o : Outcome positions.Position) → (i : Words) → IsSize n
        → Below n name.entry.levels (typed_levels (typed_of name.entry.tree))
        → Reads (λ p. p) o right i
        → ReadsExpression (suc n) (built.sizeof_type position left (typed_of name.entry.tree) o) result i }
{
    match right {
        Ok(right) => {
            let Leveled { tree: name, levels } = name;
            above(
                alloc,
                levels,
                Expression::SizeofType(position, left, name, right),
            )
        }
        Err(fault) => Err(fault),
    }
}

/// A cast (C99 6.5.4).
#[tactic(auto, using(crate::proofs::Given::stands_above))]
pub fn cast<'a>(
    alloc: Global,
    left: Position,
    name: Leveled<Boxed<TypedDeclarator<'a>>>,
    right: Position,
    operand: Result<Leveled<Boxed<Expression<'a>>>, Fault>,
) -> Result<Leveled<Boxed<Expression<'a>>>, Fault>
    ensures { (n : ℕ) → (o : Outcome t.Expression) → (i : Words) → IsSize n
        → Below n name.entry.levels (typed_levels (typed_of name.entry.tree))
        → ReadsExpression n o operand.entry i
        → ReadsExpression (suc n) (built.cast left (typed_of name.entry.tree) right o) result i }
{
    match operand {
        Ok(operand) => {
            let Leveled {
                tree: name,
                levels: first,
            } = name;
            let Leveled {
                tree: operand,
                levels,
            } = operand;
            above(
                alloc,
                first.max(levels),
                Expression::Cast(left, name, right, operand),
            )
        }
        Err(fault) => Err(fault),
    }
}

/// An expression in parentheses (C99 6.5.1).
#[tactic(auto, using(crate::proofs::Given::stands_above))]
pub fn parenthesized<'a>(
    alloc: Global,
    left: Position,
    inner: Leveled<Boxed<Expression<'a>>>,
    right: Result<Position, Fault>,
) -> Result<Leveled<Boxed<Expression<'a>>>, Fault>
    ensures { (n : ℕ) → (o : Outcome positions.Position) → (i : Words) → IsSize n
        → BelowExpression n inner.entry
        → Reads (λ p. p) o right i
        → ReadsExpression (suc n) (built.parenthesized left (expression_of inner.entry.tree) o) result i }
{
    match right {
        Ok(right) => {
            let Leveled {
                tree: inner,
                levels,
            } = inner;
            above(alloc, levels, Expression::Parenthesized(left, inner, right))
        }
        Err(fault) => Err(fault),
    }
}

/// An operator between two operands (C99 6.5.5 to 6.5.14, 6.5.17).
#[tactic(auto, using(crate::proofs::Given::stands_above))]
pub fn binary<'a>(
    alloc: Global,
    left: Leveled<Boxed<Expression<'a>>>,
    punctuator: Punctuator,
    position: Position,
    right: Result<Leveled<Boxed<Expression<'a>>>, Fault>,
) -> Result<Leveled<Boxed<Expression<'a>>>, Fault>
    ensures { (n : ℕ) → (o : Outcome t.Expression) → (i : Words) → IsSize n
        → BelowExpression n left.entry
        → ReadsExpression n o right.entry i
        → ReadsExpression (suc n) (built.binary (expression_of left.entry.tree) punctuator position o) result i }
{
    match right {
        Ok(right) => {
            let Leveled {
                tree: left,
                levels: first,
            } = left;
            let Leveled {
                tree: right,
                levels,
            } = right;
            above(
                alloc,
                first.max(levels),
                Expression::Binary(left, punctuator, position, right),
            )
        }
        Err(fault) => Err(fault),
    }
}

/// An assignment (C99 6.5.16).
#[tactic(auto, using(crate::proofs::Given::stands_above))]
pub fn assignment<'a>(
    alloc: Global,
    left: Leveled<Boxed<Expression<'a>>>,
    punctuator: Punctuator,
    position: Position,
    right: Result<Leveled<Boxed<Expression<'a>>>, Fault>,
) -> Result<Leveled<Boxed<Expression<'a>>>, Fault>
    ensures { (n : ℕ) → (o : Outcome t.Expression) → (i : Words) → IsSize n
        → BelowExpression n left.entry
        → ReadsExpression n o right.entry i
        → ReadsExpression (suc n) (built.assignment (expression_of left.entry.tree) punctuator position o) result i }
{
    match right {
        Ok(right) => {
            let Leveled {
                tree: left,
                levels: first,
            } = left;
            let Leveled {
                tree: right,
                levels,
            } = right;
            above(
                alloc,
                first.max(levels),
                Expression::Assignment(left, punctuator, position, right),
            )
        }
        Err(fault) => Err(fault),
    }
}

/// A conditional expression (C99 6.5.15).
#[tactic(auto, using(crate::proofs::Given::stands_above))]
pub fn conditional<'a>(
    alloc: Global,
    condition: Leveled<Boxed<Expression<'a>>>,
    position: Position,
    second: Leveled<Boxed<Expression<'a>>>,
    colon: Position,
    third: Result<Leveled<Boxed<Expression<'a>>>, Fault>,
) -> Result<Leveled<Boxed<Expression<'a>>>, Fault>
    ensures { (n : ℕ) → (o : Outcome t.Expression) → (i : Words) → IsSize n
        → BelowExpression n condition.entry
        → BelowExpression n second.entry
        → ReadsExpression n o third.entry i
        → ReadsExpression (suc n) (built.conditional (expression_of condition.entry.tree) position
        (expression_of second.entry.tree)
        colon o) result i }
{
    match third {
        Ok(third) => {
            let Leveled {
                tree: condition,
                levels: of_condition,
            } = condition;
            let Leveled {
                tree: second,
                levels: of_second,
            } = second;
            let Leveled {
                tree: third,
                levels,
            } = third;
            above(
                alloc,
                of_condition.max(of_second.max(levels)),
                Expression::Conditional(condition, position, second, colon, third),
            )
        }
        Err(fault) => Err(fault),
    }
}

/// An element of an array (C99 6.5.2.1).
#[tactic(auto, using(crate::proofs::Given::stands_above))]
pub fn subscript<'a>(
    alloc: Global,
    left: Leveled<Boxed<Expression<'a>>>,
    position: Position,
    index: Leveled<Boxed<Expression<'a>>>,
    right: Result<Position, Fault>,
) -> Result<Leveled<Boxed<Expression<'a>>>, Fault>
    ensures { (n : ℕ) → (o : Outcome positions.Position) → (i : Words) → IsSize n
        → BelowExpression n left.entry
        → BelowExpression n index.entry
        → Reads (λ p. p) o right i
        → ReadsExpression (suc n) (built.subscript (expression_of left.entry.tree) position
        (expression_of index.entry.tree) o) result i }
{
    match right {
        Ok(right) => {
            let Leveled {
                tree: left,
                levels: first,
            } = left;
            let Leveled {
                tree: index,
                levels,
            } = index;
            above(
                alloc,
                first.max(levels),
                Expression::Subscript(left, position, index, right),
            )
        }
        Err(fault) => Err(fault),
    }
}

/// A call (C99 6.5.2.2).
#[tactic(auto, using(crate::proofs::Given::stands_above))]
pub fn call<'a>(
    alloc: Global,
    left: Leveled<Boxed<Expression<'a>>>,
    position: Position,
    arguments: Leveled<Arguments<'a>>,
    right: Result<Position, Fault>,
) -> Result<Leveled<Boxed<Expression<'a>>>, Fault>
    ensures { (n : ℕ) → (o : Outcome positions.Position) → (i : Words) → IsSize n
        → BelowExpression n left.entry
        → Below n arguments.entry.levels (arguments_levels (arguments_of arguments.entry.tree))
        → Reads (λ p. p) o right i
        → ReadsExpression (suc n) (built.call (expression_of left.entry.tree) position
        (arguments_of arguments.entry.tree) o) result i }
{
    match right {
        Ok(right) => {
            let Leveled {
                tree: left,
                levels: first,
            } = left;
            let Leveled {
                tree: arguments,
                levels,
            } = arguments;
            above(
                alloc,
                first.max(levels),
                Expression::Call(left, position, arguments, right),
            )
        }
        Err(fault) => Err(fault),
    }
}

/// A member of a structure or union (C99 6.5.2.3).
#[tactic(auto, using(crate::proofs::Given::stands_above))]
pub fn member<'a>(
    alloc: Global,
    left: Leveled<Boxed<Expression<'a>>>,
    punctuator: Punctuator,
    position: Position,
    name: Result<Spelled<'a>, Fault>,
) -> Result<Leveled<Boxed<Expression<'a>>>, Fault>
    ensures { (n : ℕ) → (o : Outcome spellings.Spelled) → (i : Words) → IsSize n
        → BelowExpression n left.entry
        → Reads (λ x. x) o name.entry i
        → ReadsExpression (suc n) (built.member (expression_of left.entry.tree) punctuator position o) result i }
{
    match name {
        Ok(name) => {
            let Leveled { tree: left, levels } = left;
            above(
                alloc,
                levels,
                Expression::Member(left, punctuator, position, name),
            )
        }
        Err(fault) => Err(fault),
    }
}

/// A postfix operator on an operand (C99 6.5.2.4).
#[tactic(auto, using(crate::proofs::Given::stands_above))]
pub fn postfix<'a>(
    alloc: Global,
    left: Leveled<Boxed<Expression<'a>>>,
    punctuator: Punctuator,
    position: Position,
) -> Result<Leveled<Boxed<Expression<'a>>>, Fault>
    ensures { (n : ℕ) → (i : Words) → IsSize n → BelowExpression n left.entry
        → ReadsExpression (suc n) (Ok (t.postfix (expression_of left.entry.tree) punctuator position, i)) result i }
{
    let Leveled { tree: left, levels } = left;
    above(
        alloc,
        levels,
        Expression::Postfix(left, punctuator, position),
    )
}
