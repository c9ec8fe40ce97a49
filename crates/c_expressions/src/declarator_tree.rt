//! Declarators from their parts, of which the last may have been refused, each in a block of memory of its own (C99
//! 6.7.5). These functions alone hold a declarator that is in no block.

ghost use Rattle.std.specs.Prelude.{ℕ, suc, Ok};
ghost use Rattle.c_expressions.specs.Built as built;
ghost use Rattle.c_expressions.specs.LeveledReads.{Below, BelowDeclarator, BelowExpression, IsSize, ReadsDeclarator};
ghost use Rattle.c_grammar.specs.Reader.{Outcome};
ghost use Rattle.c_grammar.specs.Reads.{Reads};
ghost use Rattle.c_syntax.specs.Levels.{parameters_levels};
ghost use Rattle.c_syntax.specs.Tree as t;
ghost use Rattle.c_syntax.specs.View.{declarator_of, expression_of, parameters_of};
ghost use Rattle.c_syntax.specs.Words.{Words};
ghost use Rattle.c_syntax.specs.declared.position.Position as positions;

use crate::leveled::{Leveled, above, alone};
use c_grammar::cursor::{Fault, spelled};
use c_lexer::Spelling;
use c_syntax::{Boxed, Declarator, Expression, Items, Parameters, Position};
use std::alloc::Global;

/// No word of a declarator (C99 6.7.6).
#[tactic(auto, using(crate::proofs::Given::stands_alone))]
pub fn nameless<'a>(alloc: Global) -> Result<Leveled<Boxed<Declarator<'a>>>, Fault>
    ensures { (n : ℕ) → (i : Words) → ReadsDeclarator (suc n) (Ok (t.unnamed, i)) result i }
{
    alone(alloc, Declarator::Unnamed)
}

/// A name as a declarator (C99 6.7.5).
#[tactic(auto, using(crate::proofs::Given::stands_alone))]
pub fn named<'a>(
    alloc: Global,
    spelling: &Spelling<'a>,
    position: Position,
) -> Result<Leveled<Boxed<Declarator<'a>>>, Fault>
    ensures { (n : ℕ) → (i : Words) → ReadsDeclarator (suc n)
        (Ok (t.named (record { spelling = spelling.now; position = position }), i)) result i }
{
    alone(alloc, Declarator::Named(spelled(spelling, position)))
}

/// A pointer (C99 6.7.5.1).
#[tactic(auto, using(crate::proofs::Given::stands_above))]
pub fn pointer<'a>(
    alloc: Global,
    position: Position,
    consts: Items<Position>,
    inner: Result<Leveled<Boxed<Declarator<'a>>>, Fault>,
) -> Result<Leveled<Boxed<Declarator<'a>>>, Fault>
    ensures { (n : ℕ) → (o : Outcome t.Declarator) → (i : Words) → IsSize n
        → ReadsDeclarator n o inner.entry i
        → ReadsDeclarator (suc n) (built.pointer position consts o) result i }
{
    match inner {
        Ok(inner) => {
            let Leveled {
                tree: inner,
                levels,
            } = inner;
            above(alloc, levels, Declarator::Pointer(position, consts, inner))
        }
        Err(fault) => Err(fault),
    }
}

/// A declarator in parentheses (C99 6.7.5).
#[tactic(auto, using(crate::proofs::Given::stands_above))]
pub fn parenthesized<'a>(
    alloc: Global,
    left: Position,
    inner: Leveled<Boxed<Declarator<'a>>>,
    right: Result<Position, Fault>,
) -> Result<Leveled<Boxed<Declarator<'a>>>, Fault>
    ensures { (n : ℕ) → (o : Outcome positions.Position) → (i : Words) → IsSize n
        → BelowDeclarator n inner.entry
        → Reads (λ p. p) o right i
        → ReadsDeclarator (suc n) (built.grouped left (declarator_of inner.entry.tree) o) result i }
{
    match right {
        Ok(right) => {
            let Leveled {
                tree: inner,
                levels,
            } = inner;
            above(alloc, levels, Declarator::Parenthesized(left, inner, right))
        }
        Err(fault) => Err(fault),
    }
}

/// A function (C99 6.7.5.3).
#[tactic(auto, using(crate::proofs::Given::stands_above))]
pub fn function<'a>(
    alloc: Global,
    left: Leveled<Boxed<Declarator<'a>>>,
    position: Position,
    parameters: Leveled<Parameters<'a>>,
    right: Result<Position, Fault>,
) -> Result<Leveled<Boxed<Declarator<'a>>>, Fault>
    ensures { (n : ℕ) → (o : Outcome positions.Position) → (i : Words) → IsSize n
        → BelowDeclarator n left.entry
        → Below n parameters.entry.levels (parameters_levels (parameters_of parameters.entry.tree))
        → Reads (λ p. p) o right i
        → ReadsDeclarator (suc n) (built.function (declarator_of left.entry.tree) position
        (parameters_of parameters.entry.tree) o) result i }
{
    match right {
        Ok(right) => {
            let Leveled {
                tree: left,
                levels: first,
            } = left;
            let Leveled {
                tree: parameters,
                levels,
            } = parameters;
            above(
                alloc,
                first.max(levels),
                Declarator::Function(left, position, parameters, right),
            )
        }
        Err(fault) => Err(fault),
    }
}

/// An array of no size (C99 6.7.5.2).
#[tactic(auto, using(crate::proofs::Given::stands_above))]
pub fn open_array<'a>(
    alloc: Global,
    left: Leveled<Boxed<Declarator<'a>>>,
    position: Position,
    right: Result<Position, Fault>,
) -> Result<Leveled<Boxed<Declarator<'a>>>, Fault>
    ensures { (n : ℕ) → (o : Outcome positions.Position) → (i : Words) → IsSize n
        → BelowDeclarator n left.entry
        → Reads (λ p. p) o right i
        → ReadsDeclarator (suc n) (built.open_array (declarator_of left.entry.tree) position o) result i }
{
    match right {
        Ok(right) => {
            let Leveled { tree: left, levels } = left;
            above(alloc, levels, Declarator::OpenArray(left, position, right))
        }
        Err(fault) => Err(fault),
    }
}

/// An array of a size (C99 6.7.5.2).
#[tactic(auto, using(crate::proofs::Given::stands_above))]
pub fn array<'a>(
    alloc: Global,
    left: Leveled<Boxed<Declarator<'a>>>,
    position: Position,
    size: Leveled<Boxed<Expression<'a>>>,
    right: Result<Position, Fault>,
) -> Result<Leveled<Boxed<Declarator<'a>>>, Fault>
    ensures { (n : ℕ) → (o : Outcome positions.Position) → (i : Words) → IsSize n
        → BelowDeclarator n left.entry
        → BelowExpression n size.entry
        → Reads (λ p. p) o right i
        → ReadsDeclarator (suc n) (built.array (declarator_of left.entry.tree) position
        (expression_of size.entry.tree) o) result i }
{
    match right {
        Ok(right) => {
            let Leveled {
                tree: left,
                levels: first,
            } = left;
            let Leveled { tree: size, levels } = size;
            above(
                alloc,
                first.max(levels),
                Declarator::Array(left, position, size, right),
            )
        }
        Err(fault) => Err(fault),
    }
}
