//! Statements and blocks from their parts, each in a block of memory of its own (C99 6.8).

ghost use Rattle.std.specs.Prelude.{◌≡◌, IfOk};
ghost use Rattle.c_syntax.specs.Statements as s;
ghost use Rattle.c_syntax.specs.StatementsView.{optional_of, statement_of, block_of, block_item_of, items_in};
ghost use Rattle.c_syntax.specs.StatementsView.{declaration_of};
ghost use Rattle.c_parser.specs.StatementParts as parts;

use c_syntax::{
    Block, BlockItem, Boxed, CaseLabel, Declaration, DoEnd, Expression, ForHead, Items,
    Parenthesized, Position, Statement,
};
use std::alloc::{AllocError, Global};

/// A statement of an expression, or none, and `;`, or the answer that there is no memory for it (C99 6.8.3).
pub fn expression_with<'a>(
    alloc: Global,
    value: Option<Boxed<Expression<'a>>>,
    semicolon: Position,
) -> Result<Boxed<Statement<'a>>, AllocError>
    ensures { IfOk result (λ x. statement_of x ≡ s.expression (optional_of value.entry) semicolon) }
{
    Boxed::new(alloc, Statement::Expression(value, semicolon))
}

/// A `return`, or the answer that there is no memory for it (C99 6.8.6.4).
pub fn return_with<'a>(
    alloc: Global,
    position: Position,
    value: Option<Boxed<Expression<'a>>>,
    semicolon: Position,
) -> Result<Boxed<Statement<'a>>, AllocError>
    ensures { IfOk result (λ x. statement_of x ≡ s.return position (optional_of value.entry) semicolon) }
{
    Boxed::new(alloc, Statement::Return(position, value, semicolon))
}

/// A `break`, or the answer that there is no memory for it (C99 6.8.6.3).
pub fn break_with<'a>(
    alloc: Global,
    position: Position,
    semicolon: Position,
) -> Result<Boxed<Statement<'a>>, AllocError>
    ensures { IfOk result (λ x. statement_of x ≡ s.break position semicolon) }
{
    Boxed::new(alloc, Statement::Break(position, semicolon))
}

/// A `continue`, or the answer that there is no memory for it (C99 6.8.6.2).
pub fn continue_with<'a>(
    alloc: Global,
    position: Position,
    semicolon: Position,
) -> Result<Boxed<Statement<'a>>, AllocError>
    ensures { IfOk result (λ x. statement_of x ≡ s.continue position semicolon) }
{
    Boxed::new(alloc, Statement::Continue(position, semicolon))
}

/// An `if` without `else`, or the answer that there is no memory for it (C99 6.8.4.1).
pub fn if_with<'a>(
    alloc: Global,
    position: Position,
    condition: Parenthesized<'a>,
    first: Boxed<Statement<'a>>,
) -> Result<Boxed<Statement<'a>>, AllocError>
    ensures { IfOk result (λ x. statement_of x ≡ parts.if_then_of position (parts.parenthesized_of condition.entry)
        (statement_of first.entry)) }
{
    Boxed::new(alloc, Statement::If(position, condition, first))
}

/// An `if` with `else`, or the answer that there is no memory for it (C99 6.8.4.1).
pub fn if_else_with<'a>(
    alloc: Global,
    position: Position,
    condition: Parenthesized<'a>,
    first: Boxed<Statement<'a>>,
    otherwise: (Position, Boxed<Statement<'a>>),
) -> Result<Boxed<Statement<'a>>, AllocError>
    ensures { IfOk result (λ x. statement_of x ≡ parts.if_else_of position (parts.parenthesized_of condition.entry)
        (statement_of first.entry) (parts.behind_word_of otherwise.entry)) }
{
    let (otherwise, second) = otherwise;
    Boxed::new(
        alloc,
        Statement::IfElse(position, condition, first, otherwise, second),
    )
}

/// A `switch`, or the answer that there is no memory for it (C99 6.8.4.2).
pub fn switch_with<'a>(
    alloc: Global,
    position: Position,
    value: Parenthesized<'a>,
    block: Block<'a>,
) -> Result<Boxed<Statement<'a>>, AllocError>
    ensures { IfOk result (λ x. statement_of x ≡ parts.switch_of position (parts.parenthesized_of value.entry)
        (block_of block.entry)) }
{
    Boxed::new(alloc, Statement::Switch(position, value, block))
}

/// A `while`, or the answer that there is no memory for it (C99 6.8.5.1).
pub fn while_with<'a>(
    alloc: Global,
    position: Position,
    condition: Parenthesized<'a>,
    body: Boxed<Statement<'a>>,
) -> Result<Boxed<Statement<'a>>, AllocError>
    ensures { IfOk result (λ x. statement_of x ≡ parts.while_of position (parts.parenthesized_of condition.entry)
        (statement_of body.entry)) }
{
    Boxed::new(alloc, Statement::While(position, condition, body))
}

/// A `do`, or the answer that there is no memory for it (C99 6.8.5.2).
pub fn do_with<'a>(
    alloc: Global,
    position: Position,
    body: Boxed<Statement<'a>>,
    end: DoEnd<'a>,
) -> Result<Boxed<Statement<'a>>, AllocError>
    ensures { IfOk result (λ x. statement_of x ≡ parts.do_of position (statement_of body.entry)
        (parts.do_end_of end.entry)) }
{
    Boxed::new(alloc, Statement::Do(position, body, end))
}

/// A `for`, or the answer that there is no memory for it (C99 6.8.5.3).
pub fn for_with<'a>(
    alloc: Global,
    position: Position,
    head: ForHead<'a>,
    body: Boxed<Statement<'a>>,
) -> Result<Boxed<Statement<'a>>, AllocError>
    ensures { IfOk result (λ x. statement_of x ≡ parts.for_of position (parts.for_head_of head.entry)
        (statement_of body.entry)) }
{
    Boxed::new(alloc, Statement::For(position, head, body))
}

/// A `case`, or the answer that there is no memory for it (C99 6.8.1).
pub fn case_with<'a>(
    alloc: Global,
    label: CaseLabel<'a>,
    labelled: Boxed<Statement<'a>>,
) -> Result<Boxed<Statement<'a>>, AllocError>
    ensures { IfOk result (λ x. statement_of x ≡ parts.case_of (parts.case_label_of label.entry)
        (statement_of labelled.entry)) }
{
    Boxed::new(alloc, Statement::Case(label, labelled))
}

/// A `default`, or the answer that there is no memory for it (C99 6.8.1).
pub fn default_with<'a>(
    alloc: Global,
    position: Position,
    colon: Position,
    labelled: Boxed<Statement<'a>>,
) -> Result<Boxed<Statement<'a>>, AllocError>
    ensures { IfOk result (λ x. statement_of x ≡ s.default position colon (statement_of labelled.entry)) }
{
    Boxed::new(alloc, Statement::Default(position, colon, labelled))
}

/// A block as a statement, or the answer that there is no memory for it (C99 6.8.2).
pub fn compound<'a>(alloc: Global, block: Block<'a>) -> Result<Boxed<Statement<'a>>, AllocError>
    ensures { IfOk result (λ x. statement_of x ≡ s.compound (block_of block.entry)) }
{
    Boxed::new(alloc, Statement::Block(block))
}

/// A block of its parts (C99 6.8.2).
#[tactic(auto, using(c_syntax::proofs::StatementViews::block_view))]
pub fn block_with<'a>(left: Position, items: Items<BlockItem<'a>>, right: Position) -> Block<'a>
    ensures { block_of result ≡ s.block left (items_in items.entry) right }
{
    Block { left, items, right }
}

/// A declaration in a block (C99 6.8.2).
pub fn declaration_item<'a>(declaration: Declaration<'a>) -> BlockItem<'a>
    ensures { block_item_of result ≡ s.local (declaration_of declaration.entry) }
{
    BlockItem::Declaration(declaration)
}

/// A statement in a block (C99 6.8.2).
pub fn statement_item<'a>(inner: Boxed<Statement<'a>>) -> BlockItem<'a>
    ensures { block_item_of result ≡ s.inner (statement_of inner.entry) }
{
    BlockItem::Statement(inner)
}
