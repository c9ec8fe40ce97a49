//! Building of statements from their parts.

ghost use Rattle.std.specs.Prelude.{◌≡◌, ◌∷◌, IfOk, List, map, option_map};
ghost use Rattle.c_rules.specs.Values.{value_of};
ghost use Rattle.c_tree.specs.Statements as built;
ghost use Rattle.c_tree.specs.View.{declared_of, expression_of, statement_of};
ghost use Rattle.c_typer.specs.Around.{head_of, item_of};

use crate::statements::allocated::{Allocated, boxed, boxed_pair, taken};
use crate::statements::heads::Head;
use c_rules::TypedValue;
use c_rules::holding::beside;
use c_tree::{CaseLabel, DeclaredVariable, Expression, Statement, SwitchItem};
use sb_base::Line;
use std::alloc::{AllocError, Global};
use tree_containers::Items;

/// `;`
pub(crate) fn empty(alloc: Global) -> Result<Allocated<Statement>, AllocError>
    ensures { IfOk result (λ s. statement_of s ≡ built.empty) }
{
    Allocated::new(alloc, Statement::Empty)
}

/// `E;`
pub(crate) fn expression(
    alloc: Global,
    tree: Allocated<Expression>,
) -> Result<Allocated<Statement>, AllocError>
    ensures { IfOk result (λ s. statement_of s ≡ built.expression_statement (expression_of tree)) }
{
    Allocated::new(alloc, Statement::Expression(tree.take()))
}

/// A declaration of these automatic variables.
pub(crate) fn declaration(
    alloc: Global,
    variables: Vec<DeclaredVariable>,
) -> Result<Allocated<Statement>, AllocError>
    ensures { IfOk result (λ s. statement_of s ≡ built.declaration (map declared_of variables.items)) }
{
    Allocated::new(alloc, Statement::Declaration(Items::from_vec(variables)))
}

/// `{ .. }`
pub(crate) fn block(
    alloc: Global,
    line: Line,
    items: Items<Statement>,
) -> Result<Allocated<Statement>, AllocError>
    ensures { IfOk result (λ s. statement_of s ≡ built.block line (built.statements_in (map statement_of items))) }
{
    Allocated::new(alloc, Statement::Block(line, items))
}

/// `if (E) S`
pub(crate) fn if_then(
    alloc: Global,
    condition: Allocated<Expression>,
    body: Allocated<Statement>,
) -> Result<Allocated<Statement>, AllocError>
    ensures { IfOk result (λ s. statement_of s ≡ built.if_then (expression_of condition) (statement_of body)) }
{
    let (condition, body) = beside(condition, boxed(alloc, body))?;
    Allocated::new(alloc, Statement::If(condition.take(), body))
}

/// `if (E) S else S`
pub(crate) fn if_else(
    alloc: Global,
    condition: Allocated<Expression>,
    body: Allocated<Statement>,
    other: Allocated<Statement>,
) -> Result<Allocated<Statement>, AllocError>
    ensures { IfOk result (λ s. statement_of s
        ≡ built.if_else (expression_of condition) (statement_of body) (statement_of other)) }
{
    let (condition, (body, other)) = beside(condition, boxed_pair(alloc, body, other))?;
    Allocated::new(alloc, Statement::IfElse(condition.take(), body, other))
}

/// `while (E) S`
pub(crate) fn while_do(
    alloc: Global,
    condition: Allocated<Expression>,
    body: Allocated<Statement>,
) -> Result<Allocated<Statement>, AllocError>
    ensures { IfOk result (λ s. statement_of s ≡ built.while_do (expression_of condition) (statement_of body)) }
{
    let (condition, body) = beside(condition, boxed(alloc, body))?;
    Allocated::new(alloc, Statement::While(condition.take(), body))
}

/// `do S while (E);`
pub(crate) fn do_while(
    alloc: Global,
    body: Allocated<Statement>,
    condition: Allocated<Expression>,
) -> Result<Allocated<Statement>, AllocError>
    ensures { IfOk result (λ s. statement_of s ≡ built.do_while (statement_of body) (expression_of condition)) }
{
    let (condition, body) = beside(condition, boxed(alloc, body))?;
    Allocated::new(alloc, Statement::DoWhile(body, condition.take()))
}

/// `for (..; E; E) S`, with the line of the word.
pub(crate) fn for_loop(
    alloc: Global,
    line: Line,
    head: Allocated<Head>,
    body: Allocated<Statement>,
) -> Result<Allocated<Statement>, AllocError>
    ensures { IfOk result (λ s. statement_of s ≡ built.for line (head_of head).first (head_of head).condition
        (head_of head).step (statement_of body)) }
{
    let (head, body) = beside(head, boxed(alloc, body))?;
    let Head {
        first,
        condition,
        step,
    } = head.take();
    let first = first.take();
    Allocated::new(
        alloc,
        Statement::For(line, first, taken(condition), taken(step), body),
    )
}

/// `switch (E) { .. }`, with the line of the `{`.
pub(crate) fn switch(
    alloc: Global,
    value: Allocated<TypedValue>,
    line: Line,
    items: Vec<SwitchItem>,
) -> Result<Allocated<Statement>, AllocError>
    ensures { IfOk result (λ s. statement_of s
        ≡ built.switch (value_of value).tree line (built.items_in (map item_of items.items))) }
{
    let TypedValue { c_type: _, tree } = value.take();
    Allocated::new(alloc, Statement::Switch(tree, line, Items::from_vec(items)))
}

/// `return E;`
pub(crate) fn give_back(
    alloc: Global,
    value: Option<Allocated<Expression>>,
) -> Result<Allocated<Statement>, AllocError>
    ensures { IfOk result (λ s. statement_of s ≡ built.return (option_map expression_of value)) }
{
    Allocated::new(alloc, Statement::Return(taken(value)))
}

/// `break;`
pub(crate) fn break_out(alloc: Global) -> Result<Allocated<Statement>, AllocError>
    ensures { IfOk result (λ s. statement_of s ≡ built.break) }
{
    Allocated::new(alloc, Statement::Break)
}

/// `continue;`
pub(crate) fn continue_on(alloc: Global) -> Result<Allocated<Statement>, AllocError>
    ensures { IfOk result (λ s. statement_of s ≡ built.continue) }
{
    Allocated::new(alloc, Statement::Continue)
}

/// An item of a switch, with its labels.
pub(crate) fn switch_item(labels: Vec<CaseLabel>, statement: Allocated<Statement>) -> SwitchItem
    ensures { item_of result ≡ (labels.items, statement_of statement) }
{
    SwitchItem {
        labels: Items::from_vec(labels),
        statement: statement.take(),
    }
}
