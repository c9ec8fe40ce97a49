//! Statements and blocks (C99 6.8), in the order of the tokens.

ghost use Rattle.std.specs.Prelude.{◌≡◌, ◌++◌, ◌∷◌, [], IfOk, map};
ghost use Rattle.c_syntax.specs.StatementsView as views;
ghost use Rattle.c_syntax.specs.View as view;
ghost use Rattle.c_tree.specs.Statements as built;
ghost use Rattle.c_tree.specs.Tree as typed_tree;
ghost use Rattle.c_tree.specs.View as tree;
ghost use Rattle.c_tree.specs.View.{statement_of};
ghost use Rattle.c_faults.specs.Answer.{Answer};
ghost use Rattle.c_rules.specs.Values.{value_of};
ghost use Rattle.c_typing_state.specs.State.{judged};
ghost use Rattle.c_programs.specs.FileState.{FileTypes, file_of};
ghost use Rattle.c_unit_typing.specs.Constructs as constructs;
ghost use Rattle.c_unit_typing.specs.Files.{File, in_state, ◌~>◌};
ghost use Rattle.c_unit_typing.specs.Statements as statements;
ghost use Rattle.c_typer.specs.Around.{around_of, item_of, labelled_of, labels_of};
ghost use Rattle.c_typer.specs.Branches as branches;
ghost use Rattle.c_typer.specs.Branches.{branch_of};

use crate::declarations::declarators::declaration;
use crate::statements::allocated::{Allocated, with_allocated};
use crate::statements::around::Around;
use crate::statements::building;
use crate::statements::building::switch_item;
use crate::statements::controlling::{controlling, expression_statement, switching_on, type_of};
use crate::statements::heads::head_typed;
use crate::statements::labels::{Labels, case_label};
use crate::statements::leaving::{break_at, continue_at, returned};
use crate::statements::lists::with_item;
use crate::statements::repeating::do_behind;
use c_faults::Refusal;
use c_programs::state::FileTyper;
use c_room::SwitchLabels;
use c_rules::TypedValue;
use c_rules::holding::beside;
use c_syntax::{
    Block, BlockItem, CaseLabel as CaseTree, Declaration, Expression, ForHead,
    Statement as StatementTree,
};
use c_tree::{CaseLabel, Expression as TypedExpression, Statement, SwitchItem};
use obj_memory::IntType;
use sb_base::Line;
use std::alloc::AllocError;
use tree_containers::Items;

// A declaration in a block.
fn declared<'a>(
    file: &mut FileTyper<'a>,
    tree: &Declaration<'a>,
) -> Result<Allocated<Statement>, Refusal>
    ensures { FileTypes statement_of (file_of file.new) result
        (constructs.declaration_typed (views.declaration_of tree.now) (file_of file.old)) }
{
    let variables = declaration(file, false, tree)?;
    let statement = building::declaration(file.typer.alloc, variables)?;
    Ok(statement)
}

/// Types a statement (C99 6.8) with the labels of a switch that stand before it, and puts its own labels behind these.
/// The refusal is that of the first rule that is violated, in the order of the tokens, or that there is no memory.
#[cycle(statements)]
pub(crate) fn statement<'a>(
    file: &mut FileTyper<'a>,
    around: Around<'_>,
    labels: Labels<'_>,
    own: &mut Vec<CaseLabel>,
    tree: &StatementTree<'a>,
) -> Result<Allocated<Statement>, Refusal>
    ensures { FileTypes (labelled_of own.new.items) (file_of file.new) result (statements.statement
        (around_of around.entry) (labels_of labels.entry own.old.items) (views.statement_of tree.now)
        (file_of file.old)) }
{
    match tree {
        StatementTree::Block(tree) => block(file, around, tree),
        StatementTree::Expression(tree, _) => expression_statement(&mut file.typer, tree),
        StatementTree::If(at, condition, body) => {
            if_then(file, around, at.line, body.get(), condition.inner.get())
        }
        StatementTree::IfElse(at, condition, body, _, other) => {
            let begun = up_to_else(file, around, at.line, body.get(), condition.inner.get());
            with_else(file, around, other.get(), begun)
        }
        StatementTree::Switch(at, value, block) => {
            switch(file, around, at.line, block, value.inner.get())
        }
        StatementTree::While(at, condition, body) => {
            while_do(file, around, at.line, body.get(), condition.inner.get())
        }
        StatementTree::Do(at, body, end) => {
            do_while(file, around, at.line, body.get(), end.condition.inner.get())
        }
        StatementTree::For(at, head, body) => for_loop(file, around, at.line, head, body.get()),
        StatementTree::Case(label, inner) => case(file, around, labels, own, label, inner.get()),
        StatementTree::Default(at, _, inner) => {
            default(file, around, labels, own, at.line, inner.get())
        }
        StatementTree::Break(at, _) => break_at(&file.typer, around.may_break, at.line),
        StatementTree::Continue(at, _) => continue_at(&file.typer, around.may_continue, at.line),
        StatementTree::Return(at, value, _) => {
            returned(&mut file.typer, at.line, around.result, value)
        }
    }
}

/// Types a block (C99 6.8.2), which is a scope. Refusals as of `statement`.
#[cycle(statements)]
#[tactic(auto, using(c_syntax::proofs::StatementViews::block_view))]
pub(crate) fn block<'a>(
    file: &mut FileTyper<'a>,
    around: Around<'_>,
    tree: &Block<'a>,
) -> Result<Allocated<Statement>, Refusal>
    ensures { FileTypes statement_of (file_of file.new) result
        (statements.block (around_of around.entry) (views.block_of tree.now) (file_of file.old)) }
{
    file.open_scope()?;
    let items = block_items(file, around, tree.items.as_slice())?;
    file.close_scope();
    let statement = building::block(file.typer.alloc, tree.left.line, items)?;
    Ok(statement)
}

/// Types the declarations and statements of a block, in whose scope they stand. Refusals as of `statement`.
#[cycle(statements)]
pub(crate) fn block_items<'a>(
    file: &mut FileTyper<'a>,
    around: Around<'_>,
    items: &[BlockItem<'a>],
) -> Result<Items<Statement>, Refusal>
    ensures { FileTypes (λ ss. built.statements_in (map statement_of ss)) (file_of file.new) result
        (statements.block_items (around_of around.entry) (views.items_in items.now) (file_of file.old)) }
{
    let mut statements = Vec::new(file.typer.alloc);
    for item in items {
        let (before, statement) = beside(statements, block_item(file, around, item))?;
        statements = with_allocated(before, statement)?;
    }
    Ok(Items::from_vec(statements))
}

#[cycle(statements)]
fn block_item<'a>(
    file: &mut FileTyper<'a>,
    around: Around<'_>,
    tree: &BlockItem<'a>,
) -> Result<Allocated<Statement>, Refusal>
    ensures { FileTypes statement_of (file_of file.new) result
        (statements.block_item (around_of around.entry) (views.block_item_of tree.now) (file_of file.old)) }
{
    match tree {
        BlockItem::Declaration(tree) => declared(file, tree),
        BlockItem::Statement(tree) => unlabelled(file, around, tree.get()),
    }
}

// A statement where no label may stand.
#[cycle(statements)]
fn unlabelled<'a>(
    file: &mut FileTyper<'a>,
    around: Around<'_>,
    tree: &StatementTree<'a>,
) -> Result<Allocated<Statement>, Refusal>
    ensures { FileTypes statement_of (file_of file.new) result (constructs.without_labels (statements.statement
        (around_of around.entry) constructs.no_labels (views.statement_of tree.now)) (file_of file.old)) }
{
    let earlier = SwitchLabels::new(file.typer.alloc);
    let labels = Labels {
        switch: None,
        earlier: &earlier,
    };
    let mut own = Vec::new(file.typer.alloc);
    statement(file, around, labels, &mut own, tree)
}

// A statement that another controls, which is a scope.
#[cycle(statements)]
fn controlled<'a>(
    file: &mut FileTyper<'a>,
    around: Around<'_>,
    tree: &StatementTree<'a>,
) -> Result<Allocated<Statement>, Refusal>
    ensures { FileTypes statement_of (file_of file.new) result (constructs.controlled (statements.statement
        (around_of around.entry) constructs.no_labels (views.statement_of tree.now)) (file_of file.old)) }
{
    file.open_scope()?;
    let statement = unlabelled(file, around, tree)?;
    file.close_scope();
    Ok(statement)
}

#[cycle(statements)]
fn if_then<'a>(
    file: &mut FileTyper<'a>,
    around: Around<'_>,
    line: Line,
    body: &StatementTree<'a>,
    condition: &Expression<'a>,
) -> Result<Allocated<Statement>, Refusal>
    ensures { FileTypes statement_of (file_of file.new) result (constructs.if_typed line
        (view.expression_of condition.now) (constructs.controlled (statements.statement (around_of around.entry)
        constructs.no_labels (views.statement_of body.now))) (file_of file.old)) }
{
    file.open_scope()?;
    let condition = controlling(&mut file.typer, line, condition)?;
    let (condition, body) = beside(condition, controlled(file, around, body))?;
    let statement = building::if_then(file.typer.alloc, condition, body)?;
    file.close_scope();
    Ok(statement)
}

// The condition and the first statement of an `if` with an `else`, in whose scope they leave the file.
#[cycle(statements)]
fn up_to_else<'a>(
    file: &mut FileTyper<'a>,
    around: Around<'_>,
    line: Line,
    body: &StatementTree<'a>,
    condition: &Expression<'a>,
) -> Result<(Allocated<TypedExpression>, Allocated<Statement>), Refusal>
    ensures { FileTypes branch_of (file_of file.new) result (branches.branch line (view.expression_of condition.now)
        (constructs.controlled (statements.statement (around_of around.entry) constructs.no_labels
        (views.statement_of body.now))) (file_of file.old)) }
{
    file.open_scope()?;
    let condition = controlling(&mut file.typer, line, condition)?;
    beside(condition, controlled(file, around, body))
}

// The second statement, behind a condition and a first one, and the end of their scope.
#[cycle(statements)]
fn otherwise<'a>(
    file: &mut FileTyper<'a>,
    around: Around<'_>,
    other: &StatementTree<'a>,
    condition: Allocated<TypedExpression>,
    body: Allocated<Statement>,
) -> Result<Allocated<Statement>, Refusal>
    ensures { FileTypes statement_of (file_of file.new) result (branches.otherwise (constructs.controlled
        (statements.statement (around_of around.entry) constructs.no_labels (views.statement_of other.now)))
        (tree.expression_of condition) (statement_of body) (file_of file.old)) }
{
    let (parts, other) = beside((condition, body), controlled(file, around, other))?;
    let (condition, body) = parts;
    let statement = building::if_else(file.typer.alloc, condition, body, other)?;
    file.close_scope();
    Ok(statement)
}

// The second statement, behind a condition and a first one that are typed or refused.
#[cycle(statements)]
fn with_else<'a>(
    file: &mut FileTyper<'a>,
    around: Around<'_>,
    other: &StatementTree<'a>,
    begun: Result<(Allocated<TypedExpression>, Allocated<Statement>), Refusal>,
) -> Result<Allocated<Statement>, Refusal>
    ensures { (typed : Answer (File × (typed_tree.Expression × built.Statement)))
        → FileTypes branch_of (file_of file.old) begun typed
        → FileTypes statement_of (file_of file.new) result (branches.with_else (constructs.controlled
        (statements.statement (around_of around.entry) constructs.no_labels (views.statement_of other.now))) typed) }
{
    match begun {
        Ok((condition, body)) => otherwise(file, around, other, condition, body),
        Err(refusal) => Err(refusal),
    }
}

#[cycle(statements)]
fn while_do<'a>(
    file: &mut FileTyper<'a>,
    around: Around<'_>,
    line: Line,
    body: &StatementTree<'a>,
    condition: &Expression<'a>,
) -> Result<Allocated<Statement>, Refusal>
    ensures { FileTypes statement_of (file_of file.new) result (constructs.while_typed line
        (view.expression_of condition.now) (constructs.controlled (statements.statement (constructs.looping
        (around_of around.entry)) constructs.no_labels (views.statement_of body.now))) (file_of file.old)) }
{
    file.open_scope()?;
    let condition = controlling(&mut file.typer, line, condition)?;
    let (condition, body) = beside(condition, controlled(file, around.looping(), body))?;
    let statement = building::while_do(file.typer.alloc, condition, body)?;
    file.close_scope();
    Ok(statement)
}

#[cycle(statements)]
fn do_while<'a>(
    file: &mut FileTyper<'a>,
    around: Around<'_>,
    line: Line,
    body: &StatementTree<'a>,
    condition: &Expression<'a>,
) -> Result<Allocated<Statement>, Refusal>
    ensures { FileTypes statement_of (file_of file.new) result (constructs.do_typed line (constructs.controlled
        (statements.statement (constructs.looping (around_of around.entry)) constructs.no_labels (views.statement_of
        body.now))) (view.expression_of condition.now) (file_of file.old)) }
{
    file.open_scope()?;
    let before = file.typer.copy()?;
    let body = controlled(file, around.looping(), body);
    let statement = do_behind(file, before, line, body, condition)?;
    file.close_scope();
    Ok(statement)
}

#[cycle(statements)]
fn for_loop<'a>(
    file: &mut FileTyper<'a>,
    around: Around<'_>,
    line: Line,
    head: &ForHead<'a>,
    body: &StatementTree<'a>,
) -> Result<Allocated<Statement>, Refusal>
    ensures { FileTypes statement_of (file_of file.new) result (constructs.for_typed line
        (views.for_init_of head.now.init) (views.optional_of head.now.condition) (views.optional_of head.now.step)
        (constructs.controlled (statements.statement (constructs.looping (around_of around.entry)) constructs.no_labels
        (views.statement_of body.now))) (file_of file.old)) }
{
    file.open_scope()?;
    let head = head_typed(file, line, head)?;
    let (head, body) = beside(head, controlled(file, around.looping(), body))?;
    let statement = building::for_loop(file.typer.alloc, line, head, body)?;
    file.close_scope();
    Ok(statement)
}

// `case` and the statement behind it.
#[cycle(statements)]
fn case<'a>(
    file: &mut FileTyper<'a>,
    around: Around<'_>,
    labels: Labels<'_>,
    own: &mut Vec<CaseLabel>,
    label: &CaseTree<'a>,
    inner: &StatementTree<'a>,
) -> Result<Allocated<Statement>, Refusal>
    ensures { FileTypes (labelled_of own.new.items) (file_of file.new) result ((in_state (constructs.case_label
        (labels_of labels.entry own.old.items) label.now.position.line (view.expression_of label.now.value)) ~> λ ls.
        statements.statement (around_of around.entry) ls (views.statement_of inner.now)) (file_of file.old)) }
{
    let line = label.position.line;
    case_label(&mut file.typer, labels, own, line, label.value.get())?;
    statement(file, around, labels, own, inner)
}

// `default` and the statement behind it.
#[cycle(statements)]
fn default<'a>(
    file: &mut FileTyper<'a>,
    around: Around<'_>,
    labels: Labels<'_>,
    own: &mut Vec<CaseLabel>,
    line: Line,
    inner: &StatementTree<'a>,
) -> Result<Allocated<Statement>, Refusal>
    ensures { FileTypes (labelled_of own.new.items) (file_of file.new) result ((in_state (judged
        (constructs.default_label (labels_of labels.entry own.old.items) line)) ~> λ ls. statements.statement
        (around_of around.entry) ls (views.statement_of inner.now)) (file_of file.old)) }
{
    labels.add_default(own, line)?;
    statement(file, around, labels, own, inner)
}

#[cycle(statements)]
fn switch<'a>(
    file: &mut FileTyper<'a>,
    around: Around<'_>,
    line: Line,
    tree: &Block<'a>,
    value: &Expression<'a>,
) -> Result<Allocated<Statement>, Refusal>
    ensures { FileTypes statement_of (file_of file.new) result (constructs.switch_typed line (view.expression_of
        value.now) (λ v. statements.switch_block (constructs.switching (around_of around.entry)) v (views.block_of
        tree.now)) (file_of file.old)) }
{
    file.open_scope()?;
    let value = switching_on(&mut file.typer, line, value)?;
    let statement = switch_block(file, around.switching(), tree, value)?;
    file.close_scope();
    Ok(statement)
}

// The block of a switch with a value.
#[cycle(statements)]
#[tactic(auto, using(c_syntax::proofs::StatementViews::block_view))]
fn switch_block<'a>(
    file: &mut FileTyper<'a>,
    around: Around<'_>,
    tree: &Block<'a>,
    value: Allocated<TypedValue>,
) -> Result<Allocated<Statement>, Refusal>
    ensures { FileTypes statement_of (file_of file.new) result (statements.switch_block (around_of around.entry)
        (value_of value) (views.block_of tree.now) (file_of file.old)) }
{
    let value_type = type_of(&value);
    let items = scope_of_switch(file, around, value_type, tree.items.as_slice());
    let (value, items) = beside(value, items)?;
    let statement = building::switch(file.typer.alloc, value, tree.left.line, items)?;
    Ok(statement)
}

// The items of a switch, whose block is a scope.
#[cycle(statements)]
fn scope_of_switch<'a>(
    file: &mut FileTyper<'a>,
    around: Around<'_>,
    value_type: IntType,
    items: &[BlockItem<'a>],
) -> Result<Vec<SwitchItem>, Refusal>
    ensures { FileTypes (λ is. built.items_in (map item_of is.items)) (file_of file.new) result (constructs.in_scope
        (statements.switch_items (around_of around.entry) value_type [] (views.items_in items.now))
        (file_of file.old)) }
{
    file.open_scope()?;
    let items = switch_items(file, around, value_type, items)?;
    file.close_scope();
    Ok(items)
}

// An item behind others of a switch, whose labels are earlier ones from now on.
fn with_switch_item(
    earlier: &mut SwitchLabels,
    typed: Vec<SwitchItem>,
    item: (Vec<CaseLabel>, Allocated<Statement>),
) -> Result<Vec<SwitchItem>, AllocError>
    ensures items { IfOk result (λ is. map item_of is.items
        ≡ map item_of typed.items ++ (item.0.items, statement_of item.1) ∷ []) }
    ensures labels { IfOk result (λ is. earlier.new ≡ earlier.old ++ item.0.items) }
{
    let (labels, statement) = item;
    let followed = earlier.extend_from_slice(&labels);
    let (parts, _) = beside((typed, (labels, statement)), followed)?;
    let (typed, (labels, statement)) = parts;
    with_item(typed, switch_item(labels, statement))
}

// The items of a switch whose value has a type.
#[cycle(statements)]
fn switch_items<'a>(
    file: &mut FileTyper<'a>,
    around: Around<'_>,
    value_type: IntType,
    items: &[BlockItem<'a>],
) -> Result<Vec<SwitchItem>, Refusal>
    ensures { FileTypes (λ is. built.items_in (map item_of is.items)) (file_of file.new) result
        (statements.switch_items (around_of around.entry) value_type [] (views.items_in items.now) (file_of file.old)) }
{
    let mut earlier = SwitchLabels::new(file.typer.alloc);
    let mut typed = Vec::new(file.typer.alloc);
    for item in items {
        let labels = Labels {
            switch: Some(value_type),
            earlier: &earlier,
        };
        let (before, item) = beside(typed, labelled_item(file, around, labels, item))?;
        typed = with_switch_item(&mut earlier, before, item)?;
    }
    Ok(typed)
}

// An item of a switch with its labels.
#[cycle(statements)]
fn labelled_item<'a>(
    file: &mut FileTyper<'a>,
    around: Around<'_>,
    labels: Labels<'_>,
    tree: &BlockItem<'a>,
) -> Result<(Vec<CaseLabel>, Allocated<Statement>), Refusal>
    ensures { FileTypes (λ item. labelled_of item.0.items item.1) (file_of file.new) result (statements.switch_item
        (around_of around.entry) (labels_of labels.entry []) (views.block_item_of tree.now) (file_of file.old)) }
{
    let mut own = Vec::new(file.typer.alloc);
    let statement = item_statement(file, around, labels, &mut own, tree);
    beside(own, statement)
}

// What an item of a switch has behind the labels so far.
#[cycle(statements)]
fn item_statement<'a>(
    file: &mut FileTyper<'a>,
    around: Around<'_>,
    labels: Labels<'_>,
    own: &mut Vec<CaseLabel>,
    tree: &BlockItem<'a>,
) -> Result<Allocated<Statement>, Refusal>
    ensures { FileTypes (labelled_of own.new.items) (file_of file.new) result (statements.switch_item
        (around_of around.entry) (labels_of labels.entry own.old.items) (views.block_item_of tree.now)
        (file_of file.old)) }
{
    match tree {
        BlockItem::Declaration(tree) => declared(file, tree),
        BlockItem::Statement(tree) => statement(file, around, labels, own, tree.get()),
    }
}
