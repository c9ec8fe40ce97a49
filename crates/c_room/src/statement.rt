//! What statements and initializers demand (C99 6.7.8, 6.8).

ghost use Rattle.std.specs.Prelude.{◌≡◌, map, option_map};
ghost use Rattle.c_tree.specs.Statements.{items_in, statements_in};
ghost use Rattle.c_tree.specs.View.{content_of, declared_of, expression_of, first_of, initializer_of, part_of};
ghost use Rattle.c_tree.specs.View.{statement_of};
ghost use Rattle.c_room.specs.Contents.{content_demand, with_contents, with_declared, with_first, with_initializer};
ghost use Rattle.c_room.specs.Contents.{with_items, with_optional, with_statement, with_statements};
ghost use Rattle.c_room.specs.Items.{item_of};

use crate::demand::Demand;
use crate::expression::demand;
use c_tree::{
    Content, DeclaredVariable, Expression, First, Initializer, Part, Statement, SwitchItem,
};

fn content(tree: &Content) -> Demand
    ensures { result ≡ content_demand (content_of tree.now) }
{
    match tree {
        Content::Value(e) => demand(e),
        Content::Literal(_) => Demand::value(),
    }
}

/// With the parts of an initializer (C99 6.7.8).
pub(crate) fn parts(mut so_far: Demand, trees: &[Part]) -> Demand
    ensures { result ≡ with_contents so_far (map (λ p. p.content) (map part_of trees.now)) }
{
    for part in trees {
        so_far = so_far.beside(content(&part.content));
    }
    so_far
}

fn optional(so_far: Demand, tree: &Option<Expression>) -> Demand
    ensures { result ≡ with_optional so_far (option_map expression_of tree.now) }
{
    match tree {
        None => so_far,
        Some(e) => so_far.beside(demand(e)),
    }
}

fn initializer(so_far: Demand, tree: &Option<Initializer>) -> Demand
    ensures { result ≡ with_initializer so_far (option_map initializer_of tree.now) }
{
    match tree {
        None => so_far,
        Some(Initializer::Plain(e)) => so_far.beside(demand(e)),
        Some(Initializer::Object(trees)) => parts(so_far, trees.as_slice()),
    }
}

fn declared(mut so_far: Demand, trees: &[DeclaredVariable]) -> Demand
    ensures { result ≡ with_declared so_far (map declared_of trees.now) }
{
    for variable in trees {
        so_far = initializer(so_far, &variable.initializer);
    }
    so_far
}

fn first(so_far: Demand, tree: &First) -> Demand
    ensures { result ≡ with_first so_far (first_of tree.now) }
{
    match tree {
        First::Nothing => so_far,
        First::Expression(e) => so_far.beside(demand(e)),
        First::Declaration(variables) => declared(so_far, variables.as_slice()),
    }
}

/// With a statement (C99 6.8).
#[cycle(statement)]
fn statement(so_far: Demand, tree: &Statement) -> Demand
    ensures { result ≡ with_statement so_far (statement_of tree.now) }
{
    match tree {
        Statement::Expression(e) => so_far.beside(demand(e)),
        Statement::Empty | Statement::Break | Statement::Continue => so_far,
        Statement::Declaration(variables) => declared(so_far, variables.as_slice()),
        Statement::Block(_, body) => statements(so_far, body.as_slice()),
        Statement::If(e, body) | Statement::While(e, body) => {
            statement(so_far.beside(demand(e)), body.get())
        }
        Statement::IfElse(e, body, other) => {
            let so_far = statement(so_far.beside(demand(e)), body.get());
            statement(so_far, other.get())
        }
        Statement::DoWhile(body, e) => statement(so_far, body.get()).beside(demand(e)),
        Statement::For(_, start, condition, step, body) => {
            let so_far = optional(first(so_far, start), condition);
            statement(optional(so_far, step), body.get())
        }
        Statement::Switch(e, _, trees) => items(so_far.beside(demand(e)), trees.as_slice()),
        Statement::Return(e) => optional(so_far, e),
    }
}

/// With statements one after the other (C99 6.8.2).
#[cycle(statement)]
pub(crate) fn statements(mut so_far: Demand, body: &[Statement]) -> Demand
    ensures { result ≡ with_statements so_far (statements_in (map statement_of body.now)) }
{
    for tree in body {
        so_far = statement(so_far, tree);
    }
    so_far
}

#[cycle(statement)]
fn items(mut so_far: Demand, trees: &[SwitchItem]) -> Demand
    ensures { result ≡ with_items so_far (items_in (map item_of trees.now)) }
{
    for item in trees {
        so_far = statement(so_far, &item.statement);
    }
    so_far
}
