//! Whether the text of a statement or an initializer assigns a plain variable (C99 6.5.16, 6.7.8).

ghost use Rattle.std.specs.Prelude.{◌≡◌, map, option_map};
ghost use Rattle.c_tree.specs.Statements.{statements_in, items_in};
ghost use Rattle.c_tree.specs.View.{content_of, part_of, initializer_of, declared_of, first_of, expression_of};
ghost use Rattle.c_tree.specs.View.{statement_of};
ghost use Rattle.c_tree.specs.Assigning.{content_assigns, parts_assign, initializer_assigns, declared_assign};
ghost use Rattle.c_tree.specs.Assigning.{first_assigns, if_assigns, statement_assigns, each_assigns, items_assign};
ghost use Rattle.program_lowering.specs.StatementParts.Items.{item_of};

use crate::keys::assigned::assigns;
use c_tree::{
    Content, DeclaredVariable, Expression, First, Initializer, Part, Statement, SwitchItem,
};

fn content_assigns(x: usize, content: &Content) -> bool
    ensures { result ≡ content_assigns x (content_of content.now) }
{
    match content {
        Content::Value(e) => assigns(x, e),
        Content::Literal(_) => false,
    }
}

fn parts_assign(x: usize, parts: &[Part]) -> bool
    ensures { result ≡ parts_assign x (map part_of parts.now) }
{
    for part in parts {
        if content_assigns(x, &part.content) {
            return true;
        }
    }
    false
}

fn initializer_assigns(x: usize, declared: usize, initializer: &Option<Initializer>) -> bool
    ensures { result ≡ initializer_assigns x declared (option_map initializer_of initializer.now) }
{
    match initializer {
        None => false,
        Some(Initializer::Plain(e)) => declared == x || assigns(x, e),
        Some(Initializer::Object(parts)) => parts_assign(x, parts.as_slice()),
    }
}

fn declared_assign(x: usize, declared: &[DeclaredVariable]) -> bool
    ensures { result ≡ declared_assign x (map declared_of declared.now) }
{
    for variable in declared {
        if initializer_assigns(x, variable.variable, &variable.initializer) {
            return true;
        }
    }
    false
}

fn first_assigns(x: usize, first: &First) -> bool
    ensures { result ≡ first_assigns x (first_of first.now) }
{
    match first {
        First::Nothing => false,
        First::Expression(e) => assigns(x, e),
        First::Declaration(declared) => declared_assign(x, declared.as_slice()),
    }
}

fn if_assigns(x: usize, e: &Option<Expression>) -> bool
    ensures { result ≡ if_assigns x (option_map expression_of e.now) }
{
    match e {
        None => false,
        Some(e) => assigns(x, e),
    }
}

/// Whether a statement assigns the plain variable with this number, in whatever part of it.
#[cycle(assigned)]
pub fn statement_assigns(x: usize, s: &Statement) -> bool
    ensures { result ≡ statement_assigns x (statement_of s.now) }
{
    match s {
        Statement::Expression(e) => assigns(x, e),
        Statement::Empty | Statement::Break | Statement::Continue => false,
        Statement::Declaration(declared) => declared_assign(x, declared.as_slice()),
        Statement::Block(_, body) => each_assigns(x, body.as_slice()),
        Statement::If(e, body) | Statement::While(e, body) => assigns(x, e)
            || statement_assigns(x, body.get()),
        Statement::IfElse(e, body, other) => {
            assigns(x, e) || (statement_assigns(x, body.get()) || statement_assigns(x, other.get()))
        }
        Statement::DoWhile(body, e) => statement_assigns(x, body.get()) || assigns(x, e),
        Statement::For(_, first, condition, step, body) => {
            first_assigns(x, first)
                || (if_assigns(x, condition)
                    || (if_assigns(x, step) || statement_assigns(x, body.get())))
        }
        Statement::Switch(e, _, items) => assigns(x, e) || items_assign(x, items.as_slice()),
        Statement::Return(e) => if_assigns(x, e),
    }
}

#[cycle(assigned)]
fn each_assigns(x: usize, body: &[Statement]) -> bool
    ensures { result ≡ each_assigns x (statements_in (map statement_of body.now)) }
{
    for statement in body {
        if statement_assigns(x, statement) {
            return true;
        }
    }
    false
}

#[cycle(assigned)]
fn items_assign(x: usize, items: &[SwitchItem]) -> bool
    ensures { result ≡ items_assign x (items_in (map item_of items.now)) }
{
    for item in items {
        if statement_assigns(x, &item.statement) {
            return true;
        }
    }
    false
}
