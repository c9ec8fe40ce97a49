//! Statements and initializers of integers alone (C99 6.7.8, 6.8).

ghost use Rattle.std.specs.Prelude.{◌≡◌, map, option_map};
ghost use Rattle.c_tree.specs.Statements.{items_in, statements_in};
ghost use Rattle.c_tree.specs.View.{declared_of, expression_of, first_of, initializer_of, statement_of};
ghost use Rattle.compiled_programs.specs.Items.{item_of};
ghost use Rattle.compiled_programs.specs.Programs.{are_integer_declared, are_integer_items, are_integer_statements};
ghost use Rattle.compiled_programs.specs.Programs.{is_integer_expression_if, is_integer_first};
ghost use Rattle.compiled_programs.specs.Programs.{is_integer_initializer, is_integer_statement};

use crate::expression::is_integer_expression;
use c_tree::{DeclaredVariable, Expression, First, Initializer, Statement, SwitchItem};

fn is_integer_expression_if(e: &Option<Expression>) -> bool
    ensures { result ≡ is_integer_expression_if (option_map expression_of e.now) }
{
    match e {
        None => true,
        Some(e) => is_integer_expression(e),
    }
}

fn is_integer_initializer(initializer: &Option<Initializer>) -> bool
    ensures { result ≡ is_integer_initializer (option_map initializer_of initializer.now) }
{
    match initializer {
        None => true,
        Some(Initializer::Plain(e)) => is_integer_expression(e),
        Some(Initializer::Object(_)) => false,
    }
}

fn are_integer_declared(declared: &[DeclaredVariable]) -> bool
    ensures { result ≡ are_integer_declared (map declared_of declared.now) }
{
    for variable in declared {
        if !is_integer_initializer(&variable.initializer) {
            return false;
        }
    }
    true
}

fn is_integer_first(first: &First) -> bool
    ensures { result ≡ is_integer_first (first_of first.now) }
{
    match first {
        First::Nothing => true,
        First::Expression(e) => is_integer_expression(e),
        First::Declaration(declared) => are_integer_declared(declared.as_slice()),
    }
}

/// Whether a statement has integers alone.
#[cycle(statement)]
pub fn is_integer_statement(s: &Statement) -> bool
    ensures { result ≡ is_integer_statement (statement_of s.now) }
{
    match s {
        Statement::Expression(e) => is_integer_expression(e),
        Statement::Empty | Statement::Break | Statement::Continue => true,
        Statement::Declaration(declared) => are_integer_declared(declared.as_slice()),
        Statement::Block(_, body) => are_integer_statements(body.as_slice()),
        Statement::If(e, body) | Statement::While(e, body) => {
            is_integer_expression(e) && is_integer_statement(body.get())
        }
        Statement::IfElse(e, body, other) => {
            is_integer_expression(e)
                && is_integer_statement(body.get())
                && is_integer_statement(other.get())
        }
        Statement::DoWhile(body, e) => is_integer_statement(body.get()) && is_integer_expression(e),
        Statement::For(_, first, condition, step, body) => {
            is_integer_first(first)
                && is_integer_expression_if(condition)
                && is_integer_expression_if(step)
                && is_integer_statement(body.get())
        }
        Statement::Switch(e, _, items) => {
            is_integer_expression(e) && are_integer_items(items.as_slice())
        }
        Statement::Return(e) => is_integer_expression_if(e),
    }
}

/// Whether all statements of a list have integers alone.
#[cycle(statement)]
pub fn are_integer_statements(body: &[Statement]) -> bool
    ensures { result ≡ are_integer_statements (statements_in (map statement_of body.now)) }
{
    for statement in body {
        if !is_integer_statement(statement) {
            return false;
        }
    }
    true
}

#[cycle(statement)]
fn are_integer_items(items: &[SwitchItem]) -> bool
    ensures { result ≡ are_integer_items (items_in (map item_of items.now)) }
{
    for item in items {
        if !is_integer_statement(&item.statement) {
            return false;
        }
    }
    true
}
