//! What the first item of a block is. The words of a tree alone do not tell how its operators bind.

use crate::verdict::tokens_of;
use anyhow::Result;
use c_lexer::Punctuator;
use c_parser::{parse, release};
use c_syntax::{BlockItem, Expression, External, Statement, Unit};

// The outermost operator of an expression: what it is, and its punctuator where several are that.
fn form_of(expression: &Expression) -> (&'static str, Option<Punctuator>) {
    match expression {
        Expression::Identifier(_)
        | Expression::Integer(_)
        | Expression::Character(_)
        | Expression::Strings(_, _)
        | Expression::Parenthesized(_, _, _) => ("primary", None),
        Expression::Subscript(_, _, _, _) => ("subscript", None),
        Expression::Call(_, _, _, _) => ("call", None),
        Expression::Member(_, _, _, _) => ("member", None),
        Expression::Postfix(_, operator, _) => ("postfix", Some(*operator)),
        Expression::Unary(operator, _, _) => ("unary", Some(*operator)),
        Expression::SizeofExpression(_, _) => ("sizeof expression", None),
        Expression::SizeofType(_, _, _, _) => ("sizeof type", None),
        Expression::Cast(_, _, _, _) => ("cast", None),
        Expression::Binary(_, operator, _, _) => ("binary", Some(*operator)),
        Expression::Conditional(_, _, _, _, _) => ("conditional", None),
        Expression::Assignment(_, operator, _, _) => ("assignment", Some(*operator)),
    }
}

fn statement_form(statement: &Statement) -> (&'static str, Option<Punctuator>) {
    match statement {
        Statement::Expression(Some(expression), _) => form_of(expression.get()),
        Statement::If(_, _, _) => ("if", None),
        Statement::IfElse(_, _, _, _, _) => ("if with else", None),
        _ => ("other statement", None),
    }
}

// The form of the first item of the block of the function that ends a file.
fn first_form(unit: &Unit) -> (&'static str, Option<Punctuator>) {
    let Some(External::Function(_, _, block)) = unit.externals.as_slice().last() else {
        return ("no function", None);
    };
    match block.items.as_slice().first() {
        Some(BlockItem::Declaration(_)) => ("declaration", None),
        Some(BlockItem::Statement(statement)) => statement_form(statement.get()),
        None => ("no item", None),
    }
}

/// Prints what the first of these statements is, where T is a typedef name.
pub fn put(rt: &HostRuntime, statements: &str) -> Result<()> {
    let text = format!(in rt.alloc(); "typedef int T; void f(void) {{ {statements} }}")?;
    let tokens = tokens_of(rt.alloc(), text.as_bytes())?;
    let (name, operator) = match parse(rt.alloc(), &tokens) {
        Ok(unit) => {
            let form = first_form(&unit);
            release(unit);
            form
        }
        Err(_) => ("refused", None),
    };
    match operator {
        Some(operator) => println!(rt; "{name} {}", str::from_utf8(operator.spelling())?)?,
        None => println!(rt; "{name}")?,
    }
    Ok(())
}
