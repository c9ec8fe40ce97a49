//! The lines of the first tokens of expressions and initializers.

ghost use Rattle.std.specs.Prelude.{◌≡◌};
ghost use Rattle.c_syntax.specs.StatementsView as views;
ghost use Rattle.c_syntax.specs.View as view;
ghost use Rattle.c_unit_typing.specs.Lines.{expression_line, initializer_line};

use c_syntax::{Expression, Initializer};
use sb_base::Line;

/// The line of an expression's first token.
pub fn expression_line(expression: &Expression) -> Line
    ensures { result ≡ expression_line (view.expression_of expression.now) }
{
    match expression {
        Expression::Identifier(name)
        | Expression::Integer(name)
        | Expression::Character(name)
        | Expression::Strings(name, _) => name.position.line,
        Expression::Parenthesized(at, _, _)
        | Expression::Unary(_, at, _)
        | Expression::SizeofExpression(at, _)
        | Expression::SizeofType(at, _, _, _)
        | Expression::Cast(at, _, _, _) => at.line,
        Expression::Subscript(first, _, _, _)
        | Expression::Call(first, _, _, _)
        | Expression::Member(first, _, _, _)
        | Expression::Postfix(first, _, _)
        | Expression::Binary(first, _, _, _)
        | Expression::Conditional(first, _, _, _, _)
        | Expression::Assignment(first, _, _, _) => expression_line(first.get()),
    }
}

/// The line of an initializer's first token.
pub fn initializer_line(initializer: &Initializer) -> Line
    ensures { result ≡ initializer_line (views.initializer_of initializer.now) }
{
    match initializer {
        Initializer::Value(value) => expression_line(value.expression.get()),
        Initializer::Braced(at, _, _, _, _) => at.line,
    }
}
