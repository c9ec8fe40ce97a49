//! The precedence of the expressions that a rule of C99 6.5 names: an expression of at least this precedence is one of
//! the rule. `c_syntax::operators::precedence` gives that of an expression, from 1 to 17.

/// Any expression, with commas too (6.5.17).
pub const COMMA: u8 = 1;

/// An assignment expression (6.5.16).
pub const ASSIGNMENT: u8 = 2;

/// A conditional expression, which a constant expression is too (6.5.15, 6.6).
pub const CONDITIONAL: u8 = 3;

/// A logical OR expression (6.5.14).
pub const LOGICAL_OR: u8 = 4;

/// A cast expression (6.5.4).
pub const CAST: u8 = 14;

/// A unary expression (6.5.3).
pub const UNARY: u8 = 15;

/// A postfix expression (6.5.2).
pub const POSTFIX: u8 = 16;
