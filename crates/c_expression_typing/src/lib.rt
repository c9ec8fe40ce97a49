//! The typing of expressions, type names, declarators and specifiers over the syntax (C99 6.5, 6.7), which contain each
//! other, as a definition (`specs/Typed.antt`): the typed operand, type or shape, or the first rule that is violated in
//! the order of the tokens; and in code the constructs that it puts together.
#![tactic(auto)]

pub mod constructs;
pub mod lines;
