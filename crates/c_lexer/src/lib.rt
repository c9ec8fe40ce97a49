//! Tokens of a C source text (C99 6.4): the longest token at each place, between white space and comments.
#![tactic(auto)]

mod character;
pub mod integer;
pub mod keyword;
pub mod laws;
pub mod lexer;
mod literal;
pub mod punctuator;
mod scan;
mod separator;
pub mod token;

pub use crate::integer::{IntegerConstant, IntegerType, constant_of};
pub use crate::keyword::Keyword;
pub use crate::lexer::{LexError, LexFault, lex};
pub use crate::literal::{bytes_of_literal, character_value};
pub use crate::punctuator::Punctuator;
pub use crate::token::{Spelling, Token, TokenKind, Tokens};
