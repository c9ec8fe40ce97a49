//! The parser: the one well-formed tree that has the words of a text, or the token at which the parser stood where
//! there is none (C99 6.7 to 6.9).
#![tactic(auto)]

mod declaration;
pub mod fault;
mod initializer;
pub mod parser;
mod statement;
mod statement_tree;
mod unit;
pub mod unsupported;

pub use crate::fault::ParseFault;
pub use crate::parser::{parse, release};
pub use crate::unsupported::UnsupportedWord;
