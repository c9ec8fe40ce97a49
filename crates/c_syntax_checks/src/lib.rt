//! The words of a syntax tree, and whether it is well formed (C99 6.5 to 6.9): what `c_syntax` defines, in code.
#![tactic(auto)]

mod formed;
mod levels;
mod statement_formed;
mod statement_levels;
mod statement_words;
mod tree_words;

pub use crate::statement_formed::well_formed;
pub use crate::statement_words::words;
