//! Directives and macros of a C source text (C99 6.10): from the tokens of the text to those that are compiled.
//!
//! Headers are built in.
#![tactic(auto)]

pub mod arguments;
pub mod condition;
pub mod definition;
pub mod directive;
pub mod expander;
pub mod expansion;
pub mod fault;
pub mod header;
pub mod headers;
pub mod hide_set;
pub mod hiding;
pub mod laws;
pub mod lines;
pub mod name;
pub mod parameters;
pub mod preprocessor;
pub mod section;
pub mod text;
pub mod unread;

pub use crate::fault::{PreError, PreFault, PreFaultKind};
pub use crate::text::expand;

/// The greatest number of expanded tokens.
pub const MAX_EXPANDED_TOKENS: usize = 1048576;

/// The greatest number of tokens that replacement lists put in, all together.
pub const MAX_REPLACEMENT_TOKENS: usize = 16777216;
