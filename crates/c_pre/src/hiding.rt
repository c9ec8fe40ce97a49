//! Tokens with their hide sets.

use crate::hide_set::HideSet;
use c_lexer::Token;

/// A token with its hide set (C99 6.10.3.4).
#[derive(Drop)]
pub struct Hiding<'a> {
    /// The token.
    pub token: Token<'a>,
    /// The names by which it is not replaced.
    pub hidden: HideSet,
}
