//! Where a token stands in the text, and tokens with their positions.

ghost use Rattle.std.specs.Prelude.{◌≡◌, IfOk};
ghost use Rattle.c_syntax.specs.Words.{positioned};

use c_lexer::{Spelling, Token, TokenKind};
use sb_base::Line;
use std::alloc::{AllocError, Global};

/// Where a token stands.
#[derive(Clone, Copy, Debug, PartialEq, Eq)]
pub struct Position {
    /// Its number among the tokens, from 0.
    pub at: u64,
    /// The line on which it begins.
    pub line: Line,
}

/// A word and where it stands.
#[derive(Drop)]
pub struct Positioned<'a> {
    /// What it is.
    pub kind: TokenKind<'a>,
    /// Where it stands.
    pub position: Position,
}

/// A token whose kind does not fix its spelling, as an identifier, a constant or a string literal: its spelling and
/// where it stands. Which kind it is says the node that has it.
#[derive(Drop)]
pub struct Spelled<'a> {
    /// How it is spelled.
    pub spelling: Spelling<'a>,
    /// Where it stands.
    pub position: Position,
}

/// The words of tokens with their positions, numbered from 0, or the answer that there is no memory for them.
pub fn with_positions<'a>(
    alloc: Global,
    tokens: &[Token<'a>],
) -> Result<Vec<Positioned<'a>>, AllocError>
    ensures { IfOk result (λ words. words.items ≡ positioned tokens.now) }
{
    let mut words = Vec::new(alloc);
    for token in tokens {
        let position = Position {
            at: words.len() as u64,
            line: token.line,
        };
        words.push(Positioned {
            kind: token.kind.again(),
            position,
        })?;
    }
    Ok(words)
}
