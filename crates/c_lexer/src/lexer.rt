//! From a source text to its tokens (C99 6.4).

ghost use Rattle.std.specs.Prelude.{◌≡◌, ◌≤◌, ◌<◌, ◌^◌, length, IfOk};
ghost use Rattle.c_lexer.specs.Text.{Lexes, newlines};

use crate::scan::front_token;
use crate::separator::skip_gap;
use crate::token::{Token, Tokens};
use sb_base::Line;
use std::alloc::Global;

/// The first place of a text where neither a token nor white space nor a comment stands.
#[derive(Clone, Copy, Debug, PartialEq, Eq)]
pub struct LexFault {
    /// Its byte, counted from 0.
    pub at: u64,
    /// Its line.
    pub line: Line,
}

/// Why a text was not parted into tokens.
#[derive(Clone, Copy, Debug, PartialEq, Eq)]
pub enum LexError {
    /// Somewhere stands neither a token nor white space nor a comment.
    Fault(LexFault),
    /// There was no memory for the tokens.
    Memory,
}

fn newlines(text: &[u8]) -> usize
    ensures value { result ≡ newlines text.now }
    ensures few { result ≤ length text.now }
{
    text.iter().filter(|b| **b == b'\n').count()
}

/// The tokens of a text, the longest one at each place, or the first place where none stands. Each token borrows its
/// bytes of the text. Between tokens stand white space, comments of both kinds, and backslashes that a newline follows,
/// which join lines (C99 5.1.1.2); inside a token such a backslash joins nothing.
///
/// A fault is at a byte that begins no token, at a number that is no integer constant with a type, at the quote of a
/// literal that does not close on its line, has an escape sequence that is none or is above 255, or, between single
/// quotes, has another number of characters than one, and at a `/*` that is never closed.
pub fn lex(alloc: Global, text: &[u8]) -> Result<Tokens<'_>, LexError>
    requires { length text.now ≤ 1048576 }
    ensures value { Lexes text.now result }
    ensures few { IfOk result (λ found. length found.tokens ≤ length text.now) }
{
    let mut items = Vec::new(alloc);
    let mut first = true;
    let mut line = 1;
    let mut rest = text;
    loop {
        let gap = skip_gap(first, rest);
        line += newlines(&rest[..rest.len() - gap.rest.len()]) as u32;
        let here = Line::new(line);
        if gap.rest.is_empty() {
            return Ok(Tokens::new(items, here));
        }
        let Some((kind, length)) = front_token(gap.rest) else {
            return Err(LexError::Fault(LexFault {
                at: (text.len() - gap.rest.len()) as u64,
                line: here,
            }));
        };
        let token = Token {
            kind,
            line: here,
            begins_line: gap.has_newline,
            is_spaced: gap.rest.len() < rest.len(),
        };
        if items.push(token).is_err() {
            return Err(LexError::Memory);
        }
        line += newlines(&gap.rest[..length]) as u32;
        rest = &gap.rest[length..];
        first = false;
    }
}
