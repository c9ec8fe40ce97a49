//! The tokens of the headers.

ghost use Rattle.std.specs.Prelude.{◌≡◌, IfOk};
ghost use Rattle.c_pre.specs.declared.header.Header.TheVariants as h;
ghost use Rattle.c_pre.specs.Headers.{header_tokens};

use crate::header::Header;
use c_lexer::{LexError, Token, Tokens, lex};
use sb_base::Line;
use std::alloc::{AllocError, Global};

/// The tokens of each header.
#[derive(Drop)]
pub struct Headers<'a> {
    stdio: Tokens<'a>,
    stdlib: Tokens<'a>,
    string: Tokens<'a>,
    stddef: Tokens<'a>,
    limits: Tokens<'a>,
    ghost stdio_is: { stdio.tokens ≡ header_tokens h.Stdio },
    ghost stdlib_is: { stdlib.tokens ≡ header_tokens h.Stdlib },
    ghost string_is: { string.tokens ≡ header_tokens h.String },
    ghost stddef_is: { stddef.tokens ≡ header_tokens h.Stddef },
    ghost limits_is: { limits.tokens ≡ header_tokens h.Limits },
}

impl<'a> Headers<'a> {
    /// Lexes each header.
    pub fn new(alloc: Global) -> Result<Self, AllocError> {
        Ok(Headers {
            stdio: lex_header(alloc, Header::Stdio)?,
            stdlib: lex_header(alloc, Header::Stdlib)?,
            string: lex_header(alloc, Header::String)?,
            stddef: lex_header(alloc, Header::Stddef)?,
            limits: lex_header(alloc, Header::Limits)?,
        })
    }

    /// The tokens of a header.
    pub fn tokens(&self, header: Header) -> &[Token<'a>]
        ensures { result.now ≡ header_tokens header }
    {
        match header {
            Header::Stdio => self.stdio.as_slice(),
            Header::Stdlib => self.stdlib.as_slice(),
            Header::String => self.string.as_slice(),
            Header::Stddef => self.stddef.as_slice(),
            Header::Limits => self.limits.as_slice(),
        }
    }
}

/// Lexes the text of a header. The text has no lexical fault.
#[tactic(auto, unfolding(crate::specs::Headers::header_tokens))]
fn lex_header<'a>(alloc: Global, header: Header) -> Result<Tokens<'a>, AllocError>
    ensures { IfOk result (λ list. list.tokens ≡ header_tokens header) }
{
    match lex(alloc, header.text()) {
        Ok(tokens) => Ok(tokens),
        Err(LexError::Fault(_)) => Ok(Tokens::new(Vec::new(alloc), Line::first())),
        Err(LexError::Memory) => Err(AllocError),
    }
}
