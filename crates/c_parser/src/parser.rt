//! From the tokens of a text to its tree.

ghost use Rattle.std.specs.Prelude.{◌≡◌, ◌≤◌, length};
ghost use Rattle.c_parser.specs.Parsed as spec;

use crate::fault::ParseFault;
use crate::unit::unit;
use crate::unsupported::first_unsupported;
use c_grammar::cursor::{Cursor, Fault};
use c_lexer::{Punctuator, Token, TokenKind, Tokens};
use c_syntax::{Unit, with_positions};
use sb_base::Line;
use std::alloc::Global;

/// How many brackets may be open.
const MAX_OPEN_BRACKETS: usize = 200;

/// Whether it is `(`, `[` or `{`.
fn is_left_bracket(word: &TokenKind) -> bool
    ensures { result ≡ spec.is_left_bracket word.now }
{
    match word {
        TokenKind::Punctuator(
            Punctuator::LeftParenthesis | Punctuator::LeftBracket | Punctuator::LeftBrace,
        ) => true,
        _ => false,
    }
}

/// Whether it is `)`, `]` or `}`.
fn is_right_bracket(word: &TokenKind) -> bool
    ensures { result ≡ spec.is_right_bracket word.now }
{
    match word {
        TokenKind::Punctuator(
            Punctuator::RightParenthesis | Punctuator::RightBracket | Punctuator::RightBrace,
        ) => true,
        _ => false,
    }
}

/// Whether the tokens have over 200 more of `(`, `[` and `{` than of `)`, `]` and `}`.
#[tactic(auto, unfolding(crate::specs::Parsed::count_words))]
fn is_nested_too_deep(tokens: &[Token]) -> bool
    ensures { result ≡ spec.is_nested_too_deep tokens.now }
{
    let mut left = 0;
    let mut right = 0;
    for token in tokens {
        left += usize::from(is_left_bracket(&token.kind));
        right += usize::from(is_right_bracket(&token.kind));
    }
    left > right && left - right > MAX_OPEN_BRACKETS
}

/// The line of the token of this number, or that on which the text ends.
fn line_at(tokens: &Tokens, at: usize) -> Line
    ensures { result ≡ spec.line_at tokens.now at }
{
    match tokens.as_slice().get(at) {
        Some(token) => token.line,
        None => tokens.end(),
    }
}

/// The fault at the token of this number, or at the end of the text.
fn fault_at(tokens: &Tokens, at: usize) -> ParseFault
    requires { at ≤ length tokens.now.tokens }
    ensures { spec.IsFaultAt tokens.now at result }
{
    let line = line_at(tokens, at);
    let count = tokens.as_slice().len();
    let end = (at + 1).min(count);
    let at = at as u64;
    if is_nested_too_deep(&tokens.as_slice()[..end]) {
        ParseFault::Nesting { at, line }
    } else {
        ParseFault::Syntax { at, line }
    }
}

/// The tree of a text, or, where there is none, the token at which the parser stood.
#[tactic(auto, using(crate::proofs::Answered::read, crate::proofs::Answered::as_many))]
fn tree_of<'a>(alloc: Global, tokens: &Tokens<'a>) -> Result<Unit<'a>, ParseFault>
    ensures { spec.Parses tokens.now result }
{
    let words = match with_positions(alloc, tokens.as_slice()) {
        Ok(words) => words,
        Err(_) => return Err(ParseFault::Memory),
    };
    let mut cursor = Cursor {
        rest: words.as_slice(),
    };
    match unit(alloc, &mut cursor) {
        Ok(unit) => Ok(unit),
        Err(Fault::Memory) => Err(ParseFault::Memory),
        Err(Fault::Refused) => {
            // What is left is never longer than all words, so the difference is exact.
            let at = words.len().saturating_sub(cursor.rest.len());
            Err(fault_at(tokens, at))
        }
    }
}

/// The tree of a text: the well-formed one of at most 200 levels that has its words (C99 6.9), of which there is at
/// most one. Or the first word that is in no part of the subset, wherever it stands; or, in a text without such a word
/// that has no tree, the token at which the parser stood.
#[tactic(auto, using(crate::proofs::Answered::supported))]
pub fn parse<'a>(alloc: Global, tokens: &Tokens<'a>) -> Result<Unit<'a>, ParseFault>
    ensures judged { spec.Parses tokens.now result }
    ensures supported { spec.IsSupported tokens.now result }
{
    if let Some((word, line)) = first_unsupported(tokens.as_slice()) {
        return Err(ParseFault::Unsupported(word, line));
    }
    tree_of(alloc, tokens)
}

/// Lets a tree go, with its memory. The proof of the drop of a tree is long, and stands here for all crates that call
/// this where they need a tree no more.
pub fn release(_tree: Unit) {}
