//! The lines of a text.

ghost use Rattle.std.specs.Prelude.{◌≡◌, ◌≤◌, length};
ghost use Rattle.c_pre.specs.Outcomes.{is_hash, line_len, line_rest, run_len, run_rest};

use c_lexer::{Punctuator, Token, TokenKind};

/// How many of these tokens still belong to the line before them.
fn line_rest(tokens: &[Token<'_>]) -> usize
    ensures value { result ≡ line_rest tokens.now }
    ensures within { result ≤ length tokens.now }
{
    let mut n = 0;
    let mut rest = tokens;
    while let [token, more @ ..] = rest {
        if token.begins_line {
            return n;
        }
        n += 1;
        rest = more;
    }
    n
}

/// How many tokens the first line has, at least one where there are tokens.
pub fn line_len(tokens: &[Token<'_>]) -> usize
    ensures value { result ≡ line_len tokens.now }
    ensures within { result ≤ length tokens.now }
{
    match tokens {
        [] => 0,
        [_, more @ ..] => line_rest(more) + 1,
    }
}

/// How many tokens belong to the text lines before them, up to the next directive.
fn run_rest(tokens: &[Token<'_>]) -> usize
    ensures value { result ≡ run_rest tokens.now }
    ensures within { result ≤ length tokens.now }
{
    let mut n = 0;
    let mut rest = tokens;
    while let [token, more @ ..] = rest {
        if token.begins_line && is_hash(token) {
            return n;
        }
        n += 1;
        rest = more;
    }
    n
}

/// Whether a token is `#`.
fn is_hash(token: &Token<'_>) -> bool
    ensures { result ≡ is_hash token.now.kind }
{
    match token.kind {
        TokenKind::Punctuator(Punctuator::Hash) => true,
        _ => false,
    }
}

/// How many tokens the first directive, or the text lines up to the first directive, have.
pub fn run_len(tokens: &[Token<'_>]) -> usize
    ensures value { result ≡ run_len tokens.now }
    ensures within { result ≤ length tokens.now }
{
    match tokens {
        [] => 0,
        [first, more @ ..] => {
            if is_hash(first) {
                line_len(tokens)
            } else {
                run_rest(more) + 1
            }
        }
    }
}
