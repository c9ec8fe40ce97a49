//! Parameters of function-like macros (C99 6.10.3 paragraph 10), which stay where they stand in the text.

ghost use Rattle.std.specs.Prelude.{◌≡◌, length};
ghost use Rattle.std.specs.List.{list_any};
ghost use Rattle.c_pre.specs.Names as names;
ghost use Rattle.c_pre.specs.Directives as spec;
ghost use Rattle.c_pre.specs.Outcomes.{FromName, parameter_index};

use crate::name::MacroName;
use c_lexer::{Punctuator, Token, TokenKind};

/// Whether a token is a comma.
fn is_comma(token: &Token<'_>) -> bool
    ensures { result ≡ spec.is_comma token.now.kind }
{
    match token.kind {
        TokenKind::Punctuator(Punctuator::Comma) => true,
        _ => false,
    }
}

/// Whether a name is among these, which commas part.
fn is_among(name: &[u8], tokens: &[Token<'_>]) -> bool
    ensures { result ≡ names.member name.now (spec.names_among tokens.now) }
{
    let mut rest = tokens;
    while let [token, more @ ..] = rest {
        if !is_comma(token) && name == token.kind.spelling() {
            return true;
        }
        rest = more;
    }
    false
}

/// Whether each of these names stands there once.
fn differ(tokens: &[Token<'_>]) -> bool
    ensures { result ≡ spec.differ (spec.names_among tokens.now) }
{
    let mut rest = tokens;
    while let [token, more @ ..] = rest {
        if !is_comma(token) && is_among(token.kind.spelling(), more) {
            return false;
        }
        rest = more;
    }
    true
}

/// Whether names stand there, parted by commas.
fn are_names(tokens: &[Token<'_>]) -> bool
    ensures { result ≡ spec.are_names tokens.now }
{
    let mut rest = tokens;
    while let [name, comma, others @ ..] = rest {
        if MacroName::of(&name.kind).is_none() || !is_comma(comma) {
            return false;
        }
        rest = others;
    }
    match rest {
        [name] => MacroName::of(&name.kind).is_some(),
        _ => false,
    }
}

/// Whether no names stand there, or different ones, parted by commas.
pub fn are_parameters(tokens: &[Token<'_>]) -> bool
    ensures { result ≡ spec.are_parameters tokens.now }
{
    (tokens.is_empty() || are_names(tokens)) && differ(tokens)
}

/// How many names these are.
pub fn count(tokens: &[Token<'_>]) -> usize
    ensures { result ≡ length (spec.names_among tokens.now) }
{
    let mut n = 0usize;
    let mut rest = tokens;
    while let [token, more @ ..] = rest {
        if !is_comma(token) {
            n += 1;
        }
        rest = more;
    }
    n
}

/// What stands from the first name on.
fn from_name<'s, 'a>(tokens: &'s [Token<'a>]) -> &'s [Token<'a>]
    ensures { FromName tokens.now result.now }
{
    let mut rest = tokens;
    while let [token, more @ ..] = rest {
        if !is_comma(token) {
            return rest;
        }
        rest = more;
    }
    rest
}

/// Whether both have the same names in the same order.
pub fn same_names(a: &[Token<'_>], b: &[Token<'_>]) -> bool
    ensures { result ≡ names.same_names (spec.names_among a.now) (spec.names_among b.now) }
{
    let mut a = a;
    let mut b = from_name(b);
    while let [token, more @ ..] = a {
        if !is_comma(token) {
            let [other, others @ ..] = b else {
                return false;
            };
            if token.kind.spelling() != other.kind.spelling() {
                return false;
            }
            b = from_name(others);
        }
        a = more;
    }
    b.is_empty()
}

/// Which of these names a name is, the first being number 0.
#[tactic(auto, using(crate::proofs::Closing::behind_more, crate::proofs::Closing::behind_none))]
pub fn parameter_at(name: &MacroName<'_>, tokens: &[Token<'_>]) -> Option<usize>
    ensures { result ≡ parameter_index name.now (spec.names_among tokens.now) }
{
    let mut n = 0usize;
    let mut rest = tokens;
    while let [token, more @ ..] = rest {
        if !is_comma(token) {
            if name.is(token.kind.spelling()) {
                return Some(n);
            }
            n += 1;
        }
        rest = more;
    }
    None
}

/// Whether a token is `#` or `...`.
fn is_left_out(token: &Token<'_>) -> bool
    ensures { result ≡ spec.is_left_out token.now.kind }
{
    match token.kind {
        TokenKind::Punctuator(Punctuator::Hash) => true,
        TokenKind::Punctuator(Punctuator::Ellipsis) => true,
        _ => false,
    }
}

/// Whether a `#` or `...` stands there.
pub fn has_left_out(tokens: &[Token<'_>]) -> bool
    ensures { result ≡ list_any (λ token. spec.is_left_out token.kind) tokens.now }
{
    let mut rest = tokens;
    while let [token, more @ ..] = rest {
        if is_left_out(token) {
            return true;
        }
        rest = more;
    }
    false
}
