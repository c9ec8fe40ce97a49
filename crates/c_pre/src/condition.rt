//! Conditions of `#if` and `#elif` (C99 6.10.1).

ghost use Rattle.std.specs.Prelude.{◌≡◌, ◌≤◌, ◌+◌, length, map, option_map, IfOk, IfSome};
ghost use Rattle.c_pre.specs.Conditions as spec;
ghost use Rattle.c_pre.specs.Directives as directives;
ghost use Rattle.c_pre.specs.Outcomes.{Steps, macros_of};

use crate::expansion::{MacroTable, expand_alone};
use crate::fault::{PreError, PreFault, PreFaultKind};
use crate::name::MacroName;
use c_conditions::{ConditionFault, evaluate};
use c_lexer::{Punctuator, Spelling, Token, TokenKind};
use sb_base::Line;
use std::alloc::{AllocError, Global};

/// The tokens of a condition, which stay where they stand in the text.
#[derive(Clone, Copy)]
pub struct Condition<'t, 'a> {
    /// What stands behind the directive's name.
    pub tokens: &'t [Token<'a>],
}

/// What is found of a condition.
#[derive(Clone, Copy, Debug)]
pub struct Judged {
    /// Whether it holds.
    pub holds: bool,
    /// How many tokens replacement lists may still put in.
    pub room: usize,
}

/// The operand of a `defined`.
#[derive(Drop)]
struct Operand<'a> {
    /// The name.
    name: MacroName<'a>,
    /// How many tokens it is written with.
    length: usize,
}

/// A token of a condition, and how many tokens behind it belong to it.
#[derive(Drop)]
struct Marked<'a> {
    token: Token<'a>,
    length: usize,
}

/// The constant 1 or 0 where a token stands.
fn number_at<'a>(token: &Token<'_>, holds: bool) -> Token<'a>
    ensures { result ≡ spec.number_at token.now holds }
{
    let spelling = if holds {
        Spelling::new(b"1")
    } else {
        Spelling::new(b"0")
    };
    Token {
        kind: TokenKind::Integer(spelling),
        line: token.line,
        begins_line: token.begins_line,
        is_spaced: token.is_spaced,
    }
}

fn is_open(word: &TokenKind<'_>) -> bool
    ensures { result ≡ directives.is_open word.now }
{
    matches!(word, TokenKind::Punctuator(Punctuator::LeftParenthesis))
}

fn is_close(word: &TokenKind<'_>) -> bool
    ensures { result ≡ directives.is_close word.now }
{
    matches!(word, TokenKind::Punctuator(Punctuator::RightParenthesis))
}

/// Whether a word is the name `defined`.
fn is_defined(word: &TokenKind<'_>) -> bool
    ensures { result ≡ spec.is_defined word.now }
{
    match MacroName::of(word) {
        Some(name) => name.is(b"defined"),
        None => false,
    }
}

/// A name that is written with so many tokens.
fn written<'a>(length: usize, word: &TokenKind<'a>) -> Option<Operand<'a>>
    ensures { option_map (λ o. (o.name, o.length)) result ≡ spec.written length word.now }
{
    let name = MacroName::of(word)?;
    Some(Operand { name, length })
}

/// The operand of a `defined` with these tokens behind its `(`.
fn in_parentheses<'a>(tokens: &[Token<'a>]) -> Option<Operand<'a>>
    ensures operand { option_map (λ o. (o.name, o.length)) result ≡ spec.in_parentheses tokens.now }
    ensures within { IfSome result (λ o. o.length ≤ length tokens.now + 1) }
{
    let [token, close, ..] = tokens else {
        return None;
    };
    if is_close(&close.kind) {
        written(3, &token.kind)
    } else {
        None
    }
}

/// The operand of a `defined` with these tokens behind it, if one stands there.
fn operand_of<'a>(tokens: &[Token<'a>]) -> Option<Operand<'a>>
    ensures operand { option_map (λ o. (o.name, o.length)) result ≡ spec.operand tokens.now }
    ensures within { IfSome result (λ o. o.length ≤ length tokens.now) }
{
    let (token, more) = tokens.split_first()?;
    if is_open(&token.kind) {
        in_parentheses(more)
    } else {
        written(1, &token.kind)
    }
}

/// A token with these behind it, or 1 or 0 where it is `defined` of a name.
fn mark<'a>(macros: &MacroTable<'_, 'a>, token: &Token<'a>, more: &[Token<'a>]) -> Marked<'a>
    ensures marked { (result.token, result.length) ≡ spec.marked (macros_of macros.now) token.now more.now }
    ensures within { result.length ≤ length more.now }
{
    let operand = if is_defined(&token.kind) {
        operand_of(more)
    } else {
        None
    };
    match operand {
        Some(operand) => Marked {
            token: number_at(token, macros.contains_key(&operand.name)),
            length: operand.length,
        },
        None => Marked {
            token: token.on_line(token.line),
            length: 0,
        },
    }
}

/// The tokens with 1 or 0 for each `defined` of a name.
fn with_marks<'a>(
    alloc: Global,
    macros: &MacroTable<'_, 'a>,
    tokens: &[Token<'a>],
) -> Result<Vec<Token<'a>>, AllocError>
    ensures { IfOk result (λ v. v.items ≡ spec.marked_behind 0 (macros_of macros.now) tokens.now) }
{
    let mut out = Vec::new(alloc);
    let mut rest = tokens;
    while let [token, more @ ..] = rest {
        let Marked { token, length } = mark(macros, token, more);
        out.push(token)?;
        rest = &more[length..];
    }
    Ok(out)
}

/// A token, or 0 where it is a name.
fn without_name<'a>(token: &Token<'a>) -> Token<'a>
    ensures { result ≡ spec.without_name token.now }
{
    match MacroName::of(&token.kind) {
        Some(_) => number_at(token, false),
        None => token.on_line(token.line),
    }
}

/// The tokens with 0 for each name.
fn without_names<'a>(alloc: Global, tokens: &[Token<'a>]) -> Result<Vec<Token<'a>>, AllocError>
    ensures { IfOk result (λ v. v.items ≡ map spec.without_name tokens.now) }
{
    let mut out = Vec::new(alloc);
    for token in tokens {
        out.push(without_name(token))?;
    }
    Ok(out)
}

/// Whether the condition on this line holds, and how many tokens replacement lists may still put in.
#[tactic(auto, unfolding(crate::specs::Conditions::condition_at))]
pub fn judge<'t, 'a>(
    alloc: Global,
    at: Line,
    macros: &MacroTable<'t, 'a>,
    room: usize,
    tokens: &[Token<'a>],
) -> Result<Judged, PreError>
    ensures { Steps (spec.condition_at at (macros_of macros.now) room tokens.now) (λ j. j) result }
{
    let marked = with_marks(alloc, macros, tokens)?;
    let expanded = expand_alone(alloc, macros, room, &marked)?;
    let plain = without_names(alloc, &expanded.tokens)?;
    match evaluate(alloc, &plain) {
        Ok(word) => Ok(Judged {
            holds: word != 0,
            room: expanded.room,
        }),
        Err(ConditionFault::NoValue) => Err(PreError::Fault(PreFault::new(
            PreFaultKind::BadCondition,
            at,
        ))),
        Err(ConditionFault::Memory) => Err(PreError::Memory),
    }
}
