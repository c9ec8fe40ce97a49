//! What a line of a text is (C99 6.10 paragraph 1).

ghost use Rattle.std.specs.Prelude.{◌≡◌, ◌<◌, length, IfSome};
ghost use Rattle.c_pre.specs.Directives as spec;
ghost use Rattle.c_pre.specs.Reading as reading;
ghost use Rattle.c_pre.specs.Outcomes.{close_index, line_of_kind};

use crate::condition::Condition;
use crate::definition::{Definition, Macro};
use crate::header::Header;
use crate::name::MacroName;
use crate::parameters::{are_parameters, has_left_out};
use c_lexer::{Punctuator, Token, TokenKind};

/// The name of a directive.
#[derive(Clone, Copy, Debug, PartialEq, Eq)]
pub enum DirectiveName {
    /// `define`
    Define,
    /// `undef`
    Undef,
    /// `include`
    Include,
    /// `ifdef`
    Ifdef,
    /// `ifndef`
    Ifndef,
    /// `if`
    If,
    /// `elif`
    Elif,
    /// `else`
    Else,
    /// `endif`
    Endif,
}

/// What a line is. Where a directive is malformed, what it is to a skipped group is still told.
#[derive(Drop)]
pub enum LineKind<'t, 'a> {
    /// A text line.
    Text,
    /// `#ifdef` of a name, which is to be defined, or `#ifndef`.
    IfDefined(MacroName<'a>, bool),
    /// `#ifdef` or `#ifndef` without one name, which only a skipped group may have.
    IfOther,
    /// `#if`, with the tokens behind the directive's name.
    If(Condition<'t, 'a>),
    /// `#elif`, with the tokens behind the directive's name.
    Elif(Condition<'t, 'a>),
    /// `#else`, and whether nothing stands behind it.
    Else(bool),
    /// `#endif`, and whether nothing stands behind it.
    Endif(bool),
    /// `#define` of a name.
    Define(Definition<'t, 'a>),
    /// `#undef` of a name.
    Undef(MacroName<'a>),
    /// `#include` of a header.
    Include(Header),
    /// `#` alone.
    Null,
    /// `#include` of anything else.
    UnknownInclude,
    /// Any other directive, or a malformed one.
    UnknownDirective,
}

/// The name that stands there alone.
fn only_name<'a>(tokens: &[Token<'a>]) -> Option<MacroName<'a>>
    ensures { result ≡ spec.only_name tokens.now }
{
    let (token, more) = tokens.split_first()?;
    if !more.is_empty() {
        return None;
    }
    MacroName::of(&token.kind)
}

/// Whether a `(` stands directly behind a macro's name.
fn begins_parameters(tokens: &[Token<'_>]) -> bool
    ensures { result ≡ spec.begins_parameters tokens.now }
{
    let Some((token, _)) = tokens.split_first() else {
        return false;
    };
    match token.kind {
        TokenKind::Punctuator(Punctuator::LeftParenthesis) => !token.is_spaced,
        _ => false,
    }
}

/// Whether a token is `)`.
fn is_close(token: &Token<'_>) -> bool
    ensures { result ≡ spec.is_close token.now.kind }
{
    match token.kind {
        TokenKind::Punctuator(Punctuator::RightParenthesis) => true,
        _ => false,
    }
}

/// How many tokens stand before the first `)`, if there is one.
#[tactic(auto, using(crate::proofs::Closing::behind_more, crate::proofs::Closing::behind_none))]
fn close_at(tokens: &[Token<'_>]) -> Option<usize>
    ensures place { result ≡ close_index tokens.now }
    ensures within { IfSome result (λ n. n < length tokens.now) }
{
    let mut n = 0;
    let mut rest = tokens;
    while let [token, more @ ..] = rest {
        if is_close(token) {
            return Some(n);
        }
        n += 1;
        rest = more;
    }
    None
}

/// What `#define` of this name with these tokens behind the `(` of its parameters is.
#[tactic(auto, using(crate::proofs::Closing::parted))]
fn function_like<'t, 'a>(name: MacroName<'a>, tokens: &'t [Token<'a>]) -> LineKind<'t, 'a>
    ensures { line_of_kind result ≡ spec.function_like name.entry (spec.to_close tokens.now) }
{
    let Some(close) = close_at(tokens) else {
        return LineKind::UnknownDirective;
    };
    let parameters = &tokens[..close];
    let list = &tokens[close + 1..];
    if !are_parameters(parameters) || has_left_out(list) {
        return LineKind::UnknownDirective;
    }
    let meaning = Macro {
        parameters: Some(parameters),
        list,
    };
    LineKind::Define(Definition { name, meaning })
}

/// What `#define` with these tokens behind it is.
fn definition_of<'t, 'a>(tokens: &'t [Token<'a>]) -> LineKind<'t, 'a>
    ensures { line_of_kind result ≡ spec.definition tokens.now }
{
    let Some((token, list)) = tokens.split_first() else {
        return LineKind::UnknownDirective;
    };
    let Some(name) = MacroName::of(&token.kind) else {
        return LineKind::UnknownDirective;
    };
    if begins_parameters(list) {
        return function_like(name, &list[1..]);
    }
    let meaning = Macro {
        parameters: None,
        list,
    };
    LineKind::Define(Definition { name, meaning })
}

/// What `#undef` with these tokens behind it is.
fn undefinition<'t, 'a>(tokens: &'t [Token<'a>]) -> LineKind<'t, 'a>
    ensures { line_of_kind result ≡ spec.named_or spec.undef spec.unknown_directive (spec.only_name tokens.now) }
{
    match only_name(tokens) {
        Some(name) => LineKind::Undef(name),
        None => LineKind::UnknownDirective,
    }
}

/// What `#ifdef` (`wanted`) or `#ifndef` with these tokens behind it is.
fn opening<'t, 'a>(tokens: &'t [Token<'a>], wanted: bool) -> LineKind<'t, 'a>
    ensures { line_of_kind result ≡ spec.named_or (λ name. spec.if_defined name wanted) spec.if_other
        (spec.only_name tokens.now) }
{
    match only_name(tokens) {
        Some(name) => LineKind::IfDefined(name, wanted),
        None => LineKind::IfOther,
    }
}

/// The header that `#include` with these tokens behind it names.
fn header_of(tokens: &[Token<'_>]) -> Option<Header>
    ensures { result ≡ spec.header_of tokens.now }
{
    let [less, name, dot, h, greater] = tokens else {
        return None;
    };
    let touches = less.kind.spelling() == b"<".as_slice()
        && !name.is_spaced
        && is_touching(dot, b".")
        && is_touching(h, b"h")
        && is_touching(greater, b">");
    if touches {
        Header::named(name.kind.spelling())
    } else {
        None
    }
}

/// Whether a token is spelled so, with no white space before it.
fn is_touching(token: &Token<'_>, bytes: &[u8]) -> bool
    ensures { result ≡ spec.is_touching token.now bytes.now }
{
    token.kind.spelling() == bytes && !token.is_spaced
}

/// What `#include` with these tokens behind it is.
fn inclusion<'t, 'a>(tokens: &'t [Token<'a>]) -> LineKind<'t, 'a>
    ensures { line_of_kind result ≡ spec.included (spec.header_of tokens.now) }
{
    match header_of(tokens) {
        Some(header) => LineKind::Include(header),
        None => LineKind::UnknownInclude,
    }
}

impl DirectiveName {
    /// The directive of this name.
    fn named(name: &[u8]) -> Option<Self>
        ensures { result ≡ spec.directive_named name.now }
    {
        if name == b"define".as_slice() {
            Some(DirectiveName::Define)
        } else if name == b"undef".as_slice() {
            Some(DirectiveName::Undef)
        } else if name == b"include".as_slice() {
            Some(DirectiveName::Include)
        } else if name == b"ifdef".as_slice() {
            Some(DirectiveName::Ifdef)
        } else if name == b"ifndef".as_slice() {
            Some(DirectiveName::Ifndef)
        } else if name == b"if".as_slice() {
            Some(DirectiveName::If)
        } else if name == b"elif".as_slice() {
            Some(DirectiveName::Elif)
        } else if name == b"else".as_slice() {
            Some(DirectiveName::Else)
        } else if name == b"endif".as_slice() {
            Some(DirectiveName::Endif)
        } else {
            None
        }
    }

    /// What the directive with these tokens behind it is.
    fn with<'t, 'a>(self, tokens: &'t [Token<'a>]) -> LineKind<'t, 'a>
        ensures { line_of_kind result ≡ spec.directive_by self tokens.now }
    {
        match self {
            DirectiveName::Define => definition_of(tokens),
            DirectiveName::Undef => undefinition(tokens),
            DirectiveName::Include => inclusion(tokens),
            DirectiveName::Ifdef => opening(tokens, true),
            DirectiveName::Ifndef => opening(tokens, false),
            DirectiveName::If => LineKind::If(Condition { tokens }),
            DirectiveName::Elif => LineKind::Elif(Condition { tokens }),
            DirectiveName::Else => LineKind::Else(tokens.is_empty()),
            DirectiveName::Endif => LineKind::Endif(tokens.is_empty()),
        }
    }
}

/// What `#` with these tokens behind it is.
fn directive<'t, 'a>(tokens: &'t [Token<'a>]) -> LineKind<'t, 'a>
    ensures { line_of_kind result ≡ spec.directive tokens.now }
{
    let Some((token, more)) = tokens.split_first() else {
        return LineKind::Null;
    };
    match DirectiveName::named(token.kind.spelling()) {
        Some(name) => name.with(more),
        None => LineKind::UnknownDirective,
    }
}

impl<'t, 'a> LineKind<'t, 'a> {
    /// What a line is.
    #[tactic(auto, unfolding(crate::specs::Directives::line_kind))]
    pub fn of(line: &'t [Token<'a>]) -> Self
        ensures { line_of_kind result ≡ spec.line_kind line.now }
    {
        let Some((token, more)) = line.split_first() else {
            return LineKind::Text;
        };
        match token.kind {
            TokenKind::Punctuator(Punctuator::Hash) => directive(more),
            _ => LineKind::Text,
        }
    }

    /// Whether it is a text line.
    pub fn is_text(&self) -> bool
        ensures { result ≡ reading.is_text (line_of_kind self.now) }
    {
        matches!(self, LineKind::Text)
    }
}
