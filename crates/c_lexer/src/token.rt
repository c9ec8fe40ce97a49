//! Tokens (C99 6.4).

ghost use Rattle.std.specs.Prelude.{◌≡◌, IsTrue, ◌↔◌};
ghost use Rattle.c_lexer.specs.Spelled.{on_line};
ghost use Rattle.c_lexer.specs.Words.{spelling_of};

use crate::keyword::Keyword;
use crate::punctuator::Punctuator;
use sb_base::Line;
use std::marker::Model;

/// The bytes that spell a token, a slice of the text. Contracts see the list of the bytes.
#[derive(Drop)]
pub struct Spelling<'a> {
    bytes: &'a [u8],
}

impl<'a> Model for Spelling<'a> {
    ghost use Rattle.std.specs.Prelude.{ℕ, List};

    ghost Value = { List ℕ };

    ghost view = { λ s. s.bytes.now };
}

impl<'a> Spelling<'a> {
    ghost use Rattle.std.specs.Prelude.{◌≡◌, bytes_eq};

    /// The spelling that these bytes are.
    pub fn new(bytes: &'a [u8]) -> Self
        ensures { result ≡ bytes.now }
    {
        Spelling { bytes }
    }

    /// The bytes.
    pub fn bytes(&self) -> &'a [u8]
        ensures { result.now ≡ self.now }
    {
        self.bytes
    }

    /// The same spelling once more.
    pub fn again(&self) -> Self
        ensures { result ≡ self.now }
    {
        Spelling { bytes: self.bytes }
    }

    /// Whether both have the same bytes.
    pub fn is(&self, other: &Spelling) -> bool
        ensures { result ≡ bytes_eq self.now other.now }
    {
        self.bytes == other.bytes
    }
}

/// What a token is (C99 6.4), and how it is spelled where that is not fixed.
#[derive(Drop)]
pub enum TokenKind<'a> {
    /// An identifier (6.4.2).
    Identifier(Spelling<'a>),
    /// A keyword (6.4.1).
    Keyword(Keyword),
    /// An integer constant that has a type (6.4.4.1).
    Integer(Spelling<'a>),
    /// A character constant of one character (6.4.4.4), with its quotes.
    Character(Spelling<'a>),
    /// A string literal (6.4.5), with its quotes.
    StringLiteral(Spelling<'a>),
    /// A wide character constant or wide string literal, with its `L` and quotes.
    Wide(Spelling<'a>),
    /// A punctuator (6.4.6).
    Punctuator(Punctuator),
}

impl<'a> TokenKind<'a> {
    /// The same word once more.
    pub fn again(&self) -> Self
        ensures { result ≡ self.now }
    {
        match self {
            TokenKind::Identifier(s) => TokenKind::Identifier(s.again()),
            TokenKind::Keyword(k) => TokenKind::Keyword(*k),
            TokenKind::Integer(s) => TokenKind::Integer(s.again()),
            TokenKind::Character(s) => TokenKind::Character(s.again()),
            TokenKind::StringLiteral(s) => TokenKind::StringLiteral(s.again()),
            TokenKind::Wide(s) => TokenKind::Wide(s.again()),
            TokenKind::Punctuator(p) => TokenKind::Punctuator(*p),
        }
    }

    /// The bytes that spell it. Of a wide literal they begin with its `L`.
    pub fn spelling(&self) -> &'a [u8]
        ensures { result.now ≡ spelling_of self.now }
    {
        match self {
            TokenKind::Identifier(s)
            | TokenKind::Integer(s)
            | TokenKind::Character(s)
            | TokenKind::StringLiteral(s)
            | TokenKind::Wide(s) => s.bytes(),
            TokenKind::Keyword(k) => k.spelling(),
            TokenKind::Punctuator(p) => p.spelling(),
        }
    }

    /// Whether both are the same word, spelled alike.
    pub fn is(&self, other: &TokenKind) -> bool
        ensures { IsTrue result ↔ (self.now ≡ other.now) }
    {
        match (self, other) {
            (TokenKind::Identifier(a), TokenKind::Identifier(b)) => a.is(b),
            (TokenKind::Keyword(a), TokenKind::Keyword(b)) => *a == *b,
            (TokenKind::Integer(a), TokenKind::Integer(b)) => a.is(b),
            (TokenKind::Character(a), TokenKind::Character(b)) => a.is(b),
            (TokenKind::StringLiteral(a), TokenKind::StringLiteral(b)) => a.is(b),
            (TokenKind::Wide(a), TokenKind::Wide(b)) => a.is(b),
            (TokenKind::Punctuator(a), TokenKind::Punctuator(b)) => *a == *b,
            _ => false,
        }
    }
}

/// A token of the text.
#[derive(Drop)]
pub struct Token<'a> {
    /// What it is.
    pub kind: TokenKind<'a>,
    /// The line on which it begins.
    pub line: Line,
    /// Whether it is the first token on its line: a newline that is outside comments and that no backslash precedes,
    /// or the beginning of the text, lies between it and the token before.
    pub begins_line: bool,
    /// Whether white space or a comment stands directly before it.
    pub is_spaced: bool,
}

impl<'a> Token<'a> {
    /// The same token on another line.
    pub fn on_line(&self, line: Line) -> Self
        ensures { result ≡ on_line line self.now }
    {
        Token {
            kind: self.kind.again(),
            line,
            begins_line: self.begins_line,
            is_spaced: self.is_spaced,
        }
    }
}

/// The tokens of a text, and the line on which the text ends: that after its last newline. Contracts see a record of
/// both.
#[derive(Drop)]
pub struct Tokens<'a> {
    items: Vec<Token<'a>>,
    end: Line,
}

impl<'a> Model for Tokens<'a> {
    ghost use Rattle.c_lexer.specs.Spelled.{TokenList};

    ghost Value = { TokenList };

    ghost view = { λ t. record { tokens = t.items.items; end = t.end } };
}

impl<'a> Tokens<'a> {
    ghost use Rattle.std.specs.Prelude.{◌≡◌};

    /// These tokens of a text that ends on this line.
    pub fn new(items: Vec<Token<'a>>, end: Line) -> Self
        ensures { result ≡ record { tokens = items.entry.items; end = end } }
    {
        Tokens { items, end }
    }

    /// The tokens in order.
    pub fn as_slice(&self) -> &[Token<'a>]
        ensures { result.now ≡ self.now.tokens }
    {
        &self.items
    }

    /// The line on which the text ends.
    pub fn end(&self) -> Line
        ensures { result ≡ self.now.end }
    {
        self.end
    }
}
