//! Words of C99 that are in no part of the subset.

ghost use Rattle.std.specs.Prelude.{◌≡◌};
ghost use Rattle.c_lexer.specs.declared.token.TokenKind.TheVariants as kinds;
ghost use Rattle.c_parser.specs.Unsupported as spec;

use c_lexer::{Keyword, Punctuator, Token, TokenKind};
use sb_base::Line;

/// A word of C99 that is in no part of the subset (C99 6.4.1, 6.4.4.4, 6.4.5, 6.4.6).
#[derive(Clone, Copy, Debug, PartialEq, Eq)]
pub enum UnsupportedWord {
    /// `float`.
    Float,
    /// `double`.
    Double,
    /// `_Bool`.
    Bool,
    /// `_Complex`.
    Complex,
    /// `_Imaginary`.
    Imaginary,
    /// `volatile`.
    Volatile,
    /// `restrict`.
    Restrict,
    /// `goto`.
    Goto,
    /// `...`.
    Ellipsis,
    /// A wide character constant or wide string literal.
    Wide,
}

impl UnsupportedWord {
    /// How it is told: as it is spelled, and a wide literal by its `L`.
    #[tactic(auto, unfolding(crate::specs::Unsupported::told_as))]
    pub fn told_as(self) -> &'static [u8]
        ensures { result.now ≡ spec.told_as self }
    {
        match self {
            UnsupportedWord::Float => b"float",
            UnsupportedWord::Double => b"double",
            UnsupportedWord::Bool => b"_Bool",
            UnsupportedWord::Complex => b"_Complex",
            UnsupportedWord::Imaginary => b"_Imaginary",
            UnsupportedWord::Volatile => b"volatile",
            UnsupportedWord::Restrict => b"restrict",
            UnsupportedWord::Goto => b"goto",
            UnsupportedWord::Ellipsis => b"...",
            UnsupportedWord::Wide => b"L",
        }
    }
}

/// Which unsupported word a keyword is, if it is one.
#[tactic(auto, unfolding(crate::specs::Unsupported::unsupported))]
fn unsupported_keyword(keyword: Keyword) -> Option<UnsupportedWord>
    ensures { result ≡ spec.unsupported (kinds.Keyword keyword) }
{
    match keyword {
        Keyword::Float => Some(UnsupportedWord::Float),
        Keyword::Double => Some(UnsupportedWord::Double),
        Keyword::Bool => Some(UnsupportedWord::Bool),
        Keyword::Complex => Some(UnsupportedWord::Complex),
        Keyword::Imaginary => Some(UnsupportedWord::Imaginary),
        Keyword::Volatile => Some(UnsupportedWord::Volatile),
        Keyword::Restrict => Some(UnsupportedWord::Restrict),
        Keyword::Goto => Some(UnsupportedWord::Goto),
        _ => None,
    }
}

/// Which unsupported word it is, if it is one.
#[tactic(auto, unfolding(crate::specs::Unsupported::unsupported))]
fn unsupported(word: &TokenKind) -> Option<UnsupportedWord>
    ensures { result ≡ spec.unsupported word.now }
{
    match word {
        TokenKind::Keyword(keyword) => unsupported_keyword(*keyword),
        TokenKind::Punctuator(Punctuator::Ellipsis) => Some(UnsupportedWord::Ellipsis),
        TokenKind::Wide(_) => Some(UnsupportedWord::Wide),
        _ => None,
    }
}

/// The first unsupported word of the tokens and its line, if there is one.
#[tactic(auto, unfolding(crate::specs::Unsupported::first_unsupported))]
pub(crate) fn first_unsupported(tokens: &[Token]) -> Option<(UnsupportedWord, Line)>
    ensures { result ≡ spec.first_unsupported tokens.now }
{
    for token in tokens {
        if let Some(word) = unsupported(&token.kind) {
            return Some((word, token.line));
        }
    }
    None
}
