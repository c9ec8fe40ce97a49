//! Names of macros.

ghost use Rattle.std.specs.Prelude.{◌≡◌, bytes_eq};
ghost use Rattle.std.specs.Hash as fed;
ghost use Rattle.std.specs.Cmp.{partial_equiv_from_equiv};
ghost use Rattle.std.specs.Cmp.Lexicographic.{bytes_decides, nat_list_eq_equiv};
ghost use Rattle.std.proofs.Common.{ap};

use c_lexer::TokenKind;
use std::hash::{Hash, Hasher};
use std::marker::Model;

/// The name of a macro (C99 6.10.3). Contracts see the list of its bytes.
#[derive(Drop)]
pub struct MacroName<'a> {
    bytes: &'a [u8],
}

impl<'a> Model for MacroName<'a> {
    ghost use Rattle.std.specs.Prelude.{ℕ, List};

    ghost Value = { List ℕ };

    ghost view = { λ name. name.bytes.now };
}

impl<'a> MacroName<'a> {
    ghost use Rattle.c_pre.specs.Names.{name_of};

    /// The name that a word is, if it is one: an identifier, or a keyword, since while directives are obeyed there are
    /// no keywords (6.4.1 paragraph 2).
    pub fn of(word: &TokenKind<'a>) -> Option<Self>
        ensures { result ≡ name_of word.now }
    {
        match word {
            TokenKind::Identifier(_) | TokenKind::Keyword(_) => Some(MacroName {
                bytes: word.spelling(),
            }),
            _ => None,
        }
    }

    /// Whether these bytes spell it.
    pub fn is(&self, bytes: &[u8]) -> bool
        ensures { result ≡ bytes_eq self.now bytes.now }
    {
        self.bytes == bytes
    }

    /// The same name once more.
    pub fn again(&self) -> Self
        ensures { result ≡ self.now }
    {
        MacroName { bytes: self.bytes }
    }
}

impl<'a> PartialEq for MacroName<'a> {
    ghost eq = { bytes_eq };

    ghost laws = { partial_equiv_from_equiv nat_list_eq_equiv };

    fn eq(&self, other: &Self) -> bool {
        self.bytes == other.bytes
    }
}

impl<'a> Eq for MacroName<'a> {
    ghost laws = { nat_list_eq_equiv };
}

impl<'a> Hash for MacroName<'a> {
    ghost hash_input = { fed.slice fed.u8 };

    ghost respects_eq = { λ x y same. ap (fed.slice fed.u8) ((bytes_decides x y).0 same) };

    fn hash<H: Hasher>(&self, state: &mut H) {
        self.bytes.hash(state);
    }
}
